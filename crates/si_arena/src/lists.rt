// The lists of an arena.

ghost use Rattle.std.specs.Prelude.{◌≡◌, ◌≢◌, ◌<◌, ◌++◌, ◌∷◌, [], List, length, slice_get, slice_set, Some, IfOk, IfSome, IfNone, OnOk, OnErr};
ghost use Rattle.si_semantics.specs.Value as pure;
ghost use Rattle.si_semantics.specs.Opened.{opened};
ghost use Rattle.si_semantics.specs.Containers.{without_item};
ghost use Rattle.si_arena.specs.Memory.{value_of, all_of, Lies, AllLie, IsMade, list_at, IsListAt, with_object, items_held};

use crate::arena::Arena;
use crate::cells::Cells;
use crate::held::Held;
use crate::value::Ref;
use si_plain::NoMemory;

impl Arena {
    /// A list of these items, at the next address (Python Language Reference 3.14, 6.2.5); unchanged where memory is
    /// refused.
    pub fn make_list(&mut self, items: Vec<Ref>) -> Result<Ref, NoMemory>
        requires { AllLie self.old items.items }
        ensures ok { IfOk result (λ r. IsMade (pure.Items (all_of self.old items.items)) self.old self.new r) }
        ensures err { OnErr result (self.new ≡ self.old) }
    {
        let address = self.objects.len();
        let cells = Cells::new(self.alloc, items)?;
        self.objects.push(Held::List(cells))?;
        Ok(Ref::Object(address))
    }

    /// A list of these items, which are copied, at the next address; unchanged where memory is refused.
    pub fn make_list_of(&mut self, items: &[Ref]) -> Result<Ref, NoMemory>
        requires { AllLie self.old items.now }
        ensures ok { IfOk result (λ r. IsMade (pure.Items (all_of self.old items.now)) self.old self.new r) }
        ensures err { OnErr result (self.new ≡ self.old) }
    {
        let row = Vec::from_slice(self.alloc, items)?;
        self.make_list(row)
    }

    /// The items of the list at an address, where one is there.
    #[inline(always)]
    pub fn list(&self, address: usize) -> Option<&[Ref]>
        requires { address < length self.now.store }
        ensures some { IfSome result (λ items. (slice_get self.now.store address ≡ Some (pure.Items (all_of self.now items.now))) × AllLie self.now items.now) }
        ensures none { IfNone result ((vs : List pure.Value) → slice_get self.now.store address ≢ Some (pure.Items vs)) }
    {
        match &self.objects[address] {
            Held::List(items) => Some(items.as_slice()),
            _ => None,
        }
    }

    /// One item more at the end of the list at an address; unchanged where memory is refused.
    #[inline(always)]
    pub fn append(&mut self, address: usize, item: Ref) -> Result<(), NoMemory>
        requires list { IsListAt self.old address }
        requires item { Lies self.old item }
        ensures ok { OnOk result (self.new ≡ with_object address (pure.Items (list_at self.old address ++ value_of self.old item ∷ [])) self.old) }
        ensures err { OnErr result (self.new ≡ self.old) }
    {
        self.objects[address].append(item)?;
        Ok(())
    }

    /// More items at the end of the list at an address; unchanged where memory is refused.
    pub fn extend(&mut self, address: usize, items: &[Ref]) -> Result<(), NoMemory>
        requires list { IsListAt self.old address }
        requires items { AllLie self.old items.now }
        ensures ok { OnOk result (self.new ≡ with_object address (pure.Items (list_at self.old address ++ all_of self.old items.now)) self.old) }
        ensures err { OnErr result (self.new ≡ self.old) }
    {
        self.objects[address].extend(items)?;
        Ok(())
    }

    /// The items of a tuple or a list, which may be the same list, at the end of the list at an address; of any other
    /// value none. Unchanged where memory is refused.
    pub fn extend_from(&mut self, address: usize, value: Ref) -> Result<(), NoMemory>
        requires list { IsListAt self.old address }
        requires value { Lies self.old value }
        ensures ok { OnOk result (self.new ≡ with_object address (pure.Items (list_at self.old address ++ items_held (opened self.old.store (value_of self.old value)))) self.old) }
        ensures err { OnErr result (self.new ≡ self.old) }
    {
        let more = Vec::from_slice(self.alloc, self.held_items(&value))?;
        self.extend(address, more.as_slice())
    }

    // The items of a tuple or a list; of any other value none.
    fn held_items(&self, value: &Ref) -> &[Ref]
        requires { Lies self.now value.now }
        ensures items { all_of self.now result.now ≡ items_held (opened self.now.store (value_of self.now value.now)) }
        ensures lie { AllLie self.now result.now }
    {
        let _known = &self.alloc;
        match value {
            Ref::Tuple(place) => self.tuple(*place),
            Ref::Object(address) => match self.list(*address) {
                Some(items) => items,
                None => &[],
            },
            _ => &[],
        }
    }

    /// The list at an address has another item at a position. Takes no memory.
    pub fn set_item(&mut self, address: usize, at: usize, item: Ref)
        requires list { IsListAt self.old address }
        requires at { at < length (list_at self.old address) }
        requires item { Lies self.old item }
        ensures { self.new ≡ with_object address (pure.Items (slice_set (list_at self.old address) at (value_of self.old item))) self.old }
    {
        self.objects[address].set_item(at, item);
    }

    /// The item at a position is taken away from the list at an address, and given. Takes no memory.
    pub fn remove_item(&mut self, address: usize, at: usize) -> Ref
        requires list { IsListAt self.old address }
        requires at { at < length (list_at self.old address) }
        ensures item { slice_get (list_at self.old address) at ≡ Some (value_of self.new result) }
        ensures lies { Lies self.new result }
        ensures rest { self.new ≡ with_object address (pure.Items (without_item at (list_at self.old address))) self.old }
    {
        self.objects[address].remove_item(at)
    }
}
