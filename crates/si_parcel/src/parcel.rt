// A parcel: a value on its way from one interpreter to another.

ghost use Rattle.std.specs.Prelude.{◌≡◌, ◌↔◌, ◌++◌, ◌<◌, ◌≤◌, ◌⊎◌, Err, length, IsTrue, IfOk, IfErr, IsOk, OnOk, string_bytes, encode_utf8_all};
ghost use Rattle.si_semantics.specs.Parcels.{Leaf, tuple_of, size_of, levels_of, IsParcel, shown, separator, closing};
ghost use Rattle.si_semantics.specs.Parcels as tree;
ghost use Rattle.si_parcel.specs.Tops.{tree_of_top};
ghost use Rattle.si_parcel.specs.TreeCode.{tree_code};
ghost use Rattle.si_parcel.specs.Same.{same_by, same_by_per, same_by_equiv};
ghost use Rattle.si_parcel.specs.declared.refused.TupleFault.TheVariants.{TooLarge, TooDeep};
ghost use Rattle.si_parcel.specs.declared.refused.TupleFault.TheVariants as tuple_fault;
ghost use Rattle.si_parcel.specs.declared.refused.StrFault.TheVariants as str_fault;

use crate::atom::{Atom, show_int, show_queue};
use crate::boxed_text::BoxedText;
use crate::refused::{StrFault, TooLong, TupleFault};
use crate::top::Top;
use si_plain::limits::MAX_STR_LENGTH;
use si_plain::{Octets, Text, repr_bytes, repr_str};
use std::alloc::{AllocError, Global};
use std::boxed::Box;
use std::marker::Model;

/// The most values of a parcel: an atom counts 1, a tuple 1 and its items.
pub const MAX_SIZE: u32 = 65_536;

/// The most levels of a parcel: an atom has none, a tuple one more than its deepest item.
pub const MAX_LEVELS: u8 = 200;

/// A copy of a shareable value (PEP 734, "Shareable Objects"), owned: atoms, and tuples of parcels. A contract sees the
/// tree alone. It has at most 65,536 values and 200 levels, and each str and bytes in it at most 1,048,576 items.
#[cycle(parcel)]
#[derive(Drop)]
pub struct Parcel {
    node: Node,
}

#[cycle(parcel)]
#[derive(Drop)]
enum Node {
    // the atoms stand here and not in an enum of their own, which would have a tag of 8 bytes more; what is larger than 8
    // bytes stands behind a pointer
    Nothing,
    Truth(bool),
    Int(i64),
    Str(BoxedText),
    Bytes(Octets),
    Queue(u32, u64),
    // how many levels and values it has, and its items: in this order it has 16 bytes
    Tuple(u8, u32, Box<Vec<Parcel>>),
}

// Each byte of a parcel is paid for in each call of the journal.
const _: () = prove!(std::mem::size_of::<Parcel>() <= 16);

impl Model for Parcel {
    ghost use Rattle.si_semantics.specs.Parcels.{Tree, size_of};
    ghost use Rattle.si_parcel.specs.TreeCode.{tree_code};

    ghost Value = { Tree };

    ghost coded = { tree_code };

    ghost use Rattle.si_parcel.specs.Views.{tree_of_node, IsKept};

    ghost view = { λ a. tree_of_node a.node };

    ghost invariant = { IsKept };

    ghost size = { size_of };

    ghost use Rattle.si_parcel.specs.Depths.{depth_le-size};

    ghost size_decreases = { λ a h. depth_le-size a.node };
}

impl Parcel {
    /// None.
    pub fn none() -> Parcel
        ensures { result ≡ Leaf tree.Nothing }
    {
        Parcel {
            node: Node::Nothing,
        }
    }

    /// True or False.
    pub fn truth(truth: bool) -> Parcel
        ensures { result ≡ Leaf (tree.Truth truth) }
    {
        Parcel {
            node: Node::Truth(truth),
        }
    }

    /// An int.
    pub fn int(int: i64) -> Parcel
        ensures { result ≡ Leaf (tree.Int int) }
    {
        Parcel {
            node: Node::Int(int),
        }
    }

    /// The queue of this number, which holds at most `maxsize` items, or any number if that is 0.
    pub fn queue(id: u32, maxsize: u64) -> Parcel
        ensures { result ≡ Leaf (tree.Queue id maxsize) }
    {
        Parcel {
            node: Node::Queue(id, maxsize),
        }
    }

    /// A str. `TooLong`, with the text, exactly where it has more than 1,048,576 characters; else `NoMemory`, with the text,
    /// where memory is refused.
    pub fn str(alloc: Global, text: Text) -> Result<Parcel, StrFault>
        ensures str { IfOk result (λ p. p ≡ Leaf (tree.Str text)) }
        ensures long { (result ≡ Err (str_fault.TooLong text)) ↔ (1048576 < length text) }
        ensures back { IfErr result (λ e. (e ≡ str_fault.TooLong text) ⊎ (e ≡ str_fault.NoMemory text)) }
    {
        if text.len() > MAX_STR_LENGTH {
            return Err(StrFault::TooLong(text));
        }
        match BoxedText::new(alloc, text) {
            Err(refused) => Err(StrFault::NoMemory(refused.value)),
            Ok(text) => Ok(Parcel {
                node: Node::Str(text),
            }),
        }
    }

    /// A bytes. `TooLong`, with the bytes, where it has more than 1,048,576 of them.
    pub fn bytes(bytes: Octets) -> Result<Parcel, TooLong<Octets>>
        ensures bytes { IfOk result (λ p. p ≡ Leaf (tree.Bytes bytes)) }
        ensures short { IsOk result ↔ (length bytes ≤ 1048576) }
        ensures back { IfErr result (λ e. e.given ≡ bytes) }
    {
        if bytes.as_slice().len() > MAX_STR_LENGTH {
            return Err(TooLong { given: bytes });
        }
        Ok(Parcel {
            node: Node::Bytes(bytes),
        })
    }

    /// A tuple of these items. `TooLarge`, with the items, where it would have more than 65,536 values; else `TooDeep`, with
    /// the items, where it would have more than 200 levels; else `NoMemory`, with the items, where memory is refused.
    pub fn tuple(alloc: Global, items: Vec<Parcel>) -> Result<Parcel, TupleFault>
        ensures tuple { IfOk result (λ p. p ≡ tuple_of items.items) }
        ensures small { IsOk result → IsParcel (tuple_of items.items) }
        ensures large { (result ≡ Err (TooLarge items)) ↔ (65536 < size_of (tuple_of items.items)) }
        ensures deep { (result ≡ Err (TooDeep items)) ↔ ((size_of (tuple_of items.items) ≤ 65536) × (200 < levels_of (tuple_of items.items))) }
        ensures back { IfErr result (λ e. (e ≡ TooLarge items) ⊎ ((e ≡ TooDeep items) ⊎ (e ≡ tuple_fault.NoMemory items))) }
    {
        let mut size = 1;
        let mut levels = 0;
        'items: for item in &items {
            item.facts();
            if item.size() > MAX_SIZE - size {
                return Err(TupleFault::TooLarge(items));
            }
            size += item.size();
            if levels < item.levels() {
                levels = item.levels();
            }
        }
        if levels == MAX_LEVELS {
            return Err(TupleFault::TooDeep(items));
        }
        match Box::new(alloc, items) {
            Err(refused) => Err(TupleFault::NoMemory(refused.value)),
            Ok(items) => Ok(Parcel {
                node: Node::Tuple(levels + 1, size, items),
            }),
        }
    }

    /// How many values it has: an atom counts 1, a tuple 1 and its items.
    pub fn size(&self) -> u32
        ensures { result ≡ size_of self.now }
    {
        match &self.node {
            Node::Tuple(_, size, _) => *size,
            _ => 1,
        }
    }

    /// How deep its tuples lie within each other: 0 for an atom, 1 for `()`.
    pub fn levels(&self) -> u8
        ensures { result ≡ levels_of self.now }
    {
        match &self.node {
            Node::Tuple(levels, _, _) => *levels,
            _ => 0,
        }
    }

    /// Its atom or its items.
    pub fn top(&self) -> Top<'_>
        ensures { tree_of_top result ≡ self.now }
    {
        match &self.node {
            Node::Nothing => Top::Atom(Atom::Nothing),
            Node::Truth(truth) => Top::Atom(Atom::Truth(*truth)),
            Node::Int(int) => Top::Atom(Atom::Int(*int)),
            Node::Str(text) => Top::Atom(Atom::Str(text.as_text())),
            Node::Bytes(bytes) => Top::Atom(Atom::Bytes(bytes)),
            Node::Queue(id, maxsize) => Top::Atom(Atom::Queue(*id, *maxsize)),
            Node::Tuple(_, _, items) => Top::Tuple(items.as_slice()),
        }
    }

    /// It is within the limits. Costs nothing.
    pub fn facts(&self)
        ensures { IsParcel self.now }
    {
        let _ = &self.node;
    }

    /// The same tree again. `AllocError` where memory is refused.
    #[inline]
    pub fn clone_parcel(&self, alloc: Global) -> Result<Parcel, AllocError>
        ensures { IfOk result (λ p. p ≡ self.now) }
    {
        match &self.node {
            Node::Tuple(_, _, _) => self.clone_tree(alloc),
            _ => self.clone_atom(),
        }
    }

    // The same atom again.
    #[inline]
    fn clone_atom(&self) -> Result<Parcel, AllocError>
        requires { levels_of self.now ≡ 0 }
        ensures { IfOk result (λ p. p ≡ self.now) }
    {
        let node = match &self.node {
            Node::Nothing => Node::Nothing,
            Node::Truth(truth) => Node::Truth(*truth),
            Node::Int(int) => Node::Int(*int),
            Node::Str(text) => Node::Str(text.clone()?),
            Node::Bytes(bytes) => Node::Bytes(bytes.clone()?),
            Node::Queue(id, maxsize) => Node::Queue(*id, *maxsize),
            Node::Tuple(_, _, _) => unreachable!(),
        };
        Ok(Parcel { node })
    }

    // The same tree again; out of line, since it calls itself.
    #[inline(never)]
    fn clone_tree(&self, alloc: Global) -> Result<Parcel, AllocError>
        ensures { IfOk result (λ p. p ≡ self.now) }
    {
        match &self.node {
            Node::Tuple(levels, size, items) => {
                let mut copies = Vec::with_capacity(alloc, items.len())?;
                'copies: for item in items.as_slice() {
                    let copy = match &item.node {
                        Node::Tuple(_, _, _) => item.clone_tree(alloc)?,
                        _ => item.clone_atom()?,
                    };
                    copies.push(copy)?;
                }
                let node = Node::Tuple(*levels, *size, Box::new(alloc, copies)?);
                Ok(Parcel { node })
            }
            _ => self.clone_atom(),
        }
    }

    // Whether the two are the same tree.
    pub(crate) fn same(&self, other: &Parcel) -> bool
        ensures { IsTrue result ↔ (self.now ≡ other.now) }
    {
        match (&self.node, &other.node) {
            (Node::Nothing, Node::Nothing) => true,
            (Node::Truth(b), Node::Truth(c)) => *b == *c,
            (Node::Int(n), Node::Int(m)) => *n == *m,
            (Node::Str(text), Node::Str(other)) => text == other,
            (Node::Bytes(bytes), Node::Bytes(other)) => bytes == other,
            (Node::Queue(id, maxsize), Node::Queue(other, size)) => {
                *id == *other && *maxsize == *size
            }
            (Node::Tuple(_, _, items), Node::Tuple(_, _, others)) => {
                let parts = items.as_slice();
                let others = others.as_slice();
                let len = parts.len();
                if len != others.len() {
                    return false;
                }
                'items: for i in 0..len {
                    if !parts[i].same(&others[i]) {
                        return false;
                    }
                }
                true
            }
            _ => false,
        }
    }

    /// Its `repr` (Python Standard Library 3.14, "Built-in Functions"), however long. `AllocError` where memory is refused.
    pub fn show(&self, alloc: Global) -> Result<String, AllocError>
        ensures { IfOk result (λ s. string_bytes s ≡ encode_utf8_all (shown self.now)) }
    {
        let mut out = String::new(alloc);
        self.show_into(alloc, &mut out)?;
        Ok(out)
    }

    // Its `repr`, after what was written.
    fn show_into(&self, alloc: Global, out: &mut String) -> Result<(), AllocError>
        ensures { OnOk result (string_bytes out.new ≡ string_bytes out.old ++ encode_utf8_all (shown self.now)) }
    {
        match &self.node {
            Node::Nothing => out.push_str("None"),
            Node::Truth(true) => out.push_str("True"),
            Node::Truth(false) => out.push_str("False"),
            Node::Int(n) => show_int(*n, out),
            Node::Str(text) => out.push_str(repr_str(alloc, text.as_text().as_str())?.as_str()),
            Node::Bytes(bytes) => out.push_str(repr_bytes(alloc, bytes.as_slice())?.as_str()),
            Node::Queue(id, _) => show_queue(*id, out),
            Node::Tuple(_, _, items) => {
                let parts = items.as_slice();
                out.push_str("(")?;
                'items: for (at, item) in parts.iter().enumerate() {
                    separate(out, at)?;
                    item.show_into(alloc, out)?;
                }
                close(out, parts.len())
            }
        }
    }
}

impl PartialEq for Parcel {
    ghost eq = { same_by tree_code };

    ghost laws = { same_by_per tree_code };

    /// Whether the two are the same tree: True is never 1.
    fn eq(&self, other: &Parcel) -> bool
        ensures eq { result ≡ same_by tree_code self.now other.now }
        ensures same { IsTrue result ↔ (self.now ≡ other.now) }
    {
        self.same(other)
    }
}

impl Eq for Parcel {
    ghost laws = { same_by_equiv tree_code };
}

// What stands before the item at a place.
fn separate(out: &mut String, at: usize) -> Result<(), AllocError>
    ensures { OnOk result (string_bytes out.new ≡ string_bytes out.old ++ encode_utf8_all (separator at)) }
{
    match at {
        0 => Ok(()),
        _ => out.push_str(", "),
    }
}

// What stands after so many items.
fn close(out: &mut String, count: usize) -> Result<(), AllocError>
    ensures { OnOk result (string_bytes out.new ≡ string_bytes out.old ++ encode_utf8_all (closing count)) }
{
    match count {
        1 => out.push_str(",)"),
        _ => out.push_str(")"),
    }
}
