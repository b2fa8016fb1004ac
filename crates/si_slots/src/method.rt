// Calls of methods.
ghost use Rattle.std.specs.Prelude.{◌≡◌, ◌≢◌, [], ◌∷◌, OnOk, OnErr, map, string_bytes};
ghost use Rattle.si_slots.specs.Contents.{Extends};
ghost use Rattle.si_slots.specs.Machine as machine;
ghost use Rattle.si_slots.specs.Views.{Gains, target_of};

use crate::full::FullInstr;
use crate::keywords::Keywords;
use crate::literal::Literal;
use crate::operand::Target;
use crate::table::CodeTable;
use si_plain::NoMemory;

impl CodeTable {
    /// Adds `FullInstr::CallMethod` for a temporary, so many arguments above it, none of them by name, and a name.
    pub fn put_method(
        &mut self,
        target: Target,
        at: u32,
        arguments: u32,
        name: &str,
    ) -> Result<(), NoMemory>
        ensures ok { OnOk result (Gains self.old self.new (machine.CallMethod (target_of target) at arguments name.now [] ∷ [])) }
        ensures err { OnErr result (self.new ≡ self.old) }
        ensures extends { OnOk result (Extends self.old self.new) }
    {
        let mark = self.mark();
        let slot = self.slot_of(name)?;
        self.append_or_return(mark, FullInstr::CallMethod(target, at, arguments, slot))
    }

    /// Adds `FullInstr::CallMethodByName` for a temporary, so many arguments above it, a name, and the names of the last
    /// arguments, of which there is one at least.
    pub fn put_method_by_name(
        &mut self,
        target: Target,
        at: u32,
        arguments: u32,
        name: &str,
        keywords: &[String],
    ) -> Result<(), NoMemory>
        requires { keywords.now ≢ [] }
        ensures ok { OnOk result (Gains self.old self.new (machine.CallMethod (target_of target) at arguments name.now (map string_bytes keywords.now) ∷ [])) }
        ensures err { OnErr result (self.new ≡ self.old) }
        ensures extends { OnOk result (Extends self.old self.new) }
    {
        let copied = Keywords::of(self.allocator(), keywords)?;
        let mark = self.mark();
        let slot = self.slot_of(name)?;
        let added = self.add_literal(Literal::Keywords(copied));
        if added.is_err() {
            self.return_to(mark);
        }
        self.append_or_return(
            mark,
            FullInstr::CallMethodByName(target, at, arguments, slot, added?),
        )
    }
}
