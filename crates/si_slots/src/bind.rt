// Globals that are bound to functions.
ghost use Rattle.std.specs.Prelude.{◌≡◌, [], ◌∷◌, OnOk, OnErr};
ghost use Rattle.si_semantics.specs.Value.{Function};
ghost use Rattle.si_slots.specs.Contents.{Extends};
ghost use Rattle.si_slots.specs.Machine as machine;
ghost use Rattle.si_slots.specs.Views.{Gains};

use crate::full::FullInstr;
use crate::literal::Literal;
use crate::operand::{Constant, Source};
use crate::table::{CodeTable, text_of};
use si_plain::NoMemory;

impl CodeTable {
    /// Adds `FullInstr::StoreGlobal` for a name and the function of that name and this number.
    pub fn store_function(&mut self, name: &str, number: u32) -> Result<(), NoMemory>
        ensures ok { OnOk result (Gains self.old self.new (machine.StoreGlobal name.now (machine.Literal (Function name.now number)) ∷ [])) }
        ensures err { OnErr result (self.new ≡ self.old) }
        ensures extends { OnOk result (Extends self.old self.new) }
    {
        let text = text_of(self.allocator(), name)?;
        let mark = self.mark();
        let slot = self.slot_of(name)?;
        let added = self.add_literal(Literal::Str(text));
        if added.is_err() {
            self.return_to(mark);
        }
        let constant = Constant::Function(number, added?);
        self.append_or_return(
            mark,
            FullInstr::StoreGlobal(slot, Source::Literal(constant)),
        )
    }
}
