// Literals that lie beside the code.
ghost use Rattle.std.specs.Prelude.{◌≡◌};

use crate::keywords::Keywords;
use si_plain::{Octets, Text};

/// A literal of a script, among them each integer past 16 bits, the name of a function, or the names of arguments that are
/// passed by name.
#[derive(Debug, Drop)]
pub enum Literal {
    Str(Text),
    Bytes(Octets),
    Keywords(Keywords),
    /// An integer past 16 bits: one that fits into them stands in the instruction.
    Int(i64),
}

impl Literal {
    ghost use Rattle.si_plain.specs.Characters.{characters_of};
    ghost use Rattle.si_slots.specs.Literals.{name_in};

    /// The characters of a str; none of another.
    pub fn name(&self) -> &str
        ensures { characters_of result.now ≡ name_in self.now }
    {
        match self {
            Literal::Str(text) => text.as_str(),
            Literal::Bytes(_) => "",
            Literal::Keywords(_) => "",
            Literal::Int(_) => "",
        }
    }
}
