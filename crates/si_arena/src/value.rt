// Values.

use crate::short::Short;
use si_plain::{Kind, ModuleName};

/// A function that is there without a definition, or a type that is called like a function (Python Standard Library
/// 3.14, "Built-in Functions").
#[derive(Clone, Copy, Debug, PartialEq, Eq)]
pub enum BuiltIn {
    Print,
    Range,
    Str,
    Repr,
    Len,
    Bool,
    Abs,
    Int,
    Ord,
    Chr,
    Min,
    Max,
    Bytes,
    Tuple,
    List,
}

/// Which row of the arena has room for a text: the narrow one for characters below 256 alone.
#[derive(Clone, Copy, Debug, PartialEq, Eq)]
pub(crate) enum Width {
    Narrow,
    Wide,
}

/// No bytes, where four that are copied at once may begin: what follows it in a variant of `Ref` begins there too. A value
/// whose variant is not known is then copied in pieces of which no two share a byte.
pub type AtWord = [u32; 0];

/// A value of a script (Python Language Reference 3.14, 3.2), or that there is none. Where two differ, they may yet
/// denote one value.
#[derive(Clone, Copy, Debug)]
pub enum Ref {
    /// No value: what is at a name that is not bound.
    Unbound,
    None,
    /// True or False.
    Truth(AtWord, bool),
    Int(i64),
    /// A str of few characters, which are here.
    Short(Short),
    /// A str: so many characters from one on of the arena's narrow row.
    Narrow { length: u32, start: usize },
    /// A str: so many characters from one on of the arena's wide row.
    Wide { length: u32, start: usize },
    /// A few bytes, which are here.
    ShortBytes(Short),
    /// So many bytes from one on of the arena's narrow row.
    Bytes { length: u32, start: usize },
    BuiltIn(AtWord, BuiltIn),
    /// A function of a script, by its number among those that its interpreter has read, and the number of its name
    /// among the arena's names.
    Function { number: u32, name: usize },
    /// A range, by its place among the arena's ranges.
    Range(usize),
    /// A tuple, by its place among the arena's tuples.
    Tuple(usize),
    /// A kind of exception.
    Kind(AtWord, Kind),
    /// A module that was imported.
    Module(AtWord, ModuleName),
    /// A queue, by its number and the most items that it may have, 0 for no bound.
    Queue { id: u32, maxsize: u64 },
    /// An interpreter, by its number.
    Interpreter(u32),
    /// The method `exec` of the interpreter of a number.
    Exec(u32),
    /// An object, by its address.
    Object(usize),
}

// Values are copied, and so they are small.
const _: () = prove!(size_of::<Ref>() <= 16);

impl Width {
    ghost use Rattle.std.specs.Prelude.{◌≡◌};
    ghost use Rattle.si_arena.specs.Texts.{FitsIn, IsNarrow, slice_in};
    ghost use Rattle.si_arena.specs.declared.value.Width.TheVariants as width;

    // The row in which two texts have room: the narrow one where it may be.
    pub fn of_both(left: Ref, right: Ref) -> Width
        ensures left { FitsIn result left }
        ensures right { FitsIn result right }
        ensures narrow { IsNarrow left → IsNarrow right → result ≡ width.Narrow }
    {
        match (left, right) {
            (Ref::Wide { .. }, _) => Width::Wide,
            (_, Ref::Wide { .. }) => Width::Wide,
            _ => Width::Narrow,
        }
    }

    // So many characters of its row, from a start on.
    pub fn slice(self, length: u32, start: usize) -> Ref
        ensures is { result ≡ slice_in self length start }
        ensures fits { FitsIn self result }
    {
        match self {
            Width::Narrow => Ref::Narrow { length, start },
            Width::Wide => Ref::Wide { length, start },
        }
    }
}
