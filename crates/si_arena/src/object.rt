// What a value in the arena may be more than itself: ranges and objects.

use crate::cause::Cause;
use crate::value::Ref;
use si_plain::Kind;

/// The integers of a range (Python Standard Library 3.14, "Built-in Types": ranges): its start, its stop, and its step,
/// which is not 0 in a range of a script.
#[derive(Clone, Copy, Debug, PartialEq, Eq)]
pub struct Steps {
    pub start: i64,
    pub stop: i64,
    pub step: i64,
}

/// An object: an exception (Python Standard Library 3.14, "Built-in Exceptions"), or a thread (Python Standard Library 3.14,
/// "threading").
#[derive(Clone, Copy, Debug)]
pub enum Object {
    /// One without an argument, of its kind.
    Bare(Kind),
    /// One of its kind with its argument.
    Made(Kind, Ref),
    /// What an operation raised: its kind and its argument, the message, follow from the cause.
    Caused(Cause),
    /// A thread that is to run a text, which is a str, in the interpreter of a number.
    Thread { interpreter: u32, text: Ref },
    /// A thread that was started, by its run.
    Started(u64),
}

impl Object {
    ghost use Rattle.std.specs.Prelude.{◌≡◌};
    ghost use Rattle.si_arena.specs.Objects.{kind_in};

    /// The kind of the exception; of a thread BaseException.
    pub fn kind(self) -> Kind
        ensures { result ≡ kind_in self }
    {
        match self {
            Object::Bare(kind) => kind,
            Object::Made(kind, _) => kind,
            Object::Caused(cause) => cause.kind(),
            Object::Thread { .. } => Kind::BaseException,
            Object::Started(_) => Kind::BaseException,
        }
    }
}

// Objects lie in a row, and so they are small.
const _: () = prove!(size_of::<Object>() <= 24);
