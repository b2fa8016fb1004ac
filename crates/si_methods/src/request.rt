// What is kept of a request, and what a call gives.

ghost use Rattle.std.specs.Prelude.{◌≡◌};
ghost use Rattle.si_methods.specs.Answering.{placed_of};

use si_arena::{Fault, Ref};
use si_parcel::Action;

/// What is kept of a request to understand its answer: neither a parcel, nor a text, nor the number of a queue or a run
/// (PEP 734, "Interpreter Objects" and "Queue Objects").
#[derive(Clone, Copy, Debug)]
pub enum Awaited {
    /// A new interpreter.
    Create,
    /// A new queue of at most so many items, 0 for no bound.
    CreateQueue(u64),
    /// An item was to be put into a queue, once there is room.
    Put,
    /// An item was to be put into a queue, if there is room.
    PutNow,
    /// The first item of a queue, once there is one.
    Get,
    /// The first item of a queue, if there is one.
    GetNow,
    /// How many items a queue has.
    Size,
    /// Whether a queue has no item.
    IsEmpty,
    /// Whether a queue has as many items as it may have, which are so many, 0 for no bound.
    IsFull(u64),
    /// Names were to be bound in this interpreter.
    Prepare(u32),
    /// A run was to be started in this interpreter, whose end is awaited then.
    Exec(u32),
    /// The end of that run.
    AwaitExec,
    /// A run was to be started in this interpreter by the thread at an address.
    StartThread { thread: usize, interpreter: u32 },
    /// The end of the run of a thread.
    JoinThread,
    /// The interpreters that are not closed.
    ListAll,
    /// Whether this interpreter runs.
    IsRunning(u32),
    /// This interpreter was to be closed.
    Close(u32),
}

/// What a call of a method gives.
#[derive(Drop)]
pub enum Answered {
    /// This value.
    Value(Ref),
    /// It asks an action of what all share, of which this is kept.
    Asks(Awaited, Action),
    /// KeyError of this key, which is not there: it is the argument of an exception that is not among the objects yet.
    NoKey(Ref),
}

/// This value, unless there is none.
pub fn placed(value: Result<Ref, Fault>) -> Result<Answered, Fault>
    ensures { result ≡ placed_of value }
{
    match value {
        Ok(value) => Ok(Answered::Value(value)),
        Err(fault) => Err(fault),
    }
}
