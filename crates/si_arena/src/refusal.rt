// Why a call is refused by the rules of modules and of what all interpreters share.

use si_plain::Kind;

/// Why a call of a module, a thread, an interpreter or a queue is refused. The kind of the exception and its message follow
/// from it (PEP 734; Python Standard Library 3.14, "threading"; the messages are this project's own).
#[derive(Clone, Copy, Debug, PartialEq, Eq)]
pub enum Refusal {
    /// A value that is not shareable is to go to another interpreter.
    NotShareable,
    /// A thread is started again.
    AlreadyStarted,
    /// A thread is joined before it was started.
    NotStarted,
    /// There are as many interpreters as the limits allow.
    TooManyInterpreters,
    /// There are as many queues as the limits allow.
    TooManyQueues,
    /// A queue has as many items as it may have.
    QueueIsFull,
    /// A queue has no item.
    QueueIsEmpty,
    /// An interpreter is to close itself.
    Current,
    /// The main interpreter is to be closed.
    Main,
}

impl Refusal {
    ghost use Rattle.std.specs.Prelude.{◌≡◌};
    ghost use Rattle.si_arena.specs.Causes.{refusal_kind, refusal_message};

    /// The kind of the exception.
    pub fn kind(self) -> Kind
        ensures { result ≡ refusal_kind self }
    {
        match self {
            Refusal::NotShareable => Kind::NotShareableError,
            Refusal::AlreadyStarted => Kind::RuntimeError,
            Refusal::NotStarted => Kind::RuntimeError,
            Refusal::TooManyInterpreters => Kind::InterpreterError,
            Refusal::TooManyQueues => Kind::RuntimeError,
            Refusal::QueueIsFull => Kind::QueueFull,
            Refusal::QueueIsEmpty => Kind::QueueEmpty,
            Refusal::Current => Kind::InterpreterError,
            Refusal::Main => Kind::InterpreterError,
        }
    }

    /// The message of the exception, which is ASCII.
    pub fn message(self) -> &'static str
        ensures { result.now ≡ refusal_message self }
    {
        match self {
            Refusal::NotShareable => "not shareable",
            Refusal::AlreadyStarted => "thread already started",
            Refusal::NotStarted => "thread not started",
            Refusal::TooManyInterpreters => "too many interpreters",
            Refusal::TooManyQueues => "too many queues",
            Refusal::QueueIsFull => "queue is full",
            Refusal::QueueIsEmpty => "queue is empty",
            Refusal::Current => "interpreter is current",
            Refusal::Main => "interpreter is main",
        }
    }
}
