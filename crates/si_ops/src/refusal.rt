// Why a comparison has no answer.

ghost use Rattle.si_semantics.specs.Operations as operations;
ghost use Rattle.si_arena.specs.Memory.{Memory};
ghost use Rattle.si_ops.specs.Runs.{Throws, kind_refused};

use si_arena::Cause;
use si_plain::Kind;

/// Why a comparison has no answer.
#[derive(Clone, Copy, Debug)]
pub enum Refusal {
    /// Its operands are of a wrong kind.
    WrongType,
    /// Tuples are too deep within each other (this project's own).
    TooDeep,
    /// An integer that can't be a byte is looked for among bytes.
    WrongValue,
}

impl Refusal {
    /// The cause of the exception that is raised.
    pub fn cause(self) -> Cause
        ensures { (m : Memory) → Throws (λ w. operations.truth (kind_refused self) w) m result }
    {
        match self {
            Refusal::WrongType => Cause::WrongType,
            Refusal::TooDeep => Cause::TooDeep,
            Refusal::WrongValue => Cause::Arithmetic(Kind::ValueError),
        }
    }
}
