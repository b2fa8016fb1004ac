// What a value is to an operator.

ghost use Rattle.std.specs.Prelude.{◌≡◌, Some, None, IfOk, IfErr};
ghost use Rattle.si_semantics.specs.Operations as operations;
ghost use Rattle.si_arena.specs.Memory.{value_of, Lies};
ghost use Rattle.si_arena.specs.declared.cause.Cause.TheVariants.{WrongType};
ghost use Rattle.si_ops.specs.Operands.{Stands};

use crate::truth::int_of_truth;
use si_arena::{Arena, Cause, Ref, View};

/// What a value is to an operator.
#[derive(Clone, Copy, Debug)]
pub enum Operand {
    Integer(i64),
    /// True or False.
    Truth(bool),
    /// A str.
    Text,
    Bytes,
    Tuple,
    /// Of a kind that no operator on integers, on texts, on bytes or on tuples takes.
    Other,
}

impl Operand {
    /// What a value is to an operator.
    pub fn of(arena: &Arena, value: Ref) -> Operand
        requires { Lies arena.now value }
        ensures { Stands arena.now value result }
    {
        match arena.view(&value) {
            View::None => Operand::Other,
            View::Truth(truth) => Operand::Truth(truth),
            View::Int(n) => Operand::Integer(n),
            View::Str(_) => Operand::Text,
            View::Bytes(_) => Operand::Bytes,
            View::BuiltIn(_) => Operand::Other,
            View::Function(_, _) => Operand::Other,
            View::Range(_) => Operand::Other,
            View::Tuple(_) => Operand::Tuple,
            View::Kind(_) => Operand::Other,
            View::Module(_) => Operand::Other,
            View::Queue(_, _) => Operand::Other,
            View::Interpreter(_) => Operand::Other,
            View::Exec(_) => Operand::Other,
            View::Object(_) => Operand::Other,
        }
    }
}

/// An integer, or what True and False count as; `WrongType` for any other value.
pub fn integer_in(arena: &Arena, value: Ref) -> Result<i64, Cause>
    requires { Lies arena.now value }
    ensures ok { IfOk result (λ n. operations.integer_in (value_of arena.now value) ≡ Some n) }
    ensures err { IfErr result (λ cause. (operations.integer_in (value_of arena.now value) ≡ None) × (cause ≡ WrongType)) }
{
    match arena.view(&value) {
        View::None => Err(Cause::WrongType),
        View::Truth(truth) => Ok(int_of_truth(truth)),
        View::Int(n) => Ok(n),
        View::Str(_) => Err(Cause::WrongType),
        View::Bytes(_) => Err(Cause::WrongType),
        View::BuiltIn(_) => Err(Cause::WrongType),
        View::Function(_, _) => Err(Cause::WrongType),
        View::Range(_) => Err(Cause::WrongType),
        View::Tuple(_) => Err(Cause::WrongType),
        View::Kind(_) => Err(Cause::WrongType),
        View::Module(_) => Err(Cause::WrongType),
        View::Queue(_, _) => Err(Cause::WrongType),
        View::Interpreter(_) => Err(Cause::WrongType),
        View::Exec(_) => Err(Cause::WrongType),
        View::Object(_) => Err(Cause::WrongType),
    }
}
