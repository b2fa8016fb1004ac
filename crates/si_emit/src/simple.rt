// The code of `def`, `return` and `raise`.
ghost use Rattle.std.specs.Prelude.{◌≡◌, ◌+◌, [], ◌∷◌, OnOk};
ghost use Rattle.std.specs.Option.{option_map};
ghost use Rattle.si_semantics.specs.Scope.{place_of};
ghost use Rattle.si_semantics.specs.Value.{Function};
ghost use Rattle.si_syntax.specs.Trees.{expr_of};
ghost use Rattle.si_slots.specs.Code.{bind_code, raise_code, return_code};
ghost use Rattle.si_slots.specs.Contents.{Extends};
ghost use Rattle.si_slots.specs.Machine as machine;
ghost use Rattle.si_slots.specs.Views.{Gains, locals_now};

use crate::expression::emit_operand;
use crate::naming::bind_function;
use si_plain::{Names, NoMemory};
use si_slots::{CodeTable, Constant, FullInstr, NamedInstr, Source};
use si_syntax::Expr;
use std::alloc::AllocError;

/// A name is bound to the function of the next number, which moves on. There are at most 2^32: past them memory counts as
/// refused.
pub(crate) fn emit_define(
    table: &mut CodeTable,
    locals: &Names,
    next: &mut u32,
    name: &str,
) -> Result<(), NoMemory>
    ensures ok { OnOk result (Gains table.old table.new (bind_code name.now (place_of name.now locals.now) (machine.Literal (Function name.now next.old)) ∷ [])) }
    ensures next { OnOk result (next.new ≡ next.old + 1) }
    ensures extends { Extends table.old table.new }
{
    bind_function(table, locals, name, *next)?;
    *next = next.checked_add(1).ok_or(AllocError)?;
    Ok(())
}

/// A function is left with the value of an expression, or with None.
pub(crate) fn emit_return(
    table: &mut CodeTable,
    locals: &Names,
    value: &Option<Expr>,
) -> Result<(), NoMemory>
    requires { locals_now table.old ≡ locals.now }
    ensures ok { OnOk result (Gains table.old table.new (return_code locals.now (option_map expr_of value.now))) }
    ensures extends { Extends table.old table.new }
{
    match value {
        Some(expr) => {
            let operand = emit_operand(table, locals, 0, true, expr)?;
            table.put_named(NamedInstr::Return(operand))
        }
        None => table.put(FullInstr::Return(Source::Literal(Constant::Nothing))),
    }
}

/// The value of an expression is raised, or the active exception again.
pub(crate) fn emit_raise(
    table: &mut CodeTable,
    locals: &Names,
    value: &Option<Expr>,
) -> Result<(), NoMemory>
    requires { locals_now table.old ≡ locals.now }
    ensures ok { OnOk result (Gains table.old table.new (raise_code locals.now (option_map expr_of value.now))) }
    ensures extends { Extends table.old table.new }
{
    match value {
        Some(expr) => {
            let operand = emit_operand(table, locals, 0, true, expr)?;
            table.put_named(NamedInstr::Raise(operand))
        }
        None => table.put(FullInstr::RaiseAgain),
    }
}
