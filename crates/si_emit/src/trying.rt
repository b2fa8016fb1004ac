// The code that starts and ends the parts of `try`.
ghost use Rattle.std.specs.Prelude.{◌≡◌, ◌+◌, ◌≤◌, List, [], ◌∷◌, ◌++◌, false, length, IfOk, OnOk};
ghost use Rattle.si_semantics.specs.Scope.{place_of};
ghost use Rattle.si_syntax.specs.Trees.{expr_of};
ghost use Rattle.si_slots.specs.Code.{bind_code, finally_code, unbind_code, with_code};
ghost use Rattle.si_slots.specs.Contents.{Contents, Extends};
ghost use Rattle.si_slots.specs.Machine as machine;
ghost use Rattle.si_slots.specs.Views.{Gains, locals_now};

use crate::expression::emit_operand;
use crate::naming::{emit_bind, emit_unbind};
use si_plain::{Names, NoMemory};
use si_slots::{Aim, CodeTable, FullInstr, NamedInstr, Operand, Target};
use si_syntax::Expr;

/// The end of the suite of a `try` that was entered at this place, with the jump past the except clauses, which isn't aimed
/// yet. Says where it is. An exception leads to what follows.
pub(crate) fn leave_try(table: &mut CodeTable, enter: usize) -> Result<usize, NoMemory>
    ensures ok { OnOk result ((front : Contents) (before rest : List machine.Instr) → Gains front table.old (before ++ machine.EnterTry 0 ∷ rest) → enter ≡ length front.lines + length before
        → Gains front table.new (before ++ (machine.EnterTry (length rest + 2) ∷ (rest ++ (machine.LeaveBlock ∷ (machine.Jump 0 ∷ [])))))) }
    ensures at { IfOk result (λ at. at ≡ length table.old.lines + 1) }
    ensures extends { (front : Contents) → length front.lines ≤ enter → Extends front table.old → Extends front table.new }
{
    table.put(FullInstr::LeaveBlock)?;
    let skip = table.len();
    table.put(FullInstr::Jump(0))?;
    table.aim(enter)?;
    Ok(skip)
}

/// The end of the suites in front of a finally suite, which were entered at this place: what is left there, and an
/// exception, leads to what follows.
pub(crate) fn start_finally(table: &mut CodeTable, enter: usize) -> Result<(), NoMemory>
    ensures ok { OnOk result ((front : Contents) (before body : List machine.Instr) → Gains front table.old (before ++ machine.EnterFinally 0 ∷ body) → enter ≡ length front.lines + length before
        → Gains front table.new (before ++ (machine.EnterFinally (length body + 1) ∷ (body ++ machine.StartFinally ∷ [])))) }
    ensures extends { (front : Contents) → length front.lines ≤ enter → Extends front table.old → Extends front table.new }
{
    table.put(FullInstr::StartFinally)?;
    table.aim(enter)
}

/// The test of an except clause, whose jump isn't aimed yet: it leads no further than what follows. Says where it is.
pub(crate) fn test_clause(
    table: &mut CodeTable,
    locals: &Names,
    value: &Expr,
) -> Result<usize, NoMemory>
    requires { locals_now table.old ≡ locals.now }
    ensures ok { OnOk result (Gains table.old table.new (with_code locals.now (expr_of value.now) (λ s. machine.TestClause (machine.ToJump false (machine.Ahead 0)) s))) }
    ensures at { IfOk result (λ at. at + 1 ≡ length table.new.lines) }
    ensures extends { Extends table.old table.new }
{
    let operand = emit_operand(table, locals, 0, true, value)?;
    let at = table.len();
    let target = Target::Jump(false, Aim::Ahead(0));
    table.put_named(NamedInstr::TestClause(target, operand))?;
    Ok(at)
}

/// The end of an except clause's suite, and the jump after it, which isn't aimed yet. Says where that is.
pub(crate) fn leave_handler(table: &mut CodeTable) -> Result<usize, NoMemory>
    ensures ok { OnOk result (Gains table.old table.new (machine.LeaveBlock ∷ (machine.Jump 0 ∷ []))) }
    ensures at { IfOk result (λ at. at + 1 ≡ length table.new.lines) }
    ensures extends { Extends table.old table.new }
{
    table.put(FullInstr::LeaveBlock)?;
    let end = table.len();
    table.put(FullInstr::Jump(0))?;
    Ok(end)
}

/// A name is bound to the exception, and a suite entered after which it is unbound. Says where.
pub(crate) fn enter_named(
    table: &mut CodeTable,
    locals: &Names,
    name: &str,
) -> Result<usize, NoMemory>
    ensures ok { OnOk result (Gains table.old table.new (machine.CopyException (machine.ToTemporary 0) ∷ (bind_code name.now (place_of name.now locals.now) (machine.Temporary 0) ∷ (machine.EnterFinally 0 ∷ [])))) }
    ensures at { IfOk result (λ at. at ≡ length table.old.lines + 2) }
    ensures extends { Extends table.old table.new }
{
    table.put(FullInstr::CopyException(Target::Temporary(0)))?;
    emit_bind(table, locals, name, Operand::Temporary(0))?;
    let enter = table.len();
    table.put(FullInstr::EnterFinally(0))?;
    Ok(enter)
}

/// The name is unbound after the suite that was entered at this place, however that is left.
pub(crate) fn leave_named(
    table: &mut CodeTable,
    locals: &Names,
    name: &str,
    enter: usize,
) -> Result<(), NoMemory>
    ensures ok { OnOk result ((front : Contents) (before body : List machine.Instr) → Gains front table.old (before ++ machine.EnterFinally 0 ∷ body) → enter ≡ length front.lines + length before
        → Gains front table.new (before ++ finally_code body (unbind_code name.now (place_of name.now locals.now) ∷ []))) }
    ensures extends { (front : Contents) → length front.lines ≤ enter → Extends front table.old → Extends front table.new }
{
    start_finally(table, enter)?;
    emit_unbind(table, locals, name)?;
    table.put(FullInstr::EndFinally)
}
