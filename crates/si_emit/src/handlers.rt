// The code of `try`.
ghost use Rattle.std.specs.Prelude.{◌≡◌, ◌+◌, [], ◌∷◌, ◌++◌, length, map, string_bytes, IfOk, OnOk};
ghost use Rattle.std.specs.Option.{option_map};
ghost use Rattle.si_semantics.specs.Grammar.{clauses_of};
ghost use Rattle.si_semantics.specs.Tree.{functions_in, functions_in_clauses, functions_of};
ghost use Rattle.si_syntax.specs.Trees.{body_of, clause_of, finally_of, try_of};
ghost use Rattle.si_slots.specs.Code.{clauses_code, named_code, stmt_code, stmts_code};
ghost use Rattle.si_slots.specs.Contents.{Extends};
ghost use Rattle.si_slots.specs.Machine as machine;
ghost use Rattle.si_slots.specs.Views.{Gains, locals_now};
ghost use Rattle.si_emit.specs.inner.Clauses.{clause_front};

use crate::suite::emit_suite;
use crate::trying::{
    enter_named, leave_handler, leave_named, leave_try, start_finally, test_clause,
};
use si_plain::{Names, NoMemory};
use si_slots::{CodeTable, FullInstr};
use si_syntax::{Clause, Finally, Stmt, Try};

/// A `try` with a finally suite.
#[cycle(stmts)]
pub(crate) fn emit_finally(
    table: &mut CodeTable,
    locals: &Names,
    next: &mut u32,
    statement: &Finally,
) -> Result<(), NoMemory>
    requires { locals_now table.old ≡ locals.now }
    ensures ok { OnOk result (Gains table.old table.new (stmt_code locals.now next.old (finally_of statement.now))) }
    ensures next { OnOk result (next.new ≡ next.old + length (functions_of (finally_of statement.now))) }
    ensures extends { Extends table.old table.new }
{
    let enter = table.len();
    table.put(FullInstr::EnterFinally(0))?;
    emit_try(table, locals, next, &statement.tried)?;
    start_finally(table, enter)?;
    emit_suite(table, locals, next, &statement.end)?;
    table.put(FullInstr::EndFinally)
}

/// A `try` without its finally suite: the suite, the except clauses where there are any, and the else suite.
#[cycle(stmts)]
pub(crate) fn emit_try(
    table: &mut CodeTable,
    locals: &Names,
    next: &mut u32,
    statement: &Try,
) -> Result<(), NoMemory>
    requires { locals_now table.old ≡ locals.now }
    ensures ok { OnOk result (Gains table.old table.new (stmt_code locals.now next.old (try_of statement.now))) }
    ensures next { OnOk result (next.new ≡ next.old + length (functions_of (try_of statement.now))) }
    ensures extends { Extends table.old table.new }
{
    if statement.clauses.is_empty() {
        emit_suite(table, locals, next, &statement.body)?;
        return emit_suite(table, locals, next, &statement.last);
    }
    let enter = table.len();
    table.put(FullInstr::EnterTry(0))?;
    emit_suite(table, locals, next, &statement.body)?;
    let skip = leave_try(table, enter)?;
    emit_clauses(table, locals, next, &statement.clauses)?;
    let end = table.len();
    table.put(FullInstr::Jump(0))?;
    table.aim(skip)?;
    emit_suite(table, locals, next, &statement.last)?;
    table.aim(end)
}

// The except clauses of a `try`, each noted as a statement of its own. Where none matches, the exception goes on: so it
// does where there is none.
#[cycle(stmts)]
fn emit_clauses(
    table: &mut CodeTable,
    locals: &Names,
    next: &mut u32,
    clauses: &[Clause],
) -> Result<(), NoMemory>
    requires { locals_now table.old ≡ locals.now }
    ensures ok { OnOk result (Gains table.old table.new (clauses_code locals.now next.old (clauses_of (map clause_of clauses.now)))) }
    ensures next { OnOk result (next.new ≡ next.old + length (functions_in_clauses (clauses_of (map clause_of clauses.now)))) }
    ensures extends { Extends table.old table.new }
{
    let mut ends = Vec::new(table.allocator());
    for clause in clauses {
        table.note_statement()?;
        ends.push(emit_clause(table, locals, next, clause)?)?;
    }
    table.put(FullInstr::RaiseAgain)?;
    table.aim_all(&ends)
}

// An except clause: its test where it has an expression, its suite, and the jump after that, which isn't aimed yet: it
// leads past the clauses that follow. Says where it is.
#[cycle(stmts)]
fn emit_clause(
    table: &mut CodeTable,
    locals: &Names,
    next: &mut u32,
    clause: &Clause,
) -> Result<usize, NoMemory>
    requires { locals_now table.old ≡ locals.now }
    ensures ok { let is = clause_of clause.now in let suite = named_code locals.now is.1 (stmts_code locals.now next.old is.2) in
        OnOk result (Gains table.old table.new (clause_front locals.now is.0 suite ++ machine.Jump 0 ∷ [])) }
    ensures next { OnOk result (next.new ≡ next.old + length (functions_in (clause_of clause.now).2)) }
    ensures at { IfOk result (λ at. at + 1 ≡ length table.new.lines) }
    ensures extends { Extends table.old table.new }
{
    let Some(value) = &clause.value else {
        return emit_handler(table, locals, next, &clause.body, &clause.name);
    };
    let skip = test_clause(table, locals, value)?;
    let end = emit_handler(table, locals, next, &clause.body, &clause.name)?;
    table.aim(skip)?;
    Ok(end)
}

// The suite of an except clause, with a name for the exception or with none, and the jump after it, which isn't aimed
// yet. Says where that is.
#[cycle(stmts)]
fn emit_handler(
    table: &mut CodeTable,
    locals: &Names,
    next: &mut u32,
    body: &[Stmt],
    name: &Option<String>,
) -> Result<usize, NoMemory>
    requires { locals_now table.old ≡ locals.now }
    ensures ok { let suite = named_code locals.now (option_map string_bytes name.now) (stmts_code locals.now next.old (body_of body.now)) in
        OnOk result (Gains table.old table.new (suite ++ (machine.LeaveBlock ∷ (machine.Jump 0 ∷ [])))) }
    ensures next { OnOk result (next.new ≡ next.old + length (functions_in (body_of body.now))) }
    ensures at { IfOk result (λ at. at + 1 ≡ length table.new.lines) }
    ensures extends { Extends table.old table.new }
{
    let Some(name) = name else {
        emit_suite(table, locals, next, body)?;
        return leave_handler(table);
    };
    let enter = enter_named(table, locals, name.as_str())?;
    emit_suite(table, locals, next, body)?;
    leave_named(table, locals, name.as_str(), enter)?;
    leave_handler(table)
}
