// The code of `if`.
ghost use Rattle.std.specs.Prelude.{◌≡◌, ◌+◌, ◌≤◌, ◌&&◌, [], ◌∷◌, ◌++◌, length, nat_eq, IfOk, OnOk};
ghost use Rattle.si_semantics.specs.Tree.{functions_in, functions_of};
ghost use Rattle.si_syntax.specs.Trees.{body_of, expr_of, if_of, others_of};
ghost use Rattle.si_slots.specs.Code.{stmt_code, stmts_code};
ghost use Rattle.si_slots.specs.Contents.{Extends};
ghost use Rattle.si_slots.specs.Machine as machine;
ghost use Rattle.si_slots.specs.Views.{Gains, locals_now};
ghost use Rattle.si_emit.specs.inner.Conditions.{skipping};
ghost use Rattle.si_emit.specs.inner.Silence.{silent_suite};

use crate::condition::emit_skip;
use crate::silence::is_silent;
use crate::suite::emit_suite;
use si_plain::{Names, NoMemory};
use si_slots::{CodeTable, FullInstr};
use si_syntax::{Branch, If};

/// An `if`, each `elif`, and the else suite.
#[cycle(stmts)]
pub(crate) fn emit_if(
    table: &mut CodeTable,
    locals: &Names,
    next: &mut u32,
    statement: &If,
) -> Result<(), NoMemory>
    requires { locals_now table.old ≡ locals.now }
    ensures ok { OnOk result (Gains table.old table.new (stmt_code locals.now next.old (if_of statement.now))) }
    ensures next { OnOk result (next.new ≡ next.old + length (functions_of (if_of statement.now))) }
    ensures extends { Extends table.old table.new }
{
    if stands_alone(statement) {
        return emit_alone(table, locals, next, &statement.first);
    }
    let end = emit_branch(table, locals, next, &statement.first)?;
    emit_others(table, locals, next, statement)?;
    table.aim(end)
}

// Each `elif` of an `if`, and the else suite. The last of them has no jump after it where nothing follows. Each `elif` is
// noted as a statement of its own.
#[cycle(stmts)]
fn emit_others(
    table: &mut CodeTable,
    locals: &Names,
    next: &mut u32,
    statement: &If,
) -> Result<(), NoMemory>
    requires { locals_now table.old ≡ locals.now }
    ensures ok { OnOk result (Gains table.old table.new (stmts_code locals.now next.old (others_of statement.now))) }
    ensures next { OnOk result (next.new ≡ next.old + length (functions_in (others_of statement.now))) }
    ensures extends { Extends table.old table.new }
{
    let quiet = is_silent(&statement.last);
    let mut left = statement.elifs.len();
    let mut ends = Vec::new(table.allocator());
    for branch in &statement.elifs {
        left -= 1;
        table.note_statement()?;
        if ends_here(quiet, left) {
            emit_alone(table, locals, next, branch)?;
            continue;
        }
        ends.push(emit_branch(table, locals, next, branch)?)?;
    }
    emit_suite(table, locals, next, &statement.last)?;
    table.aim_all(&ends)
}

// A test, the suite that is passed over where it isn't true, and the jump after that. It isn't aimed yet: it leads past
// what follows. Says where it is.
#[cycle(stmts)]
fn emit_branch(
    table: &mut CodeTable,
    locals: &Names,
    next: &mut u32,
    branch: &Branch,
) -> Result<usize, NoMemory>
    requires { locals_now table.old ≡ locals.now }
    ensures ok { let suite = stmts_code locals.now next.old (body_of branch.now.body.items) in
        OnOk result (Gains table.old table.new (skipping locals.now (expr_of branch.now.test) (suite ++ machine.Jump 0 ∷ []))) }
    ensures next { OnOk result (next.new ≡ next.old + length (functions_in (body_of branch.now.body.items))) }
    ensures at { IfOk result (λ at. at + 1 ≡ length table.new.lines) }
    ensures after { IfOk result (λ at. length table.old.lines ≤ at) }
    ensures extends { Extends table.old table.new }
{
    let jumps = emit_skip(table, locals, &branch.test)?;
    emit_suite(table, locals, next, &branch.body)?;
    let end = table.len();
    table.put(FullInstr::Jump(0))?;
    table.aim_all(&jumps)?;
    Ok(end)
}

// A test, and the suite that is passed over where it isn't true, with nothing to follow.
#[cycle(stmts)]
fn emit_alone(
    table: &mut CodeTable,
    locals: &Names,
    next: &mut u32,
    branch: &Branch,
) -> Result<(), NoMemory>
    requires { locals_now table.old ≡ locals.now }
    ensures ok { OnOk result (Gains table.old table.new (skipping locals.now (expr_of branch.now.test) (stmts_code locals.now next.old (body_of branch.now.body.items)))) }
    ensures next { OnOk result (next.new ≡ next.old + length (functions_in (body_of branch.now.body.items))) }
    ensures extends { Extends table.old table.new }
{
    let jumps = emit_skip(table, locals, &branch.test)?;
    emit_suite(table, locals, next, &branch.body)?;
    table.aim_all(&jumps)
}

// Whether nothing follows the first suite of an `if`.
fn stands_alone(statement: &If) -> bool
    ensures { result ≡ silent_suite (others_of statement.now) }
{
    statement.elifs.is_empty() && is_silent(&statement.last)
}

// Whether nothing follows the suite of an `elif`, where so many are left after it: the else suite is quiet.
fn ends_here(quiet: bool, left: usize) -> bool
    ensures { result ≡ quiet && nat_eq left 0 }
{
    quiet && left == 0
}
