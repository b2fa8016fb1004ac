// The code of loops.
ghost use Rattle.std.specs.Prelude.{◌≡◌, ◌+◌, length, OnOk};
ghost use Rattle.si_semantics.specs.Tree.{functions_of};
ghost use Rattle.si_syntax.specs.Trees.{for_of, while_of};
ghost use Rattle.si_slots.specs.Code.{stmt_code};
ghost use Rattle.si_slots.specs.Contents.{Extends};
ghost use Rattle.si_slots.specs.Views.{Gains, locals_now};

use crate::loops::{emit_entry, emit_next, emit_turn};
use crate::suite::emit_suite;
use si_plain::{Names, NoMemory};
use si_slots::{CodeTable, FullInstr};
use si_syntax::{For, While};

/// A `while`.
#[cycle(stmts)]
pub(crate) fn emit_while(
    table: &mut CodeTable,
    locals: &Names,
    next: &mut u32,
    statement: &While,
) -> Result<(), NoMemory>
    requires { locals_now table.old ≡ locals.now }
    ensures ok { OnOk result (Gains table.old table.new (stmt_code locals.now next.old (while_of statement.now))) }
    ensures next { OnOk result (next.new ≡ next.old + length (functions_of (while_of statement.now))) }
    ensures extends { Extends table.old table.new }
{
    let number = table.statement();
    let start = table.len();
    table.put(FullInstr::EnterLoop(0, 0))?;
    let body = table.len();
    emit_suite(table, locals, next, &statement.body)?;
    let turn = table.len();
    emit_turn(table, locals, number, body, &statement.test)?;
    emit_suite(table, locals, next, &statement.last)?;
    table.aim_loop(start, turn)
}

/// A `for`.
#[cycle(stmts)]
pub(crate) fn emit_for(
    table: &mut CodeTable,
    locals: &Names,
    next: &mut u32,
    statement: &For,
) -> Result<(), NoMemory>
    requires { locals_now table.old ≡ locals.now }
    ensures ok { OnOk result (Gains table.old table.new (stmt_code locals.now next.old (for_of statement.now))) }
    ensures next { OnOk result (next.new ≡ next.old + length (functions_of (for_of statement.now))) }
    ensures extends { Extends table.old table.new }
{
    let number = table.statement();
    let entry = emit_entry(table, locals, &statement.target, &statement.items)?;
    emit_suite(table, locals, next, &statement.body)?;
    let item = table.len();
    emit_next(table, locals, number, &statement.target, entry)?;
    emit_suite(table, locals, next, &statement.last)?;
    table.aim_loop(entry, item)
}
