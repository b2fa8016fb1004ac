// The code of statements.
ghost use Rattle.std.specs.Prelude.{◌≡◌, ◌+◌, length, OnOk};
ghost use Rattle.si_semantics.specs.Tree.{functions_in, functions_of};
ghost use Rattle.si_syntax.specs.Trees.{body_of, stmt_of};
ghost use Rattle.si_slots.specs.Code.{stmt_code, stmts_code};
ghost use Rattle.si_slots.specs.Contents.{Extends};
ghost use Rattle.si_slots.specs.Views.{Gains, locals_now};

use crate::assigning::{emit_assign, emit_delete};
use crate::choosing::emit_if;
use crate::evaluating::emit_evaluate;
use crate::handlers::{emit_finally, emit_try};
use crate::naming::emit_import;
use crate::repeats::{emit_for, emit_while};
use crate::simple::{emit_define, emit_raise, emit_return};
use crate::updating::{emit_augment, emit_augment_item};
use si_plain::{Names, NoMemory};
use si_slots::{CodeTable, FullInstr};
use si_syntax::Stmt;

/// Statements one after another, where these names are local. The functions that they define are numbered from `next`
/// on, which moves past the last of them. The table is told where the code of each begins.
#[cycle(stmts)]
pub(crate) fn emit_suite(
    table: &mut CodeTable,
    locals: &Names,
    next: &mut u32,
    body: &[Stmt],
) -> Result<(), NoMemory>
    requires { locals_now table.old ≡ locals.now }
    ensures ok { OnOk result (Gains table.old table.new (stmts_code locals.now next.old (body_of body.now))) }
    ensures next { OnOk result (next.new ≡ next.old + length (functions_in (body_of body.now))) }
    ensures extends { Extends table.old table.new }
{
    for stmt in body {
        table.note_statement()?;
        emit_stmt(table, locals, next, stmt)?;
    }
    Ok(())
}

#[cycle(stmts)]
#[tactic(auto, using(si_syntax::proofs::Forms::if_is, si_syntax::proofs::Forms::while_is, si_syntax::proofs::Forms::for_is, si_syntax::proofs::Forms::define_is, si_syntax::proofs::Forms::try_is, si_syntax::proofs::Forms::finally_is))]
fn emit_stmt(
    table: &mut CodeTable,
    locals: &Names,
    next: &mut u32,
    stmt: &Stmt,
) -> Result<(), NoMemory>
    requires { locals_now table.old ≡ locals.now }
    ensures ok { OnOk result (Gains table.old table.new (stmt_code locals.now next.old (stmt_of stmt.now))) }
    ensures next { OnOk result (next.new ≡ next.old + length (functions_of (stmt_of stmt.now))) }
    ensures extends { Extends table.old table.new }
{
    match stmt {
        Stmt::Evaluate(expr) => emit_evaluate(table, locals, expr),
        Stmt::Assign(statement) => emit_assign(table, locals, statement),
        Stmt::Augment(statement) => emit_augment(table, locals, statement),
        Stmt::AugmentItem(statement) => emit_augment_item(table, locals, statement),
        Stmt::Delete(item) => emit_delete(table, locals, item),
        Stmt::Pass => Ok(()),
        Stmt::If(statement) => emit_if(table, locals, next, statement),
        Stmt::While(statement) => emit_while(table, locals, next, statement),
        Stmt::For(statement) => emit_for(table, locals, next, statement),
        Stmt::Break(_) => table.put(FullInstr::Break),
        Stmt::Continue(_) => table.put(FullInstr::Continue),
        Stmt::Define(function) => emit_define(table, locals, next, function.name.as_str()),
        Stmt::Return(_, value) => emit_return(table, locals, value),
        Stmt::Global(_, _) => Ok(()),
        Stmt::Import(_, module) => emit_import(table, locals, *module),
        Stmt::Raise(value) => emit_raise(table, locals, value),
        Stmt::Try(statement) => emit_try(table, locals, next, statement),
        Stmt::Finally(statement) => emit_finally(table, locals, next, statement),
    }
}
