// The code of scripts.
ghost use Rattle.std.specs.Prelude.{◌≡◌, ◌+◌, [], ◌∷◌, ◌++◌, length, map, IfOk, OnOk, OnErr};
ghost use Rattle.si_semantics.specs.Grammar.{clauses_of};
ghost use Rattle.si_semantics.specs.Tree.{functions_in, functions_in_clauses, functions_of};
ghost use Rattle.si_semantics.specs.Value.{Nothing};
ghost use Rattle.si_syntax.specs.Trees.{body_of, clause_of, finally_of, for_of, if_of, others_of, stmt_of, try_of, while_of};
ghost use Rattle.si_scope.specs.Scripts.{script_of};
ghost use Rattle.si_slots.specs.Code.{compiled, entries_from, functions_code, module_code, stmts_code};
ghost use Rattle.si_slots.specs.Contents.{Extends};
ghost use Rattle.si_slots.specs.Machine as machine;
ghost use Rattle.si_slots.specs.Views.{table_of};
ghost use Rattle.si_emit.specs.inner.Functions.{GainsFunctions, GainsRoutines, StandAt};

use crate::suite::emit_suite;
use si_plain::{Names, NoMemory};
use si_scope::Scoped;
use si_slots::{CodeTable, Constant, FullInstr, Routine, Source};
use si_syntax::{Clause, Define, Finally, For, If, Stmt, Try, While};
use std::alloc::AllocError;

/// Adds the code of a script to a table, that of its functions first, and says where the code of its statements begins.
/// That ends in `FullInstr::Finish`.
///
/// `NoMemory`: memory was refused, or the table would have more than 2^32 slots, literals or functions, or as many
/// instructions. The table then is as it was.
pub fn compile(tree: &Scoped, table: &mut CodeTable) -> Result<usize, NoMemory>
    ensures ok { IfOk result (λ at. (table_of table.new, at) ≡ compiled (table_of table.old) (record { body = script_of tree.now })) }
    ensures gains { let functions = functions_in (script_of tree.now) in
        OnOk result (GainsRoutines table.old table.new (functions_code functions ++ machine.owned 0 (module_code (length table.old.routines) (script_of tree.now))) (entries_from (length table.old.lines) functions)) }
    ensures extends { OnOk result (Extends table.old table.new) }
    ensures err { OnErr result (table.new ≡ table.old) }
{
    let mark = table.mark();
    match emit_script(table, tree) {
        Ok(at) => Ok(at),
        Err(refusal) => {
            table.return_to(mark);
            Err(refusal)
        }
    }
}

// The functions of a script, and then its statements, noted as a text of its own. Says where the code of the statements
// begins.
fn emit_script(table: &mut CodeTable, tree: &Scoped) -> Result<usize, NoMemory>
    ensures ok { let functions = functions_in (script_of tree.now) in
        OnOk result (GainsRoutines table.old table.new (functions_code functions ++ machine.owned 0 (module_code (length table.old.routines) (script_of tree.now))) (entries_from (length table.old.lines) functions)) }
    ensures at { IfOk result (λ at. at ≡ length table.old.lines + length (functions_code (functions_in (script_of tree.now)))) }
    ensures extends { Extends table.old table.new }
{
    table.begin_text()?;
    let first = u32::try_from(table.routines()).map_err(|_| AllocError)?;
    let mut number = 0;
    emit_functions(table, tree, &mut number, tree.body())?;
    let at = table.len();
    emit_body(table, first, tree.body())?;
    Ok(at)
}

// The statements of a script, whose functions are numbered from `first` on, and the end of its run. They are the code of
// no function.
fn emit_body(table: &mut CodeTable, first: u32, body: &[Stmt]) -> Result<(), NoMemory>
    ensures ok { OnOk result (GainsRoutines table.old table.new (machine.owned 0 (module_code first (body_of body.now))) []) }
    ensures extends { Extends table.old table.new }
{
    table.close();
    let locals = Names::new(table.allocator());
    let mut next = first;
    emit_suite(table, &locals, &mut next, body)?;
    table.put(FullInstr::Finish)
}

// The functions that statements of a script define, in order. `number` counts them in the script: it is that of the first
// of them, and moves past the last.
#[cycle(functions)]
fn emit_functions(
    table: &mut CodeTable,
    script: &Scoped,
    number: &mut u32,
    body: &[Stmt],
) -> Result<(), NoMemory>
    requires { StandAt (functions_in (script_of script.now)) number.old (functions_in (body_of body.now)) }
    ensures ok { OnOk result (GainsFunctions table.old table.new (functions_in (body_of body.now))) }
    ensures number { OnOk result (number.new ≡ number.old + length (functions_in (body_of body.now))) }
    ensures extends { Extends table.old table.new }
{
    for stmt in body {
        emit_functions_of(table, script, number, stmt)?;
    }
    Ok(())
}

// Those of one of them.
#[cycle(functions)]
#[tactic(auto, using(si_syntax::proofs::Forms::if_is, si_syntax::proofs::Forms::while_is, si_syntax::proofs::Forms::for_is, si_syntax::proofs::Forms::define_is, si_syntax::proofs::Forms::try_is, si_syntax::proofs::Forms::finally_is))]
fn emit_functions_of(
    table: &mut CodeTable,
    script: &Scoped,
    number: &mut u32,
    stmt: &Stmt,
) -> Result<(), NoMemory>
    requires { StandAt (functions_in (script_of script.now)) number.old (functions_of (stmt_of stmt.now)) }
    ensures ok { OnOk result (GainsFunctions table.old table.new (functions_of (stmt_of stmt.now))) }
    ensures number { OnOk result (number.new ≡ number.old + length (functions_of (stmt_of stmt.now))) }
    ensures extends { Extends table.old table.new }
{
    match stmt {
        Stmt::If(statement) => emit_functions_of_if(table, script, number, statement),
        Stmt::While(statement) => emit_functions_of_while(table, script, number, statement),
        Stmt::For(statement) => emit_functions_of_for(table, script, number, statement),
        Stmt::Try(statement) => emit_functions_of_try(table, script, number, statement),
        Stmt::Finally(statement) => emit_functions_of_finally(table, script, number, statement),
        Stmt::Define(function) => {
            let Some(locals) = script.locals(*number as usize) else {
                unreachable!()
            };
            emit_function(table, locals, number, function)
        }
        Stmt::Evaluate(_)
        | Stmt::Assign(_)
        | Stmt::Augment(_)
        | Stmt::AugmentItem(_)
        | Stmt::Delete(_)
        | Stmt::Pass
        | Stmt::Break(_)
        | Stmt::Continue(_)
        | Stmt::Return(_, _)
        | Stmt::Global(_, _)
        | Stmt::Import(_, _)
        | Stmt::Raise(_) => Ok(()),
    }
}

// Those of an `if`.
#[cycle(functions)]
fn emit_functions_of_if(
    table: &mut CodeTable,
    script: &Scoped,
    number: &mut u32,
    statement: &If,
) -> Result<(), NoMemory>
    requires { StandAt (functions_in (script_of script.now)) number.old (functions_of (if_of statement.now)) }
    ensures ok { OnOk result (GainsFunctions table.old table.new (functions_of (if_of statement.now))) }
    ensures number { OnOk result (number.new ≡ number.old + length (functions_of (if_of statement.now))) }
    ensures extends { Extends table.old table.new }
{
    emit_functions(table, script, number, &statement.first.body)?;
    emit_functions_of_others(table, script, number, statement)
}

// Those of each `elif`, and of the else suite.
#[cycle(functions)]
fn emit_functions_of_others(
    table: &mut CodeTable,
    script: &Scoped,
    number: &mut u32,
    statement: &If,
) -> Result<(), NoMemory>
    requires { StandAt (functions_in (script_of script.now)) number.old (functions_in (others_of statement.now)) }
    ensures ok { OnOk result (GainsFunctions table.old table.new (functions_in (others_of statement.now))) }
    ensures number { OnOk result (number.new ≡ number.old + length (functions_in (others_of statement.now))) }
    ensures extends { Extends table.old table.new }
{
    for branch in &statement.elifs {
        emit_functions(table, script, number, &branch.body)?;
    }
    emit_functions(table, script, number, &statement.last)
}

// Those of a `while`.
#[cycle(functions)]
fn emit_functions_of_while(
    table: &mut CodeTable,
    script: &Scoped,
    number: &mut u32,
    statement: &While,
) -> Result<(), NoMemory>
    requires { StandAt (functions_in (script_of script.now)) number.old (functions_of (while_of statement.now)) }
    ensures ok { OnOk result (GainsFunctions table.old table.new (functions_of (while_of statement.now))) }
    ensures number { OnOk result (number.new ≡ number.old + length (functions_of (while_of statement.now))) }
    ensures extends { Extends table.old table.new }
{
    emit_functions(table, script, number, &statement.body)?;
    emit_functions(table, script, number, &statement.last)
}

// Those of a `for`.
#[cycle(functions)]
fn emit_functions_of_for(
    table: &mut CodeTable,
    script: &Scoped,
    number: &mut u32,
    statement: &For,
) -> Result<(), NoMemory>
    requires { StandAt (functions_in (script_of script.now)) number.old (functions_of (for_of statement.now)) }
    ensures ok { OnOk result (GainsFunctions table.old table.new (functions_of (for_of statement.now))) }
    ensures number { OnOk result (number.new ≡ number.old + length (functions_of (for_of statement.now))) }
    ensures extends { Extends table.old table.new }
{
    emit_functions(table, script, number, &statement.body)?;
    emit_functions(table, script, number, &statement.last)
}

// Those of a `try` with a finally suite.
#[cycle(functions)]
fn emit_functions_of_finally(
    table: &mut CodeTable,
    script: &Scoped,
    number: &mut u32,
    statement: &Finally,
) -> Result<(), NoMemory>
    requires { StandAt (functions_in (script_of script.now)) number.old (functions_of (finally_of statement.now)) }
    ensures ok { OnOk result (GainsFunctions table.old table.new (functions_of (finally_of statement.now))) }
    ensures number { OnOk result (number.new ≡ number.old + length (functions_of (finally_of statement.now))) }
    ensures extends { Extends table.old table.new }
{
    emit_functions_of_try(table, script, number, &statement.tried)?;
    emit_functions(table, script, number, &statement.end)
}

// Those of a `try` without its finally suite.
#[cycle(functions)]
fn emit_functions_of_try(
    table: &mut CodeTable,
    script: &Scoped,
    number: &mut u32,
    statement: &Try,
) -> Result<(), NoMemory>
    requires { StandAt (functions_in (script_of script.now)) number.old (functions_of (try_of statement.now)) }
    ensures ok { OnOk result (GainsFunctions table.old table.new (functions_of (try_of statement.now))) }
    ensures number { OnOk result (number.new ≡ number.old + length (functions_of (try_of statement.now))) }
    ensures extends { Extends table.old table.new }
{
    emit_functions(table, script, number, &statement.body)?;
    emit_functions_of_clauses(table, script, number, &statement.clauses)?;
    emit_functions(table, script, number, &statement.last)
}

// Those of except clauses.
#[cycle(functions)]
fn emit_functions_of_clauses(
    table: &mut CodeTable,
    script: &Scoped,
    number: &mut u32,
    clauses: &[Clause],
) -> Result<(), NoMemory>
    requires { StandAt (functions_in (script_of script.now)) number.old (functions_in_clauses (clauses_of (map clause_of clauses.now))) }
    ensures ok { OnOk result (GainsFunctions table.old table.new (functions_in_clauses (clauses_of (map clause_of clauses.now)))) }
    ensures number { OnOk result (number.new ≡ number.old + length (functions_in_clauses (clauses_of (map clause_of clauses.now)))) }
    ensures extends { Extends table.old table.new }
{
    for clause in clauses {
        emit_functions(table, script, number, &clause.body)?;
    }
    Ok(())
}

// A function, with the names that are local to it. `number` moves past its number: there are at most
// 2^32, and past them memory counts as refused.
fn emit_function(
    table: &mut CodeTable,
    locals: &Names,
    number: &mut u32,
    function: &Define,
) -> Result<(), NoMemory>
    ensures ok { OnOk result (GainsRoutines table.old table.new (machine.owned (length locals.now) (stmts_code locals.now 0 (body_of function.now.body.items) ++ machine.Return (machine.Literal Nothing) ∷ [])) ((record { at = length table.old.lines; parameters = length function.now.parameters.items; locals = length locals.now }) ∷ [])) }
    ensures number { OnOk result (number.new ≡ number.old + 1) }
    ensures extends { Extends table.old table.new }
{
    let routine = Routine {
        at: table.len(),
        parameters: u32::try_from(function.parameters.len()).map_err(|_| AllocError)?,
        locals: u32::try_from(locals.len()).map_err(|_| AllocError)?,
    };
    *number = number.checked_add(1).ok_or(AllocError)?;
    emit_code(table, locals, &function.body)?;
    table.add_routine(routine)
}

// The code of a function with these locals. At its end it returns None.
fn emit_code(table: &mut CodeTable, locals: &Names, body: &[Stmt]) -> Result<(), NoMemory>
    ensures ok { OnOk result (GainsRoutines table.old table.new (machine.owned (length locals.now) (stmts_code locals.now 0 (body_of body.now) ++ machine.Return (machine.Literal Nothing) ∷ [])) []) }
    ensures extends { Extends table.old table.new }
{
    table.open(locals)?;
    let mut next = 0;
    emit_suite(table, locals, &mut next, body)?;
    table.put(FullInstr::Return(Source::Literal(Constant::Nothing)))?;
    table.close();
    Ok(())
}
