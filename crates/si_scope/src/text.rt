// Whole scripts.
ghost use Rattle.std.specs.Prelude.{◌≡◌, IfOk, IfErr, false, map, string_bytes};
ghost use Rattle.si_semantics.specs.Grammar.{clauses_of};
ghost use Rattle.si_semantics.specs.Scope.{is_scoped};
ghost use Rattle.si_syntax.specs.Modules.{tree_of};
ghost use Rattle.si_syntax.specs.Trees.{body_of, clause_of, if_of, others_of, stmt_of, try_of};
ghost use Rattle.si_scope.specs.Faults.{IsScope, Leaves, Returns};
ghost use Rattle.si_scope.specs.Scripts.{script_of};
ghost use Rattle.si_scope.specs.inner.Walk.{local_to, resolved, resolved_all, resolved_clauses};

use crate::fault::{ScopeFault, allowed};
use crate::scoped::Scoped;
use crate::seen::Seen;
use crate::suite::{Place, see_suite};
use si_plain::Names;
use si_syntax::{Clause, Define, If, Module, Stmt, Try};
use std::alloc::Global;

/// The script of a tree with its names resolved: which are local to each of its functions.
///
/// A script is refused unless each `break` and `continue` stands in a loop of the same function or text (Python Language
/// Reference 3.14, 7.9 and 7.10), each `return` and `global` in a function (7.6; that a `global` is refused at module
/// level is this project's own), and each `def` and each `import` in none (this project's own); no `break`, `continue` or `return` leaves
/// the suite of a `finally` (PEP 765, whose warning is a refusal here); no parameter comes twice (8.7); and no name is
/// declared global that is a parameter of the function or is used in front of the declaration (7.12).
///
/// # Errors
///
/// `Scope` where one of these rules is broken, with the line of the statement that breaks it, which is the `def` where a
/// parameter comes twice; `NoMemory` where memory was refused. The tree is given up.
pub fn resolve(alloc: Global, tree: Module) -> Result<Scoped, ScopeFault>
    ensures ok { IfOk result (λ s. script_of s ≡ tree_of tree) }
    ensures scope { IfErr result (λ fault. IsScope fault → is_scoped (tree_of tree) ≡ false) }
{
    let mut locals = Vec::new(alloc);
    resolve_suite(alloc, tree.body(), false, &mut locals)?;
    Ok(Scoped::new(tree, locals))
}

// With the locals of the functions of statements in a row, which stand in the text, and in a loop of it or in none.
#[cycle(text)]
fn resolve_suite(
    alloc: Global,
    suite: &[Stmt],
    in_loop: bool,
    locals: &mut Vec<Names>,
) -> Result<(), ScopeFault>
    ensures { Leaves locals.new.items result (resolved_all (body_of suite.now) in_loop locals.old.items) }
{
    for stmt in suite {
        resolve_stmt(alloc, stmt, in_loop, locals)?;
    }
    Ok(())
}

// The same, of one statement.
#[cycle(text)]
#[tactic(auto, using(si_syntax::proofs::Forms::if_is, si_syntax::proofs::Forms::try_is, si_syntax::proofs::Forms::finally_is, crate::proofs::Texts::finally_front, si_syntax::proofs::Forms::while_is, si_syntax::proofs::Forms::for_is, si_syntax::proofs::Forms::define_is))]
fn resolve_stmt(
    alloc: Global,
    stmt: &Stmt,
    in_loop: bool,
    locals: &mut Vec<Names>,
) -> Result<(), ScopeFault>
    ensures { Leaves locals.new.items result (resolved (stmt_of stmt.now) in_loop locals.old.items) }
{
    match stmt {
        Stmt::Evaluate(_)
        | Stmt::Assign(_)
        | Stmt::Augment(_)
        | Stmt::AugmentItem(_)
        | Stmt::Delete(_)
        | Stmt::Pass
        | Stmt::Import(_, _)
        | Stmt::Raise(_) => Ok(()),
        Stmt::If(statement) => resolve_if(alloc, statement, in_loop, locals),
        Stmt::While(statement) => {
            resolve_suite(alloc, &statement.body, true, locals)?;
            resolve_suite(alloc, &statement.last, in_loop, locals)
        }
        Stmt::For(statement) => {
            resolve_suite(alloc, &statement.body, true, locals)?;
            resolve_suite(alloc, &statement.last, in_loop, locals)
        }
        Stmt::Break(line) | Stmt::Continue(line) => allowed(in_loop, *line),
        Stmt::Define(function) => {
            let names = function_locals(alloc, function)?;
            locals.push(names)?;
            Ok(())
        }
        Stmt::Return(line, _) | Stmt::Global(line, _) => Err(ScopeFault::Scope(*line)),
        Stmt::Try(statement) => resolve_try(alloc, statement, in_loop, locals),
        Stmt::Finally(statement) => {
            resolve_try(alloc, &statement.tried, in_loop, locals)?;
            resolve_suite(alloc, &statement.end, false, locals)
        }
    }
}

// The same, of an `if`.
#[cycle(text)]
fn resolve_if(
    alloc: Global,
    statement: &If,
    in_loop: bool,
    locals: &mut Vec<Names>,
) -> Result<(), ScopeFault>
    ensures { Leaves locals.new.items result (resolved (if_of statement.now) in_loop locals.old.items) }
{
    resolve_suite(alloc, &statement.first.body, in_loop, locals)?;
    resolve_others(alloc, statement, in_loop, locals)
}

// The `elif`s of an `if`, and the suite of its `else`.
#[cycle(text)]
fn resolve_others(
    alloc: Global,
    statement: &If,
    in_loop: bool,
    locals: &mut Vec<Names>,
) -> Result<(), ScopeFault>
    ensures { Leaves locals.new.items result (resolved_all (others_of statement.now) in_loop locals.old.items) }
{
    for branch in &statement.elifs {
        resolve_suite(alloc, &branch.body, in_loop, locals)?;
    }
    resolve_suite(alloc, &statement.last, in_loop, locals)
}

// A `try` without its `finally`.
#[cycle(text)]
fn resolve_try(
    alloc: Global,
    statement: &Try,
    in_loop: bool,
    locals: &mut Vec<Names>,
) -> Result<(), ScopeFault>
    ensures { Leaves locals.new.items result (resolved (try_of statement.now) in_loop locals.old.items) }
{
    resolve_suite(alloc, &statement.body, in_loop, locals)?;
    resolve_clauses(alloc, &statement.clauses, in_loop, locals)?;
    resolve_suite(alloc, &statement.last, in_loop, locals)
}

// The `except` clauses of a `try`.
#[cycle(text)]
fn resolve_clauses(
    alloc: Global,
    clauses: &[Clause],
    in_loop: bool,
    locals: &mut Vec<Names>,
) -> Result<(), ScopeFault>
    ensures { Leaves locals.new.items result (resolved_clauses (clauses_of (map clause_of clauses.now)) in_loop locals.old.items) }
{
    for clause in clauses {
        resolve_suite(alloc, &clause.body, in_loop, locals)?;
    }
    Ok(())
}

// The names that are local to a function.
fn function_locals(alloc: Global, function: &Define) -> Result<Names, ScopeFault>
    ensures { Returns result (local_to (map string_bytes function.now.parameters.items) (body_of function.now.body.items)) }
{
    let mut seen = Seen::new(alloc, function.line, &function.parameters)?;
    let place = Place {
        in_loop: false,
        may_return: true,
    };
    see_suite(&function.body, place, &mut seen)?;
    Ok(seen.locals)
}
