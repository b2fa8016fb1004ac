// The suites of functions.
ghost use Rattle.std.specs.Prelude.{false, map};
ghost use Rattle.si_semantics.specs.Grammar.{clauses_of};
ghost use Rattle.si_semantics.specs.Scope.{names_of};
ghost use Rattle.si_syntax.specs.Trees.{body_of, branch_of, clause_of, if_of, others_of, stmt_of, try_of};
ghost use Rattle.si_scope.specs.Faults.{Leaves};
ghost use Rattle.si_scope.specs.inner.Walk.{after, after_all, after_clauses, using};

use crate::fault::{ScopeFault, allowed};
use crate::seen::Seen;
use si_syntax::{Branch, Clause, If, Stmt, Try};

// Where statements of a function stand: in a loop of it or in none, and whether `return` may stand there.
#[derive(Clone, Copy)]
pub(crate) struct Place {
    pub(crate) in_loop: bool,
    pub(crate) may_return: bool,
}

impl Place {
    ghost use Rattle.std.specs.Prelude.{◌≡◌, true};

    // In the body of a loop that stands there.
    fn looping(self) -> Place
        ensures in_loop { result.in_loop ≡ true }
        ensures may_return { result.may_return ≡ self.may_return }
    {
        Place {
            in_loop: true,
            may_return: self.may_return,
        }
    }
}

// With the names of statements in a row, which stand in a function.
#[cycle(suite)]
pub(crate) fn see_suite(suite: &[Stmt], place: Place, seen: &mut Seen) -> Result<(), ScopeFault>
    ensures { Leaves seen.new result (after_all (body_of suite.now) place.in_loop place.may_return seen.old) }
{
    for stmt in suite {
        see_stmt(stmt, place, seen)?;
    }
    Ok(())
}

// The same, of one statement.
#[cycle(suite)]
#[tactic(auto, using(si_syntax::proofs::Forms::if_is, si_syntax::proofs::Forms::try_is, si_syntax::proofs::Forms::finally_is, crate::proofs::Turns::finally_front, si_syntax::proofs::Forms::while_is, si_syntax::proofs::Forms::for_is, si_syntax::proofs::Forms::define_is))]
fn see_stmt(stmt: &Stmt, place: Place, seen: &mut Seen) -> Result<(), ScopeFault>
    ensures { Leaves seen.new result (after (stmt_of stmt.now) place.in_loop place.may_return seen.old) }
{
    match stmt {
        Stmt::Evaluate(expr) => Ok(seen.use_expr(expr)?),
        Stmt::Raise(value) => Ok(seen.use_value(value)?),
        Stmt::Assign(statement) => Ok(seen.assign(statement)?),
        Stmt::Augment(statement) => Ok(seen.augment(statement)?),
        Stmt::AugmentItem(statement) => Ok(seen.augment_item(statement)?),
        Stmt::Delete(item) => Ok(seen.use_item(item)?),
        Stmt::Pass => Ok(()),
        Stmt::If(statement) => see_if(statement, place, seen),
        Stmt::While(statement) => {
            seen.use_expr(&statement.test)?;
            see_suite(&statement.body, place.looping(), seen)?;
            see_suite(&statement.last, place, seen)
        }
        Stmt::For(statement) => {
            seen.set(&statement.target, &statement.items)?;
            see_suite(&statement.body, place.looping(), seen)?;
            see_suite(&statement.last, place, seen)
        }
        Stmt::Break(line) | Stmt::Continue(line) => allowed(place.in_loop, *line),
        Stmt::Return(line, value) => {
            allowed(place.may_return, *line)?;
            Ok(seen.use_value(value)?)
        }
        Stmt::Define(function) => Err(ScopeFault::Scope(function.line)),
        Stmt::Global(line, names) => seen.declare(*line, names),
        Stmt::Import(line, _) => Err(ScopeFault::Scope(*line)),
        Stmt::Try(statement) => see_try(statement, place, seen),
        Stmt::Finally(statement) => {
            see_try(&statement.tried, place, seen)?;
            see_end(&statement.end, seen)
        }
    }
}

// The same, of an `if`.
#[cycle(suite)]
fn see_if(statement: &If, place: Place, seen: &mut Seen) -> Result<(), ScopeFault>
    ensures { Leaves seen.new result (after (if_of statement.now) place.in_loop place.may_return seen.old) }
{
    see_branch(&statement.first, place, seen)?;
    see_others(statement, place, seen)
}

// The test and the suite of a branch.
#[cycle(suite)]
fn see_branch(branch: &Branch, place: Place, seen: &mut Seen) -> Result<(), ScopeFault>
    ensures { let is = branch_of branch.now in Leaves seen.new result (after_all is.1 place.in_loop place.may_return (using (names_of is.0) seen.old)) }
{
    seen.use_expr(&branch.test)?;
    see_suite(&branch.body, place, seen)
}

// The `elif`s of an `if`, and the suite of its `else`.
#[cycle(suite)]
fn see_others(statement: &If, place: Place, seen: &mut Seen) -> Result<(), ScopeFault>
    ensures { Leaves seen.new result (after_all (others_of statement.now) place.in_loop place.may_return seen.old) }
{
    for branch in &statement.elifs {
        see_branch(branch, place, seen)?;
    }
    see_suite(&statement.last, place, seen)
}

// A `try` without its `finally`.
#[cycle(suite)]
fn see_try(statement: &Try, place: Place, seen: &mut Seen) -> Result<(), ScopeFault>
    ensures { Leaves seen.new result (after (try_of statement.now) place.in_loop place.may_return seen.old) }
{
    see_suite(&statement.body, place, seen)?;
    see_clauses(&statement.clauses, place, seen)?;
    see_suite(&statement.last, place, seen)
}

// The `except` clauses of a `try`.
#[cycle(suite)]
fn see_clauses(clauses: &[Clause], place: Place, seen: &mut Seen) -> Result<(), ScopeFault>
    ensures { Leaves seen.new result (after_clauses (clauses_of (map clause_of clauses.now)) place.in_loop place.may_return seen.old) }
{
    for clause in clauses {
        seen.use_value(&clause.value)?;
        seen.bind_any(&clause.name)?;
        see_suite(&clause.body, place, seen)?;
    }
    Ok(())
}

// The suite of a `finally`, which no `return`, `break` or `continue` leaves.
#[cycle(suite)]
fn see_end(end: &[Stmt], seen: &mut Seen) -> Result<(), ScopeFault>
    ensures { Leaves seen.new result (after_all (body_of end.now) false false seen.old) }
{
    let within = Place {
        in_loop: false,
        may_return: false,
    };
    see_suite(end, within, seen)
}
