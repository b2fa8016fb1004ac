// Which statements have no code.
ghost use Rattle.std.specs.Prelude.{◌≡◌};
ghost use Rattle.si_syntax.specs.Trees.{body_of, stmt_of, try_of};
ghost use Rattle.si_emit.specs.inner.Silence.{silent, silent_suite};

use si_syntax::{Stmt, Try};

/// Whether no statement of a suite has code.
#[cycle(silence)]
pub(crate) fn is_silent(body: &[Stmt]) -> bool
    ensures { result ≡ silent_suite (body_of body.now) }
{
    for stmt in body {
        if !is_silent_stmt(stmt) {
            return false;
        }
    }
    true
}

#[cycle(silence)]
#[tactic(auto, using(si_syntax::proofs::Forms::if_is, si_syntax::proofs::Forms::while_is, si_syntax::proofs::Forms::for_is, si_syntax::proofs::Forms::define_is, si_syntax::proofs::Forms::try_is, si_syntax::proofs::Forms::finally_is))]
fn is_silent_stmt(stmt: &Stmt) -> bool
    ensures { result ≡ silent (stmt_of stmt.now) }
{
    match stmt {
        Stmt::Pass => true,
        Stmt::Global(_, _) => true,
        Stmt::Try(statement) => is_silent_try(statement),
        Stmt::Evaluate(_)
        | Stmt::Assign(_)
        | Stmt::Augment(_)
        | Stmt::AugmentItem(_)
        | Stmt::Delete(_)
        | Stmt::If(_)
        | Stmt::While(_)
        | Stmt::For(_)
        | Stmt::Break(_)
        | Stmt::Continue(_)
        | Stmt::Define(_)
        | Stmt::Return(_, _)
        | Stmt::Import(_, _)
        | Stmt::Raise(_)
        | Stmt::Finally(_) => false,
    }
}

#[cycle(silence)]
fn is_silent_try(statement: &Try) -> bool
    ensures { result ≡ silent (try_of statement.now) }
{
    if !statement.clauses.is_empty() {
        return false;
    }
    is_silent(&statement.body) && is_silent(&statement.last)
}
