// What became of an action.

use si_parcel::{Action, Answer};

/// What became of an action that a worker put to the book.
#[derive(Drop)]
pub enum Acted {
    /// It was done, and has this answer.
    Answered(Answer),
    /// It is not enabled. The book keeps it, and its page waits.
    Waits,
    /// Memory was refused. It comes back, and nothing has changed.
    Refused(Action),
}
