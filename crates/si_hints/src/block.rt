// Compound statements, and what may stand in their suites.

// A clause of a compound statement.
#[derive(Clone, Copy, PartialEq, Eq)]
pub(crate) enum Clause {
    // None is before.
    None,
    If,
    // An `else` or a `finally`, after which no other stands.
    Last,
    While,
    For,
    Try,
    Except,
    // An `except` without an expression.
    Bare,
    // The `else` of a `try`.
    TryElse,
    Finally,
    Define,
}

impl Clause {
    // Whether an `else` may stand after it.
    pub(crate) fn takes_else(self) -> bool {
        matches!(
            self,
            Clause::If | Clause::While | Clause::For | Clause::Except | Clause::Bare
        )
    }

    // Whether it is of a `try` whose `finally` may follow.
    pub(crate) fn takes_finally(self) -> bool {
        matches!(
            self,
            Clause::Try | Clause::Except | Clause::Bare | Clause::TryElse
        )
    }
}

// What may stand in a suite.
#[derive(Clone, Copy)]
pub(crate) struct Context {
    pub(crate) in_function: bool,
    pub(crate) in_loop: bool,
    // It is in a `finally` suite, and `return` leaves that.
    pub(crate) keeps_return: bool,
    // The same of `break` and `continue`.
    pub(crate) keeps_loop: bool,
}

impl Context {
    // Outside of all.
    pub(crate) fn outside() -> Context {
        Context {
            in_function: false,
            in_loop: false,
            keeps_return: false,
            keeps_loop: false,
        }
    }

    // In the suite of a clause.
    pub(crate) fn within(self, clause: Clause) -> Context {
        match clause {
            Clause::Define => Context {
                in_function: true,
                in_loop: false,
                keeps_return: false,
                keeps_loop: false,
            },
            Clause::While | Clause::For => Context {
                in_loop: true,
                keeps_loop: false,
                ..self
            },
            Clause::Finally => Context {
                in_loop: false,
                keeps_return: true,
                keeps_loop: self.in_loop || self.keeps_loop,
                ..self
            },
            _ => self,
        }
    }
}

// A suite that is open.
#[derive(Clone, Copy)]
pub(crate) struct Block {
    pub(crate) clause: Clause,
    // It stands in the line of its clause.
    pub(crate) in_line: bool,
    pub(crate) context: Context,
}
