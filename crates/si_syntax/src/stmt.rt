// Statements.

use crate::expr::Expr;
use crate::target::{Item, Target};
use si_plain::{BinaryOperator, ModuleName};

/// The line in which a statement begins, counted from 1. It is a hint for people: no tree depends on it.
pub type Line = usize;

/// A statement (Python Language Reference 3.14, 7 and 8).
#[cycle(stmts)]
#[derive(Debug, Drop)]
pub enum Stmt {
    /// An expression that is evaluated for its effects.
    Evaluate(Expr),
    Assign(Assign),
    Augment(Augment),
    AugmentItem(AugmentItem),
    /// `del object[index]`: its item (Python Language Reference 3.14, 7.5).
    Delete(Item),
    Pass,
    If(Box<If>),
    While(Box<While>),
    For(Box<For>),
    Break(Line),
    Continue(Line),
    Define(Define),
    /// `return`, and its expression where there is one.
    Return(Line, Option<Expr>),
    /// `global`, and its names, of which there is one at least.
    Global(Line, Vec<String>),
    /// Its line, and the module: `import threading`, or `from concurrent import interpreters` (Python Language Reference
    /// 3.14, 7.11).
    Import(Line, ModuleName),
    /// `raise`, and its expression where there is one.
    Raise(Option<Expr>),
    Try(Try),
    Finally(Box<Finally>),
}

// There is one for each statement of a script, and so they are small.
const _: () = prove!(size_of::<Stmt>() <= 88);

/// `target = .. = value` (Python Language Reference 3.14, 7.2).
#[derive(Debug, Drop)]
pub struct Assign {
    /// From the left; there is one at least.
    pub targets: Vec<Target>,
    pub value: Expr,
}

/// `NAME op= value` (Python Language Reference 3.14, 7.2.1).
#[derive(Debug, Drop)]
pub struct Augment {
    pub name: String,
    pub operator: BinaryOperator,
    pub value: Expr,
}

/// `object[index] op= value` (Python Language Reference 3.14, 7.2.1).
#[derive(Debug, Drop)]
pub struct AugmentItem {
    pub item: Item,
    pub operator: BinaryOperator,
    pub value: Expr,
}

/// An `if` (Python Language Reference 3.14, 8.1).
#[cycle(stmts)]
#[derive(Debug, Drop)]
pub struct If {
    /// The `if` itself.
    pub first: Branch,
    /// Each `elif`.
    pub elifs: Vec<Branch>,
    /// The suite of the `else`, which is empty where there is none.
    pub last: Vec<Stmt>,
}

/// A test of an `if`, and the suite that is run where it is true (Python Language Reference 3.14, 8.1).
#[cycle(stmts)]
#[derive(Debug, Drop)]
pub struct Branch {
    pub test: Expr,
    pub body: Vec<Stmt>,
}

/// A `while` (Python Language Reference 3.14, 8.2).
#[cycle(stmts)]
#[derive(Debug, Drop)]
pub struct While {
    pub test: Expr,
    pub body: Vec<Stmt>,
    /// The suite of the `else`, which is empty where there is none.
    pub last: Vec<Stmt>,
}

/// A `for` (Python Language Reference 3.14, 8.3).
#[cycle(stmts)]
#[derive(Debug, Drop)]
pub struct For {
    pub target: Target,
    /// What is gone over.
    pub items: Expr,
    pub body: Vec<Stmt>,
    /// The suite of the `else`, which is empty where there is none.
    pub last: Vec<Stmt>,
}

/// A `def` (Python Language Reference 3.14, 8.7).
#[cycle(stmts)]
#[derive(Debug, Drop)]
pub struct Define {
    pub line: Line,
    pub name: String,
    /// There are 255 at most.
    pub parameters: Vec<String>,
    pub body: Vec<Stmt>,
}

/// A `try` without its `finally` (Python Language Reference 3.14, 8.4). Where none follows, there is one clause at least.
#[cycle(stmts)]
#[derive(Debug, Drop)]
pub struct Try {
    pub body: Vec<Stmt>,
    pub clauses: Vec<Clause>,
    /// The suite of the `else`, which is empty where there is none or no clause.
    pub last: Vec<Stmt>,
}

/// An `except` clause (Python Language Reference 3.14, 8.4.1). A name stands after an expression alone, and a clause
/// without an expression stands last.
#[cycle(stmts)]
#[derive(Debug, Drop)]
pub struct Clause {
    /// What is matched, where it is said.
    pub value: Option<Expr>,
    /// The name that the exception is bound to, where there is one.
    pub name: Option<String>,
    pub body: Vec<Stmt>,
}

/// A `try` with a `finally` (Python Language Reference 3.14, 8.4.4).
#[cycle(stmts)]
#[derive(Debug, Drop)]
pub struct Finally {
    /// What stands in front of the `finally`.
    pub tried: Try,
    /// Its suite.
    pub end: Vec<Stmt>,
}
