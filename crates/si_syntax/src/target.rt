// Targets.

use crate::expr::Expr;

/// What a statement binds (Python Language Reference 3.14, 4.2.1 and 7.2).
#[derive(Debug, Drop)]
pub enum Target {
    /// A name, which is ASCII.
    Named(String),
    Item(Item),
    /// Targets in a row, one for each item of what is bound. There is one at least.
    Unpack(Vec<Target>),
}

/// `object[index]`, where it is set or deleted (Python Language Reference 3.14, 7.2 and 7.5).
#[derive(Debug, Drop)]
pub struct Item {
    pub object: Box<Expr>,
    pub index: Box<Expr>,
}
