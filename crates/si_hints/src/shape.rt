// What an expression is, as far as it matters before an `=`.

use std::fmt;

/// What an expression is.
#[derive(Clone, Copy, Debug, PartialEq, Eq)]
pub enum Shape {
    Name,
    /// An item, as `a[i]`.
    Item,
    /// A tuple or a list of targets, one at least.
    Row,
    Attribute,
    Call,
    Dict,
    /// `()` or `[]`.
    Empty,
    Literal,
    /// An operator with its operands.
    Operation,
}

impl Shape {
    // Whether it may stand before `=`.
    pub(crate) fn is_target(self) -> bool {
        matches!(self, Shape::Name | Shape::Item | Shape::Row)
    }

    // Whether it may stand before an augmented sign.
    pub(crate) fn is_augmented(self) -> bool {
        matches!(self, Shape::Name | Shape::Item)
    }
}

impl fmt::Display for Shape {
    fn fmt<W: fmt::Write>(&self, f: &mut fmt::Formatter<W>) -> fmt::Result {
        f.write_str(match self {
            Shape::Name => "a name",
            Shape::Item => "an item",
            Shape::Row => "a tuple or a list",
            Shape::Attribute => "an attribute",
            Shape::Call => "a call",
            Shape::Dict => "a dict",
            Shape::Empty => "`()` or `[]`",
            Shape::Literal => "a literal",
            Shape::Operation => "an operator with its operands",
        })
    }
}
