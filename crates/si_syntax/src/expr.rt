// Expressions.

use si_plain::{BinaryOperator, BooleanOperator, ComparisonOperator, Octets, Text, UnaryOperator};

/// The names that a call has of its own (Python Language Reference 3.14, 6.3.1 and 6.3.4), each of which is ASCII.
#[derive(Debug, Drop)]
pub struct CallNames {
    /// That of the attribute which is called, where one is.
    pub attribute: Option<String>,
    /// Those of the arguments that are passed by name, which are the last ones. None comes twice.
    pub arguments: Vec<String>,
}

/// An expression.
#[derive(Debug, Drop)]
pub enum Expr {
    /// A name, which is ASCII.
    Name(String),
    /// An integer literal, from 0 to 9223372036854775807.
    Int(i64),
    /// `None`.
    Nothing,
    /// `True` or `False`.
    Truth(bool),
    /// One str literal or several beside each other, with their escapes read.
    Str(Text),
    /// One bytes literal or several beside each other, with their escapes read.
    Bytes(Octets),
    Unary(UnaryOperator, Box<Expr>),
    Binary(BinaryOperator, Box<Expr>, Box<Expr>),
    /// `object.NAME`: the object, and the name, which is ASCII.
    Attribute(Box<Expr>, String),
    /// A callee, its names, and its arguments. Where an attribute is called, the callee is its object.
    Call(Box<Expr>, Box<CallNames>, Vec<Expr>),
    /// `object[index]`: the object, the index.
    Subscript(Box<Expr>, Box<Expr>),
    /// A tuple: its items, from the left.
    Tuple(Vec<Expr>),
    /// A list displayed in brackets: its items, from the left.
    ListDisplay(Vec<Expr>),
    /// A dict displayed in braces: its keys and values by turns, from the left, each key before its value.
    DictDisplay(Vec<Expr>),
    /// Operands of `and` or of `or` in a row: the first, and the others, of which there is one at least.
    Boolean(BooleanOperator, Box<Expr>, Vec<Expr>),
    /// A chain of comparisons: the first operand, and each operator with the operand after it.
    Compare(Box<Expr>, Vec<(ComparisonOperator, Expr)>),
    /// `value if test else other`: the test, the value, the other.
    Conditional(Box<Expr>, Box<Expr>, Box<Expr>),
}

// There is one for each name, literal and operator of a script, and so they are small.
const _: () = prove!(size_of::<Expr>() <= 48);
