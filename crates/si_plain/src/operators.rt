// The operators of expressions.

/// An operator between two operands (Python Language Reference 3.14, 6.5 and 6.7 to 6.9).
#[derive(Clone, Copy, Debug, PartialEq, Eq)]
pub enum BinaryOperator {
    BitOr,
    BitXor,
    BitAnd,
    ShiftLeft,
    ShiftRight,
    Add,
    Subtract,
    Multiply,
    FloorDivide,
    Modulo,
    Power,
}

/// An operator before its operand (Python Language Reference 3.14, 6.6 and 6.11).
#[derive(Clone, Copy, Debug, PartialEq, Eq)]
pub enum UnaryOperator {
    Plus,
    Minus,
    /// `~`.
    Invert,
    Not,
}

/// An operator of a comparison (Python Language Reference 3.14, 6.10).
#[derive(Clone, Copy, Debug, PartialEq, Eq)]
pub enum ComparisonOperator {
    Less,
    Greater,
    LessEqual,
    GreaterEqual,
    Equal,
    NotEqual,
    Is,
    IsNot,
    In,
    NotIn,
}

/// The word between operands of which not each is evaluated (Python Language Reference 3.14, 6.11).
#[derive(Clone, Copy, Debug, PartialEq, Eq)]
pub enum BooleanOperator {
    And,
    Or,
}
