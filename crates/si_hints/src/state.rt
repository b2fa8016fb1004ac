// What is expected next.

// What is expected at a token.
#[derive(Clone, Copy, PartialEq, Eq)]
pub(crate) enum State {
    // A line.
    Line,
    // A small statement, or the end of the line.
    Small,
    // The line end after the colon of a clause, or a small statement.
    Suite,
    // A deeper line.
    Block,
    // An operand; an operator stands before it that `not` can't follow.
    Tight,
    // An operand, or `not`.
    Operand,
    // An operand, or the end of what it stands in.
    Item,
    // An operator, or the end of what the operand before it stands in.
    After,
    // The same, after `is None`, where no operator of arithmetic stands.
    AfterIs,
    // The name of an attribute.
    Attribute,
    // `not`, None, True or False.
    Is,
    // None, True or False.
    IsNot,
    // `in` after `not`.
    NotIn,
    // An expression, or the colon of an `except`.
    Except,
    // The name after `as`.
    As,
    // The name of a function.
    Define,
    // The bracket after it.
    Open,
    // A parameter, or the closed bracket.
    Parameter,
    // A parameter that a closed bracket may follow.
    AfterParameter,
    // The colon of a clause.
    Colon,
    // A name that is declared `global`.
    Global,
    // A comma after it, or the end of the statement.
    AfterGlobal,
    // The module after `import`.
    Import,
    // The package after `from`.
    From,
    // `import` after it.
    FromImport,
    // The module after that.
    FromModule,
    // The end of a statement.
    End,
    // The end of a statement after an import.
    EndOfImport,
    // An expression, or the end of a `return` or a `raise`.
    Value,
}

// What an expression without brackets belongs to.
#[derive(Clone, Copy, PartialEq, Eq)]
pub(crate) enum Part {
    // A statement of its own, or what stands before the first `=`.
    Plain,
    // What stands after an `=`.
    Assigned,
    // What stands after an augmented sign.
    Augmented,
    Return,
    Raise,
    Delete,
    // The test of an `if`, an `elif` or a `while`.
    Test,
    // What a `for` binds.
    Targets,
    // What a `for` goes over.
    Over,
    Except,
}
