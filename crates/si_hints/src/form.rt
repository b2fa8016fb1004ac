// Forms of Python that the profile leaves out, and slips of the pen.

use std::fmt;

/// A form of Python that the profile leaves out, by its name.
#[derive(Clone, Copy, Debug, PartialEq, Eq)]
pub enum Form {
    Annotations,
    Assert,
    Async,
    Await,
    Classes,
    Comprehensions,
    ComplexNumbers,
    Decorators,
    Defaults,
    DeleteSeveral,
    Division,
    Ellipsis,
    ExceptComma,
    ExceptStar,
    FStrings,
    Floats,
    Import,
    IndexComma,
    Is,
    JoinedLines,
    Lambda,
    Match,
    MatrixProduct,
    NestedFunctions,
    Nonlocal,
    ParameterSlash,
    RaiseFrom,
    Sets,
    Slices,
    StarArguments,
    StarItems,
    StarParameters,
    StarTargets,
    Walrus,
    With,
    Yield,
}

impl fmt::Display for Form {
    fn fmt<W: fmt::Write>(&self, f: &mut fmt::Formatter<W>) -> fmt::Result {
        f.write_str(match self {
            Form::Annotations => "annotations are left out",
            Form::Assert => "`assert` is left out",
            Form::Async => "`async` is left out",
            Form::Await => "`await` is left out",
            Form::Classes => "classes are left out",
            Form::Comprehensions => "comprehensions and generators are left out",
            Form::ComplexNumbers => "complex numbers are left out",
            Form::Decorators => "decorators are left out",
            Form::Defaults => "defaults of parameters are left out",
            Form::DeleteSeveral => "`del` of more than one item is left out",
            Form::Division => "`/` and floats are left out; `//` divides integers",
            Form::Ellipsis => "`...` is left out",
            Form::ExceptComma =>
                "`except E, F` is left out; a tuple of kinds stands in round brackets",
            Form::ExceptStar => "`except*` is left out",
            Form::FStrings => "f-strings and t-strings are left out",
            Form::Floats => "floats are left out",
            Form::Import => {
                "no import but `import threading` and `from concurrent import interpreters`"
            }
            Form::IndexComma => "a comma in the square brackets of an item is left out",
            Form::Is => "after `is` and `is not` stands None, True or False alone",
            Form::JoinedLines => "a backslash that joins lines is left out",
            Form::Lambda => "`lambda` is left out",
            Form::Match => "`match` is left out",
            Form::MatrixProduct => "the operator `@` is left out",
            Form::NestedFunctions => "a `def` in a function is left out",
            Form::Nonlocal => "`nonlocal` is left out",
            Form::ParameterSlash => "`/` among parameters is left out",
            Form::RaiseFrom => "`raise .. from` is left out",
            Form::Sets => "sets are left out",
            Form::Slices => "slices are left out",
            Form::StarArguments => "`*` and `**` in a call are left out",
            Form::StarItems => "`*` and `**` in a tuple, a list or a dict are left out",
            Form::StarParameters => "`*` and `**` before a parameter are left out",
            Form::StarTargets => "`*` before a target is left out",
            Form::Walrus => "`:=` is left out",
            Form::With => "`with` is left out",
            Form::Yield => "`yield` is left out",
        })
    }
}

/// What is written otherwise in Python.
#[derive(Clone, Copy, Debug, PartialEq, Eq)]
pub enum Slip {
    And,
    Assigns,
    AtLeast,
    AtMost,
    Decrement,
    ElseIf,
    Increment,
    Not,
    Or,
    Print,
    Unequal,
}

impl fmt::Display for Slip {
    fn fmt<W: fmt::Write>(&self, f: &mut fmt::Formatter<W>) -> fmt::Result {
        f.write_str(match self {
            Slip::And => "`&&` is written `and`",
            Slip::Assigns => "`=` binds a name in a statement of its own; `==` compares",
            Slip::AtLeast => "`=>` is written `>=`",
            Slip::AtMost => "`=<` is written `<=`",
            Slip::Decrement => "`x--` is written `x -= 1`",
            Slip::ElseIf => "`else if` is written `elif`",
            Slip::Increment => "`x++` is written `x += 1`",
            Slip::Not => "`!` is written `not`",
            Slip::Or => "`||` is written `or`",
            Slip::Print => "`print` is a function; what it prints stands in round brackets",
            Slip::Unequal => "`<>` is written `!=`",
        })
    }
}
