// Why a script is refused, in words.

use crate::form::{Form, Slip};
use crate::shape::Shape;
use crate::shortened::Shortened;
use si_plain::limits::{MAX_EXPRESSION_DEPTH, MAX_NESTING, MAX_PARAMETERS, MAX_TEXT_BYTES};
use std::fmt;

/// The most characters of what stands at a place that a message quotes.
const MAX_QUOTED: usize = 40;

/// Where and why a script is refused. The line and the column, in characters, are counted from 1, and without a byte
/// order mark at the script's front. What the reason quotes is borrowed from the script.
#[derive(Clone, Copy, Debug)]
pub struct Hint<'a> {
    pub line: usize,
    pub column: usize,
    pub reason: Reason<'a>,
}

/// What stands at a place.
#[derive(Clone, Copy, Debug)]
pub enum Found<'a> {
    /// The end of a line.
    LineEnd,
    /// The end of the text.
    TextEnd,
    /// A line that is deeper than the one before.
    Deeper,
    /// A line that is less deep than the one before.
    LessDeep,
    /// A word of the text.
    Word(&'a str),
}

/// A word in quotes, of which what is too long is left out.
#[derive(Clone, Copy)]
struct Quoted<'a>(&'a str);

impl fmt::Display for Quoted<'_> {
    fn fmt<W: fmt::Write>(&self, f: &mut fmt::Formatter<W>) -> fmt::Result {
        let word = Shortened::new(self.0, MAX_QUOTED);
        write!(f, "`{word}`")
    }
}

impl fmt::Display for Found<'_> {
    fn fmt<W: fmt::Write>(&self, f: &mut fmt::Formatter<W>) -> fmt::Result {
        match self {
            Found::LineEnd => f.write_str("a line's end"),
            Found::TextEnd => f.write_str("the text's end"),
            Found::Deeper => f.write_str("a deeper line"),
            Found::LessDeep => f.write_str("a line that is less deep"),
            Found::Word(word) => Quoted(word).fmt(f),
        }
    }
}

/// A rule of where statements and names stand, with the name or the word that breaks it.
#[derive(Clone, Copy, Debug)]
pub enum Rule<'a> {
    /// `break` or `continue` in no loop.
    NotInLoop(&'a str),
    /// `return` in no function.
    NotInFunction(&'a str),
    /// `return`, `break` or `continue` that leaves a `finally` suite.
    LeavesFinally(&'a str),
    /// `global` outside functions.
    GlobalOutside,
    /// `import` or `from` in a function.
    ImportInside,
    /// A second parameter of the name.
    TwoParameters(&'a str),
    /// A parameter that is declared `global`.
    GlobalParameter(&'a str),
    /// A name that is used before it is declared `global`.
    GlobalAfterUse(&'a str),
}

impl fmt::Display for Rule<'_> {
    fn fmt<W: fmt::Write>(&self, f: &mut fmt::Formatter<W>) -> fmt::Result {
        match self {
            Rule::NotInLoop(word) => write!(f, "`{word}` stands in no loop"),
            Rule::NotInFunction(word) => write!(f, "`{word}` stands in no function"),
            Rule::LeavesFinally(word) => write!(f, "no `{word}` leaves a `finally` suite"),
            Rule::GlobalOutside => f.write_str("`global` stands in no function"),
            Rule::ImportInside => f.write_str("an import stands in no function"),
            Rule::TwoParameters(name) => {
                let name = Quoted(name);
                write!(f, "two parameters have the name {name}")
            }
            Rule::GlobalParameter(name) => {
                let name = Quoted(name);
                write!(f, "the parameter {name} is declared `global`")
            }
            Rule::GlobalAfterUse(name) => {
                let name = Quoted(name);
                write!(f, "{name} is used before it is declared `global`")
            }
        }
    }
}

/// Why a script is refused. Its `Display` is a message for people, without a line end.
#[derive(Clone, Copy, Debug)]
pub enum Reason<'a> {
    /// The bytes are no UTF-8 from the place on.
    NotUtf8,
    /// The text is too long; how many bytes it has.
    TextTooLong(usize),
    Nul,
    /// A tab before a line's first token.
    Tab,
    /// A line at a column at which no open block begins.
    NoBlock,
    /// A character that begins no token.
    Character(char),
    /// Bytes with a character past ASCII.
    NotAscii(char),
    /// A text or bytes that isn't closed, in three quotes or in one.
    NotClosed { in_three: bool },
    /// An escape that stands for no character.
    Escape,
    /// Letters, digits and `_` that begin with a digit and are no number.
    NoNumber(&'a str),
    LeadingZero(&'a str),
    /// An integer past the greatest.
    TooLarge(&'a str),
    /// A bracket that isn't closed.
    Unclosed(&'a str),
    /// A bracket that closes none.
    Unopened(&'a str),
    /// What was expected, and what stands there.
    Expected(&'static str, Found<'a>),
    LeftOut(Form),
    Slip(Slip),
    /// What is no target.
    NoTarget(Shape),
    /// What `del` doesn't take.
    NoDelete(Shape),
    /// What stands before an augmented sign.
    NoAugmented(Shape),
    /// A compound statement that doesn't begin its line.
    OwnLine(&'a str),
    /// A clause without a statement that it belongs to.
    Alone(&'a str),
    /// An `except` after one without an expression.
    BareNotLast,
    /// An argument by place after one by name.
    PlaceAfterName,
    /// A name by which two arguments of a call are passed.
    PassedTwice(&'a str),
    /// A text beside bytes.
    Mixed,
    /// An expression that is too deep.
    Depth,
    /// Too many compound statements within each other.
    Nesting,
    /// Too many parameters.
    Parameters,
    Rule(Rule<'a>),
}

impl Reason<'_> {
    // The reasons that lie in the characters of a text.
    fn write_of_words<W: fmt::Write>(&self, f: &mut fmt::Formatter<W>) -> fmt::Result {
        match self {
            Reason::NotUtf8 => f.write_str("the bytes are no UTF-8"),
            Reason::TextTooLong(size) => write!(
                f,
                "a text has at most {MAX_TEXT_BYTES} bytes, and this one has {size}"
            ),
            Reason::Nul => f.write_str("NUL is refused everywhere"),
            Reason::Tab => f.write_str("a tab stands before a line's first token"),
            Reason::NoBlock => f.write_str("no open block begins at the column of this line"),
            Reason::Character(c) => write!(f, "{c:?} begins no token"),
            Reason::NotAscii(c) => write!(f, "bytes are ASCII alone, and {c:?} isn't"),
            Reason::NotClosed { in_three: true } => {
                f.write_str("a text in three quotes isn't closed")
            }
            Reason::NotClosed { in_three: false } => {
                f.write_str("a text isn't closed in its line")
            }
            Reason::Escape => f.write_str("the escape stands for no character"),
            Reason::NoNumber(word) => {
                let word = Quoted(word);
                write!(f, "{word} is no number")
            }
            Reason::LeadingZero(word) => {
                let word = Quoted(word);
                write!(
                    f,
                    "{word} has a leading zero; octal digits stand after `0o`"
                )
            }
            Reason::TooLarge(word) => {
                let word = Quoted(word);
                write!(
                    f,
                    "{word} is past the greatest integer, 9223372036854775807"
                )
            }
            _ => Ok(()),
        }
    }

    // The reasons that lie in targets, clauses and arguments.
    fn write_of_parts<W: fmt::Write>(&self, f: &mut fmt::Formatter<W>) -> fmt::Result {
        match self {
            Reason::NoTarget(shape) => write!(f, "{shape} is no target"),
            Reason::NoDelete(shape) => write!(f, "`del` takes an item, as `a[i]`, and not {shape}"),
            Reason::NoAugmented(shape) => {
                write!(
                    f,
                    "before an augmented sign stands a name or an item, not {shape}"
                )
            }
            Reason::OwnLine(word) => write!(f, "`{word}` begins a line of its own"),
            Reason::Alone(word) => {
                write!(f, "no statement in this column that `{word}` belongs to")
            }
            Reason::BareNotLast => f.write_str("an `except` without an expression stands last"),
            Reason::PlaceAfterName => {
                f.write_str("arguments that are passed by name stand after the others")
            }
            Reason::PassedTwice(name) => {
                let name = Quoted(name);
                write!(f, "two arguments are passed by the name {name}")
            }
            Reason::Mixed => f.write_str("a text stands beside bytes"),
            _ => self.write_of_words(f),
        }
    }
}

impl fmt::Display for Reason<'_> {
    fn fmt<W: fmt::Write>(&self, f: &mut fmt::Formatter<W>) -> fmt::Result {
        match self {
            Reason::Unclosed(bracket) => write!(f, "`{bracket}` isn't closed"),
            Reason::Unopened(bracket) => write!(f, "`{bracket}` closes no bracket"),
            Reason::Expected(wanted, found) => write!(f, "{wanted} expected, not {found}"),
            Reason::LeftOut(form) => write!(f, "{form}"),
            Reason::Slip(slip) => write!(f, "{slip}"),
            Reason::Depth => {
                write!(
                    f,
                    "the depth of an expression is at most {MAX_EXPRESSION_DEPTH}"
                )
            }
            Reason::Nesting => { write!(f, "at most {MAX_NESTING} compound statements are nested") }
            Reason::Parameters => {
                write!(f, "a function has at most {MAX_PARAMETERS} parameters")
            }
            Reason::Rule(rule) => write!(f, "{rule}"),
            _ => self.write_of_parts(f),
        }
    }
}
