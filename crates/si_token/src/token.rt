// Tokens: what each is, the part of the text that it is, and where that stands.

/// An operator or a delimiter (Python Language Reference 3.14, "Operators and delimiters").
#[derive(Clone, Copy, Debug, PartialEq, Eq)]
pub enum Symbol {
    Plus,
    Minus,
    Star,
    DoubleStar,
    DoubleSlash,
    Percent,
    Ampersand,
    Bar,
    Caret,
    Tilde,
    LeftShift,
    RightShift,
    Less,
    Greater,
    LessEqual,
    GreaterEqual,
    EqualEqual,
    NotEqual,
    Equal,
    PlusEqual,
    MinusEqual,
    StarEqual,
    DoubleStarEqual,
    DoubleSlashEqual,
    PercentEqual,
    AmpersandEqual,
    BarEqual,
    CaretEqual,
    LeftShiftEqual,
    RightShiftEqual,
    LeftParenthesis,
    RightParenthesis,
    LeftBracket,
    RightBracket,
    LeftBrace,
    RightBrace,
    Comma,
    Colon,
    Dot,
    Semicolon,
}

/// A keyword (Python Language Reference 3.14, "Keywords").
#[derive(Clone, Copy, Debug, PartialEq, Eq)]
pub enum Keyword {
    False,
    None,
    True,
    And,
    As,
    Assert,
    Async,
    Await,
    Break,
    Class,
    Continue,
    Def,
    Del,
    Elif,
    Else,
    Except,
    Finally,
    For,
    From,
    Global,
    If,
    Import,
    In,
    Is,
    Lambda,
    Nonlocal,
    Not,
    Or,
    Pass,
    Raise,
    Return,
    Try,
    While,
    With,
    Yield,
}

/// What a token is.
#[derive(Clone, Copy, Debug, PartialEq, Eq)]
pub enum TokenKind {
    /// An identifier that is no keyword.
    Name,
    /// An integer literal: decimal digits of a value from 0 to 9223372036854775807.
    Int,
    /// A str literal that has a value, with its prefix and quotes.
    Str,
    /// A bytes literal that has a value, with its prefix and quotes.
    Bytes,
    Symbol(Symbol),
    Keyword(Keyword),
    /// The end of a line that has tokens. Its text is the line end, and empty where the text ends without one.
    Newline,
    /// A block begins. Its text is empty, and it stands where the first token of its line does.
    Indent,
    /// A block ends. Its text is empty, and it stands where an `Indent` would, or at the end of the text.
    Dedent,
    /// The end of the text. Its text is empty.
    End,
}

/// Where a token stands: from the byte `start` up to the byte `end` of the source. The line in which it begins is
/// counted from 1, by the line ends before it: LF, CR, and CR LF as one, those in literals and in brackets among them.
/// Each fits into 32 bits, since the source is no longer than a script may be.
#[derive(Clone, Copy, Debug, PartialEq, Eq)]
pub struct Span {
    pub start: u32,
    pub end: u32,
    pub line: u32,
}

/// A token. Its text is the part of the source that it is.
#[derive(Clone, Copy, Debug)]
pub struct Token<'a> {
    pub text: &'a str,
    pub span: Span,
    pub kind: TokenKind,
}

impl Token<'_> {
    ghost use Rattle.std.specs.Prelude.{◌≡◌};

    /// The first byte of the source that is its own.
    pub fn start(&self) -> usize
        ensures { result ≡ self.now.span.start }
    {
        self.span.start as usize
    }

    /// The byte of the source after its last one.
    pub fn end(&self) -> usize
        ensures { result ≡ self.now.span.end }
    {
        self.span.end as usize
    }

    /// The line in which it begins, counted from 1.
    pub fn line(&self) -> usize
        ensures { result ≡ self.now.span.line }
    {
        self.span.line as usize
    }
}

// There is one for each word of a script, and so they are small.
const _: () = prove!(size_of::<Token>() <= 32);
