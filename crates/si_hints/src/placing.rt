// Where the statements of a text stand, by their numbers.

use si_plain::NoMemory;
use si_token::{Keyword, Symbol, Token, TokenFault, TokenKind, tokens};
use std::alloc::{AllocError, Global};

/// Where a statement stands: its first line, counted from 1, and the name of the function in which it stands, if it
/// stands in one.
#[derive(Clone, Copy, Debug)]
pub struct StatementLine<'a> {
    pub line: u32,
    pub function: Option<&'a str>,
}

/// A function of a text: its name, and how many statements stand within functions before it.
#[derive(Clone, Copy, Debug)]
struct Function<'a> {
    name: &'a str,
    first: usize,
}

/// The lines of a text's statements, by their numbers. Those that stand within functions are numbered first, from 0 on, and
/// then those that stand outside of them, both in the order of the text. Each simple statement is one, and each line of a
/// clause that has an expression of its own, or a name: those of `if`, `elif`, `while`, `for`, `try`, `except` and `def`.
#[derive(Debug, Drop)]
pub struct Statements<'a> {
    inner: Vec<u32>,
    outer: Vec<u32>,
    functions: Vec<Function<'a>>,
}

impl<'a> Statements<'a> {
    /// The statements of a text that is read; none of a text that has no tokens.
    ///
    /// # Errors
    ///
    /// `NoMemory` where memory was refused.
    pub fn of(alloc: Global, text: &'a str) -> Result<Statements<'a>, NoMemory> {
        let mut count = Count::new(alloc);
        match tokens(alloc, text) {
            Ok(all) => {
                for place in 0..all.len() {
                    if let Some(token) = all.get(place) {
                        count.step(token)?;
                    }
                }
                Ok(count.found)
            }
            Err(TokenFault::NoMemory) => Err(AllocError),
            Err(TokenFault::BadText(_) | TokenFault::TooLong) => Ok(count.found),
        }
    }

    /// How many there are.
    pub fn len(&self) -> usize {
        self.inner.len().saturating_add(self.outer.len())
    }

    /// Whether there is none.
    pub fn is_empty(&self) -> bool {
        self.inner.is_empty() && self.outer.is_empty()
    }

    /// Where the statement of a number stands, if there is one.
    pub fn line(&self, number: u32) -> Option<StatementLine<'a>> {
        let number = number as usize;
        match self.inner.get(number) {
            Some(line) => Some(StatementLine {
                line: *line,
                function: self.function_at(number),
            }),
            None => {
                let line = self.outer.get(number.checked_sub(self.inner.len())?)?;
                Some(StatementLine {
                    line: *line,
                    function: None,
                })
            }
        }
    }

    // The name of the function in which the statement of a number stands that stands within one.
    fn function_at(&self, number: usize) -> Option<&'a str> {
        let after = self
            .functions
            .as_slice()
            .partition_point(|function| function.first <= number);
        let function = self.functions.get(after.checked_sub(1)?)?;
        Some(function.name)
    }
}

// Going over the tokens of a text that is read.
#[derive(Drop)]
struct Count<'a> {
    found: Statements<'a>,
    // A statement or a clause begins with the next token.
    begins: bool,
    // The colon of a clause is expected, outside of brackets.
    in_clause: bool,
    // How many brackets are open, and how many suites that stand below their clauses.
    brackets: u32,
    level: u32,
    // The function whose name or colon is expected.
    defined: Option<&'a str>,
    is_def: bool,
    // The level of the function in whose suite the statements stand, and whether one stands in its line.
    function: Option<u32>,
    in_line: bool,
}

impl<'a> Count<'a> {
    // Before the first token.
    fn new(alloc: Global) -> Count<'a> {
        Count {
            found: Statements {
                inner: Vec::new(alloc),
                outer: Vec::new(alloc),
                functions: Vec::new(alloc),
            },
            begins: true,
            in_clause: false,
            brackets: 0,
            level: 0,
            defined: None,
            is_def: false,
            function: None,
            in_line: false,
        }
    }

    // Goes over one token.
    fn step(&mut self, token: Token<'a>) -> Result<(), NoMemory> {
        match token.kind {
            TokenKind::Newline => self.end_line(),
            TokenKind::Indent => self.level = self.level.saturating_add(1),
            TokenKind::Dedent => self.end_suite(),
            TokenKind::End => {}
            TokenKind::Symbol(Symbol::Semicolon) => self.begins = true,
            _ if self.begins => self.begin(token)?,
            TokenKind::Name if self.is_def && self.defined.is_none() => {
                self.defined = Some(token.text);
            }
            _ => {}
        }
        match token.kind {
            TokenKind::Symbol(symbol) => self.symbol(symbol),
            _ => Ok(()),
        }
    }

    // A statement or a clause begins.
    fn begin(&mut self, token: Token<'a>) -> Result<(), NoMemory> {
        self.begins = false;
        if let TokenKind::Keyword(keyword) = token.kind {
            self.in_clause = begins_clause(keyword);
            self.is_def = keyword == Keyword::Def;
            self.defined = None;
            if matches!(keyword, Keyword::Else | Keyword::Finally) {
                return Ok(());
            }
        }
        let line = token.span.line;
        match self.function {
            Some(level) => {
                self.in_line = level == self.level;
                self.found.inner.push(line)?;
            }
            None => self.found.outer.push(line)?,
        }
        Ok(())
    }

    // A symbol: the colon of a clause, or a bracket.
    fn symbol(&mut self, symbol: Symbol) -> Result<(), NoMemory> {
        match symbol {
            Symbol::LeftParenthesis | Symbol::LeftBracket | Symbol::LeftBrace => {
                self.brackets = self.brackets.saturating_add(1);
            }
            Symbol::RightParenthesis | Symbol::RightBracket | Symbol::RightBrace => {
                self.brackets = self.brackets.saturating_sub(1);
            }
            Symbol::Colon if self.in_clause && self.brackets == 0 => self.begin_suite()?,
            _ => {}
        }
        Ok(())
    }

    // The suite of a clause begins.
    fn begin_suite(&mut self) -> Result<(), NoMemory> {
        self.in_clause = false;
        self.begins = true;
        if self.is_def {
            self.is_def = false;
            self.function = Some(self.level);
            self.in_line = false;
            let name = self.defined.unwrap_or("");
            let first = self.found.inner.len();
            self.found.functions.push(Function { name, first })?;
        }
        Ok(())
    }

    // A line ends, and with it a function whose suite stands in its line.
    fn end_line(&mut self) {
        self.begins = true;
        if self.in_line && self.function == Some(self.level) {
            self.function = None;
        }
    }

    // A suite ends that stands below its clause, and with it the function whose suite it is.
    fn end_suite(&mut self) {
        self.level = self.level.saturating_sub(1);
        if self.function == Some(self.level) {
            self.function = None;
        }
    }
}

// Whether a keyword begins a clause, where a statement may begin.
fn begins_clause(keyword: Keyword) -> bool {
    matches!(
        keyword,
        Keyword::If
            | Keyword::Elif
            | Keyword::Else
            | Keyword::While
            | Keyword::For
            | Keyword::Try
            | Keyword::Except
            | Keyword::Finally
            | Keyword::Def
    )
}

/// Where the statement of a number stands in a text that is read, numbered as those of `Statements`; none where there is
/// none of that number.
///
/// # Errors
///
/// `NoMemory` where memory was refused.
pub fn statement_line<'a>(
    alloc: Global,
    text: &'a str,
    number: u32,
) -> Result<Option<StatementLine<'a>>, NoMemory> {
    let statements = Statements::of(alloc, text)?;
    Ok(statements.line(number))
}
