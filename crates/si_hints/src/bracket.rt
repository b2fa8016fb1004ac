// Brackets, and the ends of expressions.

use crate::fault::Stop;
use crate::level::{Bracket, Frame, Level};
use crate::reason::Reason;
use crate::shape::Shape;
use crate::state::{Part, State};
use crate::walk::Walk;
use si_plain::Names;
use si_token::{Keyword, Symbol, Token, TokenKind};

// Whether a bracket closes what another opens.
fn closes(symbol: Symbol, bracket: Bracket) -> bool {
    match bracket {
        Bracket::Tuple | Bracket::Call => symbol == Symbol::RightParenthesis,
        Bracket::Index | Bracket::List => symbol == Symbol::RightBracket,
        Bracket::Dict => symbol == Symbol::RightBrace,
    }
}

// Whether a token begins a statement and nothing else.
fn begins_statement(token: Token) -> bool {
    match token.kind {
        TokenKind::Keyword(keyword) => matches!(
            keyword,
            Keyword::Def
                | Keyword::Class
                | Keyword::While
                | Keyword::Try
                | Keyword::Return
                | Keyword::Raise
                | Keyword::Pass
                | Keyword::Break
                | Keyword::Continue
                | Keyword::Import
                | Keyword::Global
                | Keyword::Del
                | Keyword::With
        ),
        TokenKind::Newline | TokenKind::Dedent | TokenKind::End => true,
        _ => false,
    }
}

impl<'a> Walk<'a> {
    // An open bracket, before or after an operand.
    pub(crate) fn open(&mut self, bracket: Bracket, token: Token<'a>) -> Result<(), Stop<'a>> {
        self.level.token(token);
        let outer = self.level;
        self.frames.push(Frame {
            bracket,
            open: token,
            outer,
        })?;
        if bracket == Bracket::Call {
            self.passed.push(Names::new(self.alloc))?;
        }
        self.level = Level::new();
        self.state = State::Item;
        Ok(())
    }

    // A closed bracket.
    pub(crate) fn close(&mut self, symbol: Symbol, token: Token<'a>) -> Result<(), Stop<'a>> {
        let at = token.start();
        let Some(frame) = self.frames.last() else {
            return Err(Stop::at(at, Reason::Unopened(token.text)));
        };
        let frame = *frame;
        if self.level.choosing || !closes(symbol, frame.bracket) {
            return self.expected(self.wanted(), token);
        }
        let shape = match frame.bracket {
            Bracket::Tuple => self.level.shape(false),
            Bracket::List => self.level.shape(true),
            Bracket::Dict if !self.level.named && !self.level.is_empty() => {
                return self.no_pair(token);
            }
            Bracket::Dict => Shape::Dict,
            Bracket::Index if self.level.is_empty() => {
                return self.expected("an expression", token);
            }
            Bracket::Index => Shape::Item,
            Bracket::Call => {
                self.argument()?;
                let _ = self.passed.pop();
                Shape::Call
            }
        };
        let _ = self.frames.pop();
        self.level = frame.outer;
        self.level.longer(shape);
        self.state = State::After;
        Ok(())
    }

    // Whether a line begins like a statement with the token.
    fn begins_line(&self, token: Token<'a>) -> bool {
        let (Some(before), Some(next)) = (self.before, self.next) else {
            return false;
        };
        token.kind == TokenKind::Name
            && token.line() > before.line()
            && matches!(
                next.kind,
                TokenKind::Symbol(Symbol::Equal | Symbol::LeftParenthesis | Symbol::Dot)
            )
    }

    // What can't stand in brackets, where some are open.
    pub(crate) fn unclosed(&self, token: Token<'a>) -> Result<(), Stop<'a>> {
        match self.frames.last() {
            Some(frame) if begins_statement(token) || self.begins_line(token) => Err(Stop::at(
                frame.open.start(),
                Reason::Unclosed(frame.open.text),
            )),
            _ => Ok(()),
        }
    }

    // The end of a statement after an expression.
    pub(crate) fn end_of_expression(&mut self, token: Token<'a>) -> Result<(), Stop<'a>> {
        self.unclosed(token)?;
        self.whole(token)?;
        if !self.frames.is_empty() {
            return self.expected(self.wanted(), token);
        }
        match self.part {
            Part::Test | Part::Over | Part::Except | Part::Targets => {
                self.expected(self.wanted(), token)
            }
            Part::Delete if self.level.item_shape() != Shape::Item => Err(Stop::at(
                self.level.first_or(token.start()),
                Reason::NoDelete(self.level.item_shape()),
            )),
            _ => self.end(token),
        }
    }
}
