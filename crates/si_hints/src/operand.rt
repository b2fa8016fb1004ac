// Where an operand is expected.

use crate::fault::Stop;
use crate::form::{Form, Slip};
use crate::level::Bracket;
use crate::reason::Reason;
use crate::shape::Shape;
use crate::state::{Part, State};
use crate::statement::form_of;
use crate::walk::{Walk, found};
use si_token::{Keyword, Symbol, Token, TokenKind};

// Whether a token ends what stands without brackets, where a comma stands before it.
fn ends_items(token: Token) -> bool {
    matches!(
        token.kind,
        TokenKind::Newline
            | TokenKind::Symbol(Symbol::Semicolon | Symbol::Colon | Symbol::Equal)
            | TokenKind::Keyword(Keyword::In)
    )
}

impl<'a> Walk<'a> {
    // An operand, or the end of what it stands in.
    pub(crate) fn item(&mut self, token: Token<'a>) -> Result<(), Stop<'a>> {
        let ends = match self.frames.last() {
            None => ends_items(token),
            Some(_) => matches!(
                token.kind,
                TokenKind::Symbol(
                    Symbol::RightParenthesis | Symbol::RightBracket | Symbol::RightBrace
                )
            ),
        };
        if ends {
            self.after(token)
        } else {
            self.operand(token)
        }
    }

    // An expression, or the end of a statement.
    pub(crate) fn value(&mut self, token: Token<'a>) -> Result<(), Stop<'a>> {
        match token.kind {
            TokenKind::Newline | TokenKind::Symbol(Symbol::Semicolon) => self.end(token),
            _ => self.operand(token),
        }
    }

    // An operand.
    pub(crate) fn operand(&mut self, token: Token<'a>) -> Result<(), Stop<'a>> {
        match token.kind {
            TokenKind::Name => self.name(token),
            TokenKind::Int | TokenKind::Str | TokenKind::Bytes => {
                self.literal(token);
                Ok(())
            }
            TokenKind::Keyword(keyword) => self.operand_keyword(keyword, token),
            TokenKind::Symbol(symbol) => self.operand_symbol(symbol, token),
            _ => self.no_operand(token),
        }
    }

    // A literal.
    fn literal(&mut self, token: Token<'a>) {
        self.level.operand(token, Shape::Literal);
        self.state = State::After;
    }

    // A name, which is used unless it is the name of an argument.
    fn name(&mut self, token: Token<'a>) -> Result<(), Stop<'a>> {
        let is_passed = match (self.frames.last(), self.next) {
            (Some(frame), Some(next)) => {
                frame.bracket == Bracket::Call
                    && self.level.is_empty()
                    && next.kind == TokenKind::Symbol(Symbol::Equal)
            }
            _ => false,
        };
        self.level.operand(token, Shape::Name);
        self.state = State::After;
        if is_passed {
            return Ok(());
        }
        self.using(token)
    }

    // A keyword where an operand is expected.
    fn operand_keyword(&mut self, keyword: Keyword, token: Token<'a>) -> Result<(), Stop<'a>> {
        match keyword {
            Keyword::None | Keyword::True | Keyword::False => {
                self.literal(token);
                Ok(())
            }
            Keyword::Not if self.state != State::Tight => {
                self.level.operator(token);
                self.state = State::Operand;
                Ok(())
            }
            _ => match form_of(keyword) {
                Some(form) => Err(Stop::at(token.start(), Reason::LeftOut(form))),
                None => self.no_operand(token),
            },
        }
    }

    // An operator or a bracket where an operand is expected.
    fn operand_symbol(&mut self, symbol: Symbol, token: Token<'a>) -> Result<(), Stop<'a>> {
        match symbol {
            Symbol::Plus | Symbol::Minus | Symbol::Tilde => {
                self.level.operator(token);
                self.state = State::Tight;
                Ok(())
            }
            Symbol::LeftParenthesis => self.open(Bracket::Tuple, token),
            Symbol::LeftBracket => self.open(Bracket::List, token),
            Symbol::LeftBrace => self.open(Bracket::Dict, token),
            Symbol::Star | Symbol::DoubleStar if self.level.is_empty() => {
                Err(Stop::at(token.start(), Reason::LeftOut(self.starred())))
            }
            Symbol::Dot => Err(Stop::at(token.start(), self.dotted(token))),
            Symbol::Colon if self.is_in_index() => {
                Err(Stop::at(token.start(), Reason::LeftOut(Form::Slices)))
            }
            _ => match self.slip(symbol, token) {
                Some(slip) => Err(Stop::at(token.start(), Reason::Slip(slip))),
                None => self.no_operand(token),
            },
        }
    }

    // Whether the index of an item is read.
    fn is_in_index(&self) -> bool {
        match self.frames.last() {
            Some(frame) => frame.bracket == Bracket::Index,
            None => false,
        }
    }

    // The form that a star before an item is.
    fn starred(&self) -> Form {
        match self.frames.last() {
            Some(frame) if frame.bracket == Bracket::Call => Form::StarArguments,
            None if self.part == Part::Targets => Form::StarTargets,
            _ => Form::StarItems,
        }
    }

    // What a point is where an operand is expected.
    fn dotted(&self, token: Token<'a>) -> Reason<'a> {
        match self.next {
            Some(next) if next.start() == token.end() => match next.kind {
                TokenKind::Int => Reason::LeftOut(Form::Floats),
                TokenKind::Symbol(Symbol::Dot) => Reason::LeftOut(Form::Ellipsis),
                _ => Reason::Expected("an expression", found(token)),
            },
            _ => Reason::Expected("an expression", found(token)),
        }
    }

    // What is meant by a symbol after another.
    fn slip(&self, symbol: Symbol, token: Token<'a>) -> Option<Slip> {
        match symbol {
            Symbol::Ampersand if self.joins(Symbol::Ampersand, token) => Some(Slip::And),
            Symbol::Bar if self.joins(Symbol::Bar, token) => Some(Slip::Or),
            Symbol::Less if self.joins(Symbol::Equal, token) => Some(Slip::AtMost),
            Symbol::Greater if self.joins(Symbol::Equal, token) => Some(Slip::AtLeast),
            Symbol::Greater if self.joins(Symbol::Less, token) => Some(Slip::Unequal),
            _ => None,
        }
    }

    // No operand, where one is expected.
    fn no_operand(&mut self, token: Token<'a>) -> Result<(), Stop<'a>> {
        if self.doubled && self.state == State::Tight {
            if let Some(before) = self.before {
                let at = before.start().saturating_sub(1);
                match before.kind {
                    TokenKind::Symbol(Symbol::Plus) => {
                        return Err(Stop::at(at, Reason::Slip(Slip::Increment)));
                    }
                    TokenKind::Symbol(Symbol::Minus) => {
                        return Err(Stop::at(at, Reason::Slip(Slip::Decrement)));
                    }
                    _ => {}
                }
            }
        }
        self.unclosed(token)?;
        self.expected("an expression", token)
    }

    // `not`, None, True or False, after `is`.
    pub(crate) fn singleton(&mut self, token: Token<'a>) -> Result<(), Stop<'a>> {
        match token.kind {
            TokenKind::Keyword(Keyword::Not) if self.state == State::Is => {
                self.state = State::IsNot;
                Ok(())
            }
            TokenKind::Keyword(Keyword::None | Keyword::True | Keyword::False) => {
                self.state = State::AfterIs;
                Ok(())
            }
            _ => Err(Stop::at(token.start(), Reason::LeftOut(Form::Is))),
        }
    }

    // `in`, after `not`.
    pub(crate) fn not_in(&mut self, token: Token<'a>) -> Result<(), Stop<'a>> {
        if token.kind != TokenKind::Keyword(Keyword::In) {
            return self.expected("`in`", token);
        }
        self.state = State::Tight;
        Ok(())
    }

    // The name of an attribute.
    pub(crate) fn attribute(&mut self, token: Token<'a>) -> Result<(), Stop<'a>> {
        if token.kind != TokenKind::Name {
            return self.expected("a name", token);
        }
        self.level.longer(Shape::Attribute);
        self.state = State::After;
        Ok(())
    }
}
