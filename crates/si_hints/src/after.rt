// After an operand.

use crate::fault::Stop;
use crate::form::{Form, Slip};
use crate::level::Bracket;
use crate::reason::Reason;
use crate::shape::Shape;
use crate::state::{Part, State};
use crate::statement::form_of;
use crate::walk::Walk;
use si_token::{Keyword, Symbol, Token, TokenKind};

// Whether a symbol is an operator of arithmetic between two operands.
fn is_arithmetic(symbol: Symbol) -> bool {
    matches!(
        symbol,
        Symbol::Plus
            | Symbol::Minus
            | Symbol::Star
            | Symbol::DoubleStar
            | Symbol::DoubleSlash
            | Symbol::Percent
            | Symbol::Ampersand
            | Symbol::Bar
            | Symbol::Caret
            | Symbol::LeftShift
            | Symbol::RightShift
    )
}

// Whether a symbol compares.
fn is_comparison(symbol: Symbol) -> bool {
    matches!(
        symbol,
        Symbol::Less
            | Symbol::Greater
            | Symbol::LessEqual
            | Symbol::GreaterEqual
            | Symbol::EqualEqual
            | Symbol::NotEqual
    )
}

// Whether a word before a text makes it an f-string or a t-string.
fn is_format(word: &str) -> bool {
    matches!(
        word.as_bytes(),
        [b'f' | b'F' | b't' | b'T']
            | [b'f' | b'F' | b't' | b'T', b'r' | b'R']
            | [b'r' | b'R', b'f' | b'F' | b't' | b'T']
    )
}

impl<'a> Walk<'a> {
    // After an operand.
    pub(crate) fn after(&mut self, token: Token<'a>) -> Result<(), Stop<'a>> {
        match token.kind {
            TokenKind::Symbol(symbol) => self.after_symbol(symbol, token),
            TokenKind::Keyword(keyword) => self.after_keyword(keyword, token),
            TokenKind::Str | TokenKind::Bytes => self.another_literal(token),
            TokenKind::Newline => self.end_of_expression(token),
            _ => self.no_operator(token),
        }
    }

    // A symbol after an operand.
    fn after_symbol(&mut self, symbol: Symbol, token: Token<'a>) -> Result<(), Stop<'a>> {
        if is_comparison(symbol) {
            return self.operator(token, State::Tight);
        }
        let goes_on = is_arithmetic(symbol)
            || matches!(
                symbol,
                Symbol::LeftParenthesis | Symbol::LeftBracket | Symbol::Dot
            );
        if goes_on && self.state == State::AfterIs {
            return Err(Stop::at(token.start(), Reason::LeftOut(Form::Is)));
        }
        if is_arithmetic(symbol) {
            return self.operator(token, State::Tight);
        }
        match symbol {
            Symbol::LeftParenthesis => self.open(Bracket::Call, token),
            Symbol::LeftBracket => self.open(Bracket::Index, token),
            Symbol::Dot => {
                self.state = State::Attribute;
                Ok(())
            }
            Symbol::RightParenthesis | Symbol::RightBracket | Symbol::RightBrace => {
                self.close(symbol, token)
            }
            Symbol::Comma => self.comma(token),
            Symbol::Colon => self.inner_colon(token),
            Symbol::Equal => self.equal(token),
            Symbol::Semicolon => self.end_of_expression(token),
            Symbol::LeftBrace | Symbol::Tilde => self.no_operator(token),
            _ => self.augmented(token),
        }
    }

    // An operator after an operand.
    fn operator(&mut self, token: Token<'a>, state: State) -> Result<(), Stop<'a>> {
        self.doubled = self.is_doubled(token);
        self.level.operator(token);
        self.state = state;
        Ok(())
    }

    // Whether the same symbol follows at once.
    fn is_doubled(&self, token: Token<'a>) -> bool {
        match self.next {
            Some(next) => next.kind == token.kind && next.start() == token.end(),
            None => false,
        }
    }

    // A keyword after an operand.
    fn after_keyword(&mut self, keyword: Keyword, token: Token<'a>) -> Result<(), Stop<'a>> {
        match keyword {
            Keyword::In if self.part == Part::Targets && self.frames.is_empty() => {
                self.end_of_targets(token)
            }
            Keyword::And | Keyword::Or => self.operator(token, State::Operand),
            Keyword::In => self.operator(token, State::Tight),
            Keyword::Is => self.operator(token, State::Is),
            Keyword::Not => self.operator(token, State::NotIn),
            Keyword::If if !self.level.choosing => {
                self.level.choosing = true;
                self.operator(token, State::Operand)
            }
            Keyword::Else if self.level.choosing => {
                self.level.choosing = false;
                self.operator(token, State::Operand)
            }
            Keyword::For | Keyword::Async if !self.frames.is_empty() => Err(Stop::at(
                token.start(),
                Reason::LeftOut(Form::Comprehensions),
            )),
            Keyword::As if self.part == Part::Except && self.frames.is_empty() => {
                self.whole(token)?;
                self.state = State::As;
                Ok(())
            }
            Keyword::From if self.part == Part::Raise && self.frames.is_empty() => Err(Stop::at(
                token.start(),
                Reason::LeftOut(Form::RaiseFrom),
            )),
            _ => self.no_operator(token),
        }
    }

    // A literal after an operand.
    fn another_literal(&mut self, token: Token<'a>) -> Result<(), Stop<'a>> {
        let Some(before) = self.before else {
            return self.no_operator(token);
        };
        match before.kind {
            TokenKind::Str | TokenKind::Bytes if before.kind == token.kind => Ok(()),
            TokenKind::Str | TokenKind::Bytes => { Err(Stop::at(token.start(), Reason::Mixed)) }
            TokenKind::Name if before.end() == token.start() && is_format(before.text) => {
                Err(Stop::at(before.start(), Reason::LeftOut(Form::FStrings)))
            }
            _ => self.no_operator(token),
        }
    }

    // Neither an operator nor an end, after an operand.
    pub(crate) fn no_operator(&mut self, token: Token<'a>) -> Result<(), Stop<'a>> {
        if self.frames.is_empty() && self.part == Part::Plain {
            if let Some(reason) = self.first_word(token) {
                return Err(Stop::at(self.level.first_or(token.start()), reason));
            }
        }
        self.unclosed(token)?;
        if let TokenKind::Keyword(keyword) = token.kind {
            if let Some(form) = form_of(keyword) {
                return Err(Stop::at(token.start(), Reason::LeftOut(form)));
            }
        }
        self.expected(self.wanted(), token)
    }

    // What a statement is that begins with a name and an operand.
    fn first_word(&self, token: Token<'a>) -> Option<Reason<'a>> {
        let name = self.level.one_name()?;
        let is_operand = matches!(
            token.kind,
            TokenKind::Name | TokenKind::Int | TokenKind::Str | TokenKind::Bytes
        );
        match name {
            "print" => Some(Reason::Slip(Slip::Print)),
            "match" if is_operand => Some(Reason::LeftOut(Form::Match)),
            "elseif" | "elsif" if is_operand => Some(Reason::Slip(Slip::ElseIf)),
            _ => None,
        }
    }

    // What may stand after the expression where it is complete.
    pub(crate) fn wanted(&self) -> &'static str {
        if self.level.choosing {
            return "`else`";
        }
        match self.frames.last() {
            Some(frame) if frame.bracket == Bracket::Dict && !self.level.named => "`:`",
            Some(frame) => frame.bracket.closing(),
            None => match self.part {
                Part::Test | Part::Over | Part::Except => "`:`",
                Part::Targets => "`in`",
                _ => "a line's end",
            },
        }
    }

    // The targets of a `for` end.
    fn end_of_targets(&mut self, token: Token<'a>) -> Result<(), Stop<'a>> {
        self.whole(token)?;
        self.assignable()?;
        self.expression(Part::Over, State::Operand);
        Ok(())
    }

    // What is bound is a target.
    pub(crate) fn assignable(&self) -> Result<(), Stop<'a>> {
        match self.level.no_target() {
            Some((at, shape)) => Err(Stop::at(at, Reason::NoTarget(shape))),
            None => Ok(()),
        }
    }
}
