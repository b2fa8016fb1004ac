// Clauses of compound statements.

use crate::block::{Block, Clause};
use crate::fault::Stop;
use crate::form::{Form, Slip};
use crate::reason::Reason;
use crate::state::{Part, State};
use crate::walk::Walk;
use si_token::{Keyword, Symbol, Token, TokenKind};

impl<'a> Walk<'a> {
    // A clause that belongs to a statement before it.
    pub(crate) fn further_clause(&mut self, token: Token<'a>) -> Result<(), Stop<'a>> {
        let last = self.last;
        self.last = Clause::None;
        match token.kind {
            TokenKind::Keyword(Keyword::Elif) if last == Clause::If => {
                self.clause = Clause::If;
                self.expression(Part::Test, State::Operand);
                Ok(())
            }
            TokenKind::Keyword(Keyword::Else) if last == Clause::Try => {
                self.expected("`except` or `finally`", token)
            }
            TokenKind::Keyword(Keyword::Else) if last.takes_else() => {
                self.clause = match last {
                    Clause::Except | Clause::Bare => Clause::TryElse,
                    _ => Clause::Last,
                };
                self.state = State::Colon;
                Ok(())
            }
            TokenKind::Keyword(Keyword::Except) => self.begin_except(last, token),
            TokenKind::Keyword(Keyword::Finally) if last.takes_finally() => {
                self.clause = Clause::Finally;
                self.state = State::Colon;
                Ok(())
            }
            _ => Err(Stop::at(token.start(), Reason::Alone(token.text))),
        }
    }

    // An `except` after a clause.
    fn begin_except(&mut self, last: Clause, token: Token<'a>) -> Result<(), Stop<'a>> {
        match last {
            Clause::Try | Clause::Except => {
                self.expression(Part::Except, State::Except);
                Ok(())
            }
            Clause::Bare => Err(Stop::at(token.start(), Reason::BareNotLast)),
            _ => Err(Stop::at(token.start(), Reason::Alone(token.text))),
        }
    }

    // After an `except`.
    pub(crate) fn except(&mut self, token: Token<'a>) -> Result<(), Stop<'a>> {
        match token.kind {
            TokenKind::Symbol(Symbol::Colon) => {
                self.clause = Clause::Bare;
                self.colon(token)
            }
            TokenKind::Symbol(Symbol::Star) => Err(Stop::at(
                token.start(),
                Reason::LeftOut(Form::ExceptStar),
            )),
            _ => {
                self.clause = Clause::Except;
                self.operand(token)
            }
        }
    }

    // The colon of a clause.
    pub(crate) fn colon(&mut self, token: Token<'a>) -> Result<(), Stop<'a>> {
        match token.kind {
            TokenKind::Symbol(Symbol::Colon) => {
                let context = self.context().within(self.clause);
                self.blocks.push(Block {
                    clause: self.clause,
                    in_line: false,
                    context,
                })?;
                self.state = State::Suite;
                Ok(())
            }
            TokenKind::Keyword(Keyword::If) if self.clause == Clause::Last => {
                Err(Stop::at(token.start(), Reason::Slip(Slip::ElseIf)))
            }
            TokenKind::Symbol(Symbol::Minus) if self.clause == Clause::Define => Err(Stop::at(
                token.start(),
                Reason::LeftOut(Form::Annotations),
            )),
            _ => self.expected("`:`", token),
        }
    }
}
