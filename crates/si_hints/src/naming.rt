// Parts of statements that are names: of functions, parameters, `global`, imports, and `as`.

use crate::fault::Stop;
use crate::form::Form;
use crate::reason::{Reason, Rule};
use crate::state::State;
use crate::walk::Walk;
use si_plain::Names;
use si_plain::limits::MAX_PARAMETERS;
use si_token::{Keyword, Symbol, Token, TokenKind};

impl<'a> Walk<'a> {
    // A name, or what stands after one.
    pub(crate) fn naming(&mut self, token: Token<'a>) -> Result<(), Stop<'a>> {
        match self.state {
            State::Define => {
                self.named(token, State::Open)?;
                self.parameters = Names::new(self.alloc);
                self.used = Names::new(self.alloc);
                Ok(())
            }
            State::Open => match token.kind {
                TokenKind::Symbol(Symbol::LeftParenthesis) => {
                    self.state = State::Parameter;
                    Ok(())
                }
                _ => self.expected("`(`", token),
            },
            State::Parameter => self.parameter(token),
            State::AfterParameter => self.after_parameter(token),
            State::As => {
                self.named(token, State::Colon)?;
                self.using(token)
            }
            State::Global => self.global(token),
            State::AfterGlobal => match token.kind {
                TokenKind::Symbol(Symbol::Comma) => {
                    self.state = State::Global;
                    Ok(())
                }
                _ => self.end(token),
            },
            _ => self.import(token),
        }
    }

    // A name, after which something is expected.
    fn named(&mut self, token: Token<'a>, after: State) -> Result<(), Stop<'a>> {
        if token.kind != TokenKind::Name {
            return self.expected("a name", token);
        }
        self.state = after;
        Ok(())
    }

    // A name is used or bound, in a function.
    pub(crate) fn using(&mut self, token: Token<'a>) -> Result<(), Stop<'a>> {
        if self.context().in_function {
            self.used.slot_of(token.text)?;
        }
        Ok(())
    }

    // A parameter, or the closed bracket.
    fn parameter(&mut self, token: Token<'a>) -> Result<(), Stop<'a>> {
        let at = token.start();
        match token.kind {
            TokenKind::Name => {
                if self.parameters.position(token.text).is_some() {
                    let rule = Rule::TwoParameters(token.text);
                    return Err(Stop::at(at, Reason::Rule(rule)));
                }
                if self.parameters.len() >= MAX_PARAMETERS {
                    return Err(Stop::at(at, Reason::Parameters));
                }
                self.parameters.slot_of(token.text)?;
                self.used.slot_of(token.text)?;
                self.state = State::AfterParameter;
                Ok(())
            }
            TokenKind::Symbol(Symbol::RightParenthesis) => {
                self.state = State::Colon;
                Ok(())
            }
            TokenKind::Symbol(Symbol::Star | Symbol::DoubleStar) => {
                Err(Stop::at(at, Reason::LeftOut(Form::StarParameters)))
            }
            _ => self.expected("a parameter", token),
        }
    }

    // After a parameter.
    fn after_parameter(&mut self, token: Token<'a>) -> Result<(), Stop<'a>> {
        let at = token.start();
        match token.kind {
            TokenKind::Symbol(Symbol::Comma) => {
                self.state = State::Parameter;
                Ok(())
            }
            TokenKind::Symbol(Symbol::RightParenthesis) => {
                self.state = State::Colon;
                Ok(())
            }
            TokenKind::Symbol(Symbol::Colon) => {
                Err(Stop::at(at, Reason::LeftOut(Form::Annotations)))
            }
            TokenKind::Symbol(Symbol::Equal) => {
                Err(Stop::at(at, Reason::LeftOut(Form::Defaults)))
            }
            _ => self.expected("`,` or `)`", token),
        }
    }

    // A name that is declared `global`.
    fn global(&mut self, token: Token<'a>) -> Result<(), Stop<'a>> {
        self.named(token, State::AfterGlobal)?;
        let rule = if self.parameters.position(token.text).is_some() {
            Rule::GlobalParameter(token.text)
        } else if self.used.position(token.text).is_some() {
            Rule::GlobalAfterUse(token.text)
        } else {
            return Ok(());
        };
        Err(Stop::at(token.start(), Reason::Rule(rule)))
    }

    // A part of an import.
    fn import(&mut self, token: Token<'a>) -> Result<(), Stop<'a>> {
        let is_name = token.kind == TokenKind::Name;
        match self.state {
            State::Import if is_name && token.text == "threading" => {
                self.state = State::EndOfImport;
                Ok(())
            }
            State::From if is_name && token.text == "concurrent" => {
                self.state = State::FromImport;
                Ok(())
            }
            State::FromImport if token.kind == TokenKind::Keyword(Keyword::Import) => {
                self.state = State::FromModule;
                Ok(())
            }
            State::FromModule if is_name && token.text == "interpreters" => {
                self.state = State::EndOfImport;
                Ok(())
            }
            _ => Err(Stop::at(token.start(), Reason::LeftOut(Form::Import))),
        }
    }

    // The end of a statement.
    pub(crate) fn end(&mut self, token: Token<'a>) -> Result<(), Stop<'a>> {
        match token.kind {
            TokenKind::Newline => {
                self.end_line();
                Ok(())
            }
            TokenKind::Symbol(Symbol::Semicolon) => {
                self.state = State::Small;
                Ok(())
            }
            TokenKind::Symbol(Symbol::Comma | Symbol::Dot) | TokenKind::Keyword(Keyword::As)
                if self.state == State::EndOfImport => {
                Err(Stop::at(token.start(), Reason::LeftOut(Form::Import)))
            }
            _ => self.expected("a line's end", token),
        }
    }
}
