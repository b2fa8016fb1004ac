// Commas, colons, and signs of assignment after an operand.

use crate::fault::Stop;
use crate::form::{Form, Slip};
use crate::level::{Bracket, Level};
use crate::reason::Reason;
use crate::state::{Part, State};
use crate::walk::Walk;
use si_token::{Symbol, Token, TokenKind};

impl<'a> Walk<'a> {
    // An expression is complete: it waits for no `else`.
    pub(crate) fn whole(&self, token: Token<'a>) -> Result<(), Stop<'a>> {
        if self.level.choosing {
            return self.expected("`else`", token);
        }
        Ok(())
    }

    // A comma.
    pub(crate) fn comma(&mut self, token: Token<'a>) -> Result<(), Stop<'a>> {
        self.whole(token)?;
        let at = token.start();
        match self.frames.last() {
            Some(frame) => match frame.bracket {
                Bracket::Index => {
                    return Err(Stop::at(at, Reason::LeftOut(Form::IndexComma)));
                }
                Bracket::Dict if !self.level.named => return self.no_pair(token),
                Bracket::Call => self.argument()?,
                _ => {}
            },
            None => match self.part {
                Part::Test | Part::Raise => return self.expected(self.wanted(), token),
                Part::Delete => {
                    return Err(Stop::at(at, Reason::LeftOut(Form::DeleteSeveral)));
                }
                Part::Except => {
                    return Err(Stop::at(at, Reason::LeftOut(Form::ExceptComma)));
                }
                _ => {}
            },
        }
        self.level.next_item();
        self.level.comma = true;
        self.state = State::Item;
        Ok(())
    }

    // A key without a value.
    pub(crate) fn no_pair(&self, token: Token<'a>) -> Result<(), Stop<'a>> {
        if self.level.after_named {
            return self.expected("`:`", token);
        }
        Err(Stop::at(token.start(), Reason::LeftOut(Form::Sets)))
    }

    // An argument ends, which is passed by name or stands before all that are.
    pub(crate) fn argument(&self) -> Result<(), Stop<'a>> {
        if self.level.after_named && !self.level.named && !self.level.is_empty() {
            return Err(Stop::at(self.level.first_or(0), Reason::PlaceAfterName));
        }
        Ok(())
    }

    // A colon after an operand.
    pub(crate) fn inner_colon(&mut self, token: Token<'a>) -> Result<(), Stop<'a>> {
        self.whole(token)?;
        let at = token.start();
        let is_walrus = match self.next {
            Some(next) => {
                next.kind == TokenKind::Symbol(Symbol::Equal) && next.start() == token.end()
            }
            None => false,
        };
        if is_walrus {
            return Err(Stop::at(at, Reason::LeftOut(Form::Walrus)));
        }
        match self.frames.last() {
            Some(frame) => match frame.bracket {
                Bracket::Dict if !self.level.named => {
                    self.level.next_item();
                    self.level.named = true;
                    self.state = State::Operand;
                    Ok(())
                }
                Bracket::Index => Err(Stop::at(at, Reason::LeftOut(Form::Slices))),
                _ => {
                    self.unclosed(token)?;
                    self.expected(self.wanted(), token)
                }
            },
            None => self.outer_colon(token),
        }
    }

    // The same outside brackets.
    fn outer_colon(&mut self, token: Token<'a>) -> Result<(), Stop<'a>> {
        match self.part {
            Part::Test | Part::Over | Part::Except => self.colon(token),
            Part::Plain if self.level.first_text() == "match" => Err(Stop::at(
                self.level.first_or(token.start()),
                Reason::LeftOut(Form::Match),
            )),
            Part::Plain => Err(Stop::at(token.start(), Reason::LeftOut(Form::Annotations))),
            _ => self.expected(self.wanted(), token),
        }
    }

    // An `=` after an operand.
    pub(crate) fn equal(&mut self, token: Token<'a>) -> Result<(), Stop<'a>> {
        self.whole(token)?;
        let at = token.start();
        match self.frames.last() {
            Some(frame) => {
                let name = self.level.one_name();
                match name {
                    Some(name) if frame.bracket == Bracket::Call && !self.level.named => {
                        self.pass(name)
                    }
                    _ => Err(Stop::at(at, Reason::Slip(Slip::Assigns))),
                }
            }
            None => match self.part {
                Part::Plain | Part::Assigned => {
                    self.assignable()?;
                    self.expression(Part::Assigned, State::Operand);
                    Ok(())
                }
                Part::Augmented | Part::Delete | Part::Targets => {
                    self.expected(self.wanted(), token)
                }
                _ => Err(Stop::at(at, Reason::Slip(self.assigning(token)))),
            },
        }
    }

    // What is meant by an `=` in a test.
    fn assigning(&self, token: Token<'a>) -> Slip {
        match self.next {
            Some(next) if next.start() == token.end() => match next.kind {
                TokenKind::Symbol(Symbol::Greater) => Slip::AtLeast,
                TokenKind::Symbol(Symbol::Less) => Slip::AtMost,
                _ => Slip::Assigns,
            },
            _ => Slip::Assigns,
        }
    }

    // An argument is passed by a name.
    fn pass(&mut self, name: &'a str) -> Result<(), Stop<'a>> {
        if let Some(names) = self.passed.last_mut() {
            if names.position(name).is_some() {
                return Err(Stop::at(self.level.first_or(0), Reason::PassedTwice(name)));
            }
            names.slot_of(name)?;
        }
        let mut level = Level::new();
        level.named = true;
        level.after_named = self.level.after_named;
        self.level = level;
        self.state = State::Operand;
        Ok(())
    }

    // An augmented sign after an operand.
    pub(crate) fn augmented(&mut self, token: Token<'a>) -> Result<(), Stop<'a>> {
        self.whole(token)?;
        if !self.frames.is_empty() || self.part != Part::Plain {
            return self.no_operator(token);
        }
        let shape = self.level.shape(false);
        if !shape.is_augmented() || self.level.comma {
            return Err(Stop::at(
                self.level.first_or(token.start()),
                Reason::NoAugmented(shape),
            ));
        }
        self.expression(Part::Augmented, State::Operand);
        Ok(())
    }
}
