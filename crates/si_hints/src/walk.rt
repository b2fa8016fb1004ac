// Going over the tokens of a text.

use crate::block::{Block, Clause, Context};
use crate::fault::{Fault, Stop};
use crate::form::Form;
use crate::level::{Frame, Level};
use crate::reason::{Found, Reason};
use crate::state::{Part, State};
use si_plain::Names;
use si_token::{Symbol, Token, TokenKind, TokenRow};
use std::alloc::Global;

// What was read, and what is expected next.
#[derive(Drop)]
pub(crate) struct Walk<'a> {
    pub(crate) alloc: Global,
    pub(crate) state: State,
    // The tokens before and after the one that is looked at.
    pub(crate) before: Option<Token<'a>>,
    pub(crate) next: Option<Token<'a>>,
    // The operator before stands twice in a row.
    pub(crate) doubled: bool,
    pub(crate) part: Part,
    pub(crate) level: Level<'a>,
    pub(crate) frames: Vec<Frame<'a>>,
    // For each call that is open, the names by which arguments are passed.
    pub(crate) passed: Vec<Names>,
    pub(crate) blocks: Vec<Block>,
    // The clause that is read, and the one that ended before, in the same column.
    pub(crate) clause: Clause,
    pub(crate) last: Clause,
    // The parameters of the function that is read, and the names that are used in it.
    pub(crate) parameters: Names,
    pub(crate) used: Names,
}

impl<'a> Walk<'a> {
    // Before the first token.
    pub(crate) fn new(alloc: Global) -> Walk<'a> {
        Walk {
            alloc,
            state: State::Line,
            before: None,
            next: None,
            doubled: false,
            part: Part::Plain,
            level: Level::new(),
            frames: Vec::new(alloc),
            passed: Vec::new(alloc),
            blocks: Vec::new(alloc),
            clause: Clause::None,
            last: Clause::None,
            parameters: Names::new(alloc),
            used: Names::new(alloc),
        }
    }

    // What may stand where the walk is.
    pub(crate) fn context(&self) -> Context {
        match self.blocks.last() {
            Some(block) => block.context,
            None => Context::outside(),
        }
    }

    // Expects something else than the token.
    pub(crate) fn expected<T>(
        &self,
        wanted: &'static str,
        token: Token<'a>,
    ) -> Result<T, Stop<'a>> {
        Err(Stop::at(token.start(), Reason::Expected(wanted, found(token))))
    }

    // Goes over one token.
    fn step(&mut self, token: Token<'a>) -> Result<(), Stop<'a>> {
        match self.state {
            State::Line => self.line(token),
            State::Small | State::Suite => self.small(token),
            State::Block => self.block(token),
            State::Tight | State::Operand => self.operand(token),
            State::Item => self.item(token),
            State::After | State::AfterIs => self.after(token),
            State::Attribute => self.attribute(token),
            State::Is | State::IsNot => self.singleton(token),
            State::NotIn => self.not_in(token),
            State::Value => self.value(token),
            State::Except => self.except(token),
            State::Colon => self.colon(token),
            State::End | State::EndOfImport => self.end(token),
            _ => self.naming(token),
        }
    }

    // The reason at a word that is none, as it reads where the walk is.
    fn at_bad_word(&self, fault: Fault<'a>) -> Stop<'a> {
        let reason = match (fault.reason, self.state) {
            (Reason::LeftOut(Form::MatrixProduct), State::Line | State::Block) => {
                Reason::LeftOut(Form::Decorators)
            }
            (Reason::LeftOut(Form::Division), State::Parameter | State::AfterParameter) =>
                Reason::LeftOut(Form::ParameterSlash),
            (reason, _) => reason,
        };
        Stop::at(fault.at, reason)
    }

    // Goes over all tokens. Where a fault of the text cut off what follows, what a text's end adds is not gone over.
    pub(crate) fn all(
        &mut self,
        tokens: &TokenRow<'a>,
        bad: Option<Fault<'a>>,
    ) -> Result<(), Stop<'a>> {
        let end = match tokens.get(tokens.len().saturating_sub(1)) {
            Some(last) => last.start(),
            None => 0,
        };
        for place in 0..tokens.len() {
            let Some(token) = tokens.get(place) else {
                return Ok(());
            };
            if let Some(fault) = bad {
                if token.start() >= end {
                    return Err(self.at_bad_word(fault));
                }
            }
            self.next = tokens.get(place.saturating_add(1));
            self.step(token)?;
            self.before = Some(token);
        }
        Ok(())
    }

    // Whether the token before is this symbol, with nothing between them.
    pub(crate) fn joins(&self, symbol: Symbol, token: Token<'a>) -> bool {
        match self.before {
            Some(before) => {
                before.kind == TokenKind::Symbol(symbol) && before.end() == token.start()
            }
            None => false,
        }
    }
}

// What a token is in a message.
pub(crate) fn found<'a>(token: Token<'a>) -> Found<'a> {
    match token.kind {
        TokenKind::Newline => Found::LineEnd,
        TokenKind::Indent => Found::Deeper,
        TokenKind::Dedent => Found::LessDeep,
        TokenKind::End => Found::TextEnd,
        _ => Found::Word(token.text),
    }
}
