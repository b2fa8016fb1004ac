// How lines and statements begin.

use crate::block::Clause;
use crate::fault::Stop;
use crate::form::Form;
use crate::level::Level;
use crate::reason::{Reason, Rule};
use crate::state::{Part, State};
use crate::walk::Walk;
use si_plain::limits::MAX_NESTING;
use si_token::{Keyword, Symbol, Token, TokenKind};

// The clause that a keyword begins, where it begins a compound statement.
fn compound(keyword: Keyword) -> Option<Clause> {
    match keyword {
        Keyword::If => Some(Clause::If),
        Keyword::While => Some(Clause::While),
        Keyword::For => Some(Clause::For),
        Keyword::Try => Some(Clause::Try),
        Keyword::Def => Some(Clause::Define),
        _ => None,
    }
}

// The form that a keyword begins, where it is left out.
pub(crate) fn form_of(keyword: Keyword) -> Option<Form> {
    match keyword {
        Keyword::Class => Some(Form::Classes),
        Keyword::With => Some(Form::With),
        Keyword::Async => Some(Form::Async),
        Keyword::Await => Some(Form::Await),
        Keyword::Assert => Some(Form::Assert),
        Keyword::Nonlocal => Some(Form::Nonlocal),
        Keyword::Yield => Some(Form::Yield),
        Keyword::Lambda => Some(Form::Lambda),
        _ => None,
    }
}

impl<'a> Walk<'a> {
    // At the beginning of a line.
    pub(crate) fn line(&mut self, token: Token<'a>) -> Result<(), Stop<'a>> {
        match token.kind {
            TokenKind::Keyword(
                Keyword::Elif | Keyword::Else | Keyword::Except | Keyword::Finally,
            ) => {
                return self.further_clause(token);
            }
            _ => {}
        }
        if self.last == Clause::Try {
            return self.expected("`except` or `finally`", token);
        }
        match token.kind {
            TokenKind::Dedent => {
                self.close_block();
                Ok(())
            }
            TokenKind::Indent => self.expected("a line at the column of the one before", token),
            TokenKind::End | TokenKind::Newline => Ok(()),
            TokenKind::Keyword(keyword) => {
                self.last = Clause::None;
                match compound(keyword) {
                    Some(clause) => self.begin_compound(clause, token),
                    None => self.begin(token),
                }
            }
            _ => {
                self.last = Clause::None;
                self.begin(token)
            }
        }
    }

    // After a semicolon, or after the colon of a clause.
    pub(crate) fn small(&mut self, token: Token<'a>) -> Result<(), Stop<'a>> {
        if token.kind == TokenKind::Newline {
            if self.state == State::Suite {
                self.state = State::Block;
            } else {
                self.end_line();
            }
            return Ok(());
        }
        if self.state == State::Suite {
            if let Some(block) = self.blocks.last_mut() {
                block.in_line = true;
            }
        }
        if let TokenKind::Keyword(keyword) = token.kind {
            if compound(keyword).is_some() {
                return Err(Stop::at(token.start(), Reason::OwnLine(token.text)));
            }
        }
        self.begin(token)
    }

    // After the line of a clause.
    pub(crate) fn block(&mut self, token: Token<'a>) -> Result<(), Stop<'a>> {
        if token.kind != TokenKind::Indent {
            return self.expected("a deeper line", token);
        }
        self.last = Clause::None;
        self.state = State::Line;
        Ok(())
    }

    // Closes the innermost suite.
    pub(crate) fn close_block(&mut self) {
        if let Some(block) = self.blocks.pop() {
            self.last = block.clause;
        }
    }

    // After the end of a line.
    pub(crate) fn end_line(&mut self) {
        self.state = State::Line;
        if let Some(block) = self.blocks.last() {
            if block.in_line {
                self.close_block();
            }
        }
    }

    // A compound statement begins.
    fn begin_compound(&mut self, clause: Clause, token: Token<'a>) -> Result<(), Stop<'a>> {
        if self.blocks.len() >= MAX_NESTING as usize {
            return Err(Stop::at(token.start(), Reason::Nesting));
        }
        if clause == Clause::Define && self.context().in_function {
            return Err(Stop::at(token.start(), Reason::LeftOut(Form::NestedFunctions)));
        }
        self.clause = clause;
        match clause {
            Clause::Try => self.state = State::Colon,
            Clause::Define => self.state = State::Define,
            Clause::For => self.expression(Part::Targets, State::Operand),
            _ => self.expression(Part::Test, State::Operand),
        }
        Ok(())
    }

    // An expression begins that belongs to a statement.
    pub(crate) fn expression(&mut self, part: Part, state: State) {
        self.part = part;
        self.level = Level::new();
        self.state = state;
    }

    // A small statement begins.
    fn begin(&mut self, token: Token<'a>) -> Result<(), Stop<'a>> {
        match token.kind {
            TokenKind::Keyword(keyword) => self.begin_keyword(keyword, token),
            TokenKind::Symbol(Symbol::Star) => Err(Stop::at(
                token.start(),
                Reason::LeftOut(Form::StarTargets),
            )),
            TokenKind::Symbol(Symbol::Semicolon) => self.expected("a statement", token),
            _ => {
                self.expression(Part::Plain, State::Operand);
                self.operand(token)
            }
        }
    }

    // The same, where a keyword stands there.
    fn begin_keyword(&mut self, keyword: Keyword, token: Token<'a>) -> Result<(), Stop<'a>> {
        match keyword {
            Keyword::Pass => self.state = State::End,
            Keyword::Break | Keyword::Continue => {
                self.within_loop(token)?;
                self.state = State::End;
            }
            Keyword::Return => {
                self.within_function(token)?;
                self.expression(Part::Return, State::Value);
            }
            Keyword::Raise => self.expression(Part::Raise, State::Value),
            Keyword::Del => self.expression(Part::Delete, State::Operand),
            Keyword::Global => {
                if !self.context().in_function {
                    return Err(Stop::at(token.start(), Reason::Rule(Rule::GlobalOutside)));
                }
                self.state = State::Global;
            }
            Keyword::Import | Keyword::From => self.begin_import(keyword, token)?,
            _ => {
                self.expression(Part::Plain, State::Operand);
                self.operand(token)?;
            }
        }
        Ok(())
    }

    // An import begins.
    fn begin_import(&mut self, keyword: Keyword, token: Token<'a>) -> Result<(), Stop<'a>> {
        if self.context().in_function {
            return Err(Stop::at(token.start(), Reason::Rule(Rule::ImportInside)));
        }
        self.state = if keyword == Keyword::Import {
            State::Import
        } else {
            State::From
        };
        Ok(())
    }

    // `break` and `continue` stand in a loop.
    fn within_loop(&self, token: Token<'a>) -> Result<(), Stop<'a>> {
        let context = self.context();
        if context.in_loop {
            return Ok(());
        }
        let rule = if context.keeps_loop {
            Rule::LeavesFinally(token.text)
        } else {
            Rule::NotInLoop(token.text)
        };
        Err(Stop::at(token.start(), Reason::Rule(rule)))
    }

    // `return` stands in a function.
    fn within_function(&self, token: Token<'a>) -> Result<(), Stop<'a>> {
        let context = self.context();
        let rule = if !context.in_function {
            Rule::NotInFunction(token.text)
        } else if context.keeps_return {
            Rule::LeavesFinally(token.text)
        } else {
            return Ok(());
        };
        Err(Stop::at(token.start(), Reason::Rule(rule)))
    }
}
