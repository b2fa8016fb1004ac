// The texts that an interpreter was given to run.

use si_hints::{StatementLine, Statements};
use si_interp::Spot;
use si_plain::NoMemory;
use std::alloc::Global;

// The text of a run, and the lines of its statements once one was asked for.
#[derive(Drop)]
struct RunText<'a> {
    text: &'a str,
    statements: Option<Statements<'a>>,
}

// The texts of runs, in their order.
#[derive(Drop)]
pub(crate) struct Texts<'a> {
    alloc: Global,
    runs: Vec<RunText<'a>>,
}

impl<'a> Texts<'a> {
    // None.
    pub(crate) fn new(alloc: Global) -> Texts<'a> {
        Texts {
            alloc,
            runs: Vec::new(alloc),
        }
    }

    // The text of the next run.
    pub(crate) fn add(&mut self, text: &'a str) -> Result<(), NoMemory> {
        self.runs.push(RunText {
            text,
            statements: None,
        })?;
        Ok(())
    }

    // The number of the last run, from 0, and its text, if there is one.
    pub(crate) fn last(&self) -> Option<(u32, &'a str)> {
        let run = self.runs.last()?;
        let number = self.runs.len().saturating_sub(1);
        Some((u32::try_from(number).unwrap_or(u32::MAX), run.text))
    }

    // Where a statement stands, if its text is among these and has it. `NoMemory` where memory was refused.
    pub(crate) fn line(&mut self, spot: Spot) -> Result<Option<StatementLine<'a>>, NoMemory> {
        let alloc = self.alloc;
        let Some(run) = self.runs.get_mut(spot.text as usize) else {
            return Ok(None);
        };
        if run.statements.is_none() {
            run.statements = Some(Statements::of(alloc, run.text)?);
        }
        match &run.statements {
            Some(statements) => Ok(statements.line(spot.statement)),
            None => Ok(None),
        }
    }
}
