// Where the code of each statement begins. It is for messages alone: no contract speaks of it.
ghost use Rattle.std.specs.Prelude.{◌≡◌};

use crate::table::CodeTable;
use si_plain::NoMemory;
use std::alloc::{AllocError, Global};
use std::marker::Model;

/// Where a statement stands: in which text, of those whose code a table has, and which statement of it. Both are numbered
/// from 0, the statements of a text in the order in which their code was begun.
#[derive(Clone, Copy, Debug, PartialEq, Eq)]
pub struct Spot {
    /// The number of the text.
    pub text: u32,
    /// The number of the statement.
    pub statement: u32,
}

// From a place on stands the code of a statement, of that number in its text.
#[derive(Clone, Copy)]
struct Note {
    at: u32,
    statement: u32,
}

/// The places where the code of a text begins, and those where that of a statement does, each in order. Its Model is the
/// unit: what they are is not said.
#[derive(Drop)]
pub(crate) struct Notes {
    texts: Vec<u32>,
    notes: Vec<Note>,
    // How many statements of the last text were begun.
    begun: u32,
}

impl Model for Notes {
    ghost Value = { Unit {0} };

    ghost view = { λ n. tt };
}

impl Notes {
    /// Of no text.
    pub(crate) fn new(alloc: Global) -> Notes {
        Notes {
            texts: Vec::new(alloc),
            notes: Vec::new(alloc),
            begun: 0,
        }
    }

    /// Takes away those of places that are no longer among so many.
    pub(crate) fn cut_back(&mut self, lines: usize) {
        let texts = self.texts.partition_point(|at| (*at as usize) < lines);
        self.texts.truncate(texts);
        let notes = self
            .notes
            .partition_point(|note| (note.at as usize) < lines);
        self.notes.truncate(notes);
    }

    // The code of another text begins at a place.
    fn begin_text(&mut self, at: usize) -> Result<(), NoMemory> {
        let at = u32::try_from(at).map_err(|_| AllocError)?;
        self.texts.push(at)?;
        self.begun = 0;
        Ok(())
    }

    // The code of the text's next statement begins at a place.
    fn begin_statement(&mut self, at: usize) -> Result<(), NoMemory> {
        let begun = self.begun.checked_add(1).ok_or(AllocError)?;
        self.note(at, self.begun)?;
        self.begun = begun;
        Ok(())
    }

    // From a place on stands the code of a statement. One whose code was to begin there has none.
    fn note(&mut self, at: usize, statement: u32) -> Result<(), NoMemory> {
        let at = u32::try_from(at).map_err(|_| AllocError)?;
        let note = Note { at, statement };
        match self.notes.last_mut() {
            Some(last) if last.at == at => *last = note,
            _ => self.notes.push(note)?,
        }
        Ok(())
    }

    // The statement whose code stands at a place.
    fn spot(&self, at: usize) -> Option<Spot> {
        let texts = self.texts.partition_point(|begin| *begin as usize <= at);
        let text = texts.checked_sub(1)?;
        let begin = *self.texts.get(text)?;
        let notes = self.notes.partition_point(|note| note.at as usize <= at);
        let note = self.notes.get(notes.checked_sub(1)?)?;
        if note.at < begin {
            return None;
        }
        let text = u32::try_from(text).ok()?;
        Some(Spot {
            text,
            statement: note.statement,
        })
    }
}

impl CodeTable {
    /// The code of another text begins.
    ///
    /// `NoMemory`: memory was refused, or the table has 2^32 instructions or more.
    pub fn begin_text(&mut self) -> Result<(), NoMemory>
        ensures { self.new ≡ self.old }
    {
        let at = self.len();
        self.notes.begin_text(at)
    }

    /// The code that follows is that of the text's next statement.
    ///
    /// `NoMemory`: memory was refused, or the table has 2^32 instructions or more, or the text as many statements.
    pub fn note_statement(&mut self) -> Result<(), NoMemory>
        ensures { self.new ≡ self.old }
    {
        let at = self.len();
        self.notes.begin_statement(at)
    }

    /// The code that follows is again that of the statement of a number.
    ///
    /// `NoMemory`: memory was refused, or the table has 2^32 instructions or more.
    pub fn note_again(&mut self, statement: u32) -> Result<(), NoMemory>
        ensures { self.new ≡ self.old }
    {
        let at = self.len();
        self.notes.note(at, statement)
    }

    /// The number of the statement whose code was begun last, in its text; where there is none, 0.
    pub fn statement(&self) -> u32 {
        self.notes.begun.saturating_sub(1)
    }

    /// The statement whose code stands at a place, where one is known. A hint: no contract speaks of it.
    pub fn spot(&self, at: usize) -> Option<Spot> {
        self.line(at)?;
        self.notes.spot(at)
    }
}
