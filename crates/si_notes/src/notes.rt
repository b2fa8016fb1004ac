// Lines for people.

use si_plain::NoMemory;
use std::alloc::{AllocError, Global};
use std::fmt;
use std::marker::Model;

/// What is told on standard error: lines, each with its line end. No contract speaks of them.
#[derive(Debug, Drop)]
pub struct Notes {
    alloc: Global,
    lines: String,
}

impl Model for Notes {
    ghost Value = { Unit {0} };

    ghost view = { λ _. tt };
}

impl Notes {
    /// No line.
    pub fn new(alloc: Global) -> Notes {
        Notes {
            alloc,
            lines: String::new(alloc),
        }
    }

    /// The lines.
    pub fn as_str(&self) -> &str {
        self.lines.as_str()
    }

    // Adds a line. `NoMemory` where memory was refused, and then the lines are as they were.
    pub(crate) fn add<D: fmt::Display>(&mut self, line: &D) -> Result<(), NoMemory> {
        match format!(in self.alloc; "subpy: {line}\n") {
            Ok(text) => self.lines.push_str(text.as_str()),
            Err(_) => Err(AllocError),
        }
    }
}
