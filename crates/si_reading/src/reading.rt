// A text that is kept with the script as which it is read.

ghost use Rattle.std.specs.Prelude.{◌≡◌, ◌≢◌, Some, IfOk, IfErr, IfSome, IfNone, OnOk};
ghost use Rattle.si_semantics.specs.Tree.{Stmts};
ghost use Rattle.si_parse.specs.inner.Gives.{IsSyntax};
ghost use Rattle.si_scope.specs.Scripts.{script_of};
ghost use Rattle.si_reading.specs.Taken.{IsTaken};
ghost use Rattle.si_reading.specs.inner.Trees.{tree_in};

use crate::script::read;
use si_parse::ParseFault;
use si_scope::Scoped;
use std::alloc::Global;
use std::marker::Model;

/// A text that is read, with the script as which it is read: so it need not be read once more where it is run. A contract sees the
/// text, by its bytes in UTF-8.
#[derive(Drop)]
pub struct Reading {
    text: String,
    script: Scoped,
}

impl Model for Reading {
    ghost use Rattle.std.specs.Prelude.{◌≡◌, ℕ, List, Some, string_bytes};
    ghost use Rattle.si_scope.specs.Scripts.{script_of};
    ghost use Rattle.si_reading.specs.inner.Trees.{tree_in};

    ghost Value = { List ℕ };

    ghost view = { λ r. string_bytes r.text };

    ghost invariant = { λ r. tree_in (string_bytes r.text) ≡ Some (record { body = script_of r.script }) };
}

impl Reading {
    /// Reads a text, of which it keeps a copy.
    ///
    /// # Errors
    ///
    /// Those of [`read`]; `NoMemory` too where memory was refused for the copy.
    pub fn new(alloc: Global, text: &str) -> Result<Reading, ParseFault>
        ensures is { IfOk result (λ r. r ≡ text.now) }
        ensures taken { OnOk result ((body : Stmts) × IsTaken text.now body) }
        ensures refused { IfErr result (λ e. IsSyntax e → (body : Stmts) → IsTaken text.now body → ⊥) }
    {
        let script = read(alloc, text)?;
        let mut copy = String::new(alloc);
        match copy.push_str(text) {
            Ok(()) => Ok(Reading { text: copy, script }),
            Err(_) => Err(ParseFault::NoMemory),
        }
    }

    /// The script as which a text is read, where that is the text that was read: the one that is the text's tree (`read`).
    pub fn script_of(self, text: &str) -> Option<Scoped>
        ensures some { IfSome result (λ s. (text.now ≡ self) × (tree_in text.now ≡ Some (record { body = script_of s }))) }
        ensures none { IfNone result (text.now ≢ self) }
    {
        if self.text.as_str() == text {
            Some(self.script)
        } else {
            None
        }
    }
}
