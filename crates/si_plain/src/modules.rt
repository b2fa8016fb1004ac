// The modules that scripts import.

/// A module that a script may import (Python Language Reference 3.14, 7.11): these two, by the choice of this project.
#[derive(Clone, Copy, Debug, PartialEq, Eq)]
pub enum ModuleName {
    /// `threading` (Python Standard Library 3.14, "threading").
    Threading,
    /// `concurrent.interpreters` (PEP 734).
    Interpreters,
}
