// From a text to a script.

ghost use Rattle.std.specs.Prelude.{◌≡◌, Some, None, IfOk, IfErr};
ghost use Rattle.si_semantics.specs.Tree.{Stmts};
ghost use Rattle.si_parse.specs.inner.Gives.{IsSyntax};
ghost use Rattle.si_scope.specs.Scripts.{script_of};
ghost use Rattle.si_reading.specs.Taken.{IsTaken};
ghost use Rattle.si_reading.specs.inner.Trees.{tree_in};

use si_parse::{ParseFault, parse};
use si_scope::{ScopeFault, Scoped, resolve};
use std::alloc::Global;

/// The script as which a text is read, with its names resolved.
///
/// # Errors
///
/// `Syntax` where the text is longer than 1,048,576 bytes or the grammar has no tree for it, with the line where reading
/// stopped, counted from 1, and where the tree breaks a rule of scope (`si_scope::resolve` has them), with the line of the
/// statement that breaks it; `NoMemory` where memory was refused.
pub fn read(alloc: Global, text: &str) -> Result<Scoped, ParseFault>
    // What is answered is the tree of the text, and well scoped.
    ensures taken { IfOk result (λ s. IsTaken text.now (script_of s)) }
    // A refusal for its syntax comes only where it has none.
    ensures refused { IfErr result (λ e. IsSyntax e → (body : Stmts) → IsTaken text.now body → ⊥) }
    // Both by the function that has the tree of a text.
    ensures tree { IfOk result (λ s. tree_in text.now ≡ Some (record { body = script_of s })) }
    ensures none { IfErr result (λ e. IsSyntax e → tree_in text.now ≡ None) }
{
    match parse(alloc, text) {
        Ok(tree) => match resolve(alloc, tree) {
            Ok(script) => {
                script.facts();
                Ok(script)
            }
            Err(ScopeFault::Scope(line)) => Err(ParseFault::Syntax(line)),
            Err(ScopeFault::NoMemory) => Err(ParseFault::NoMemory),
        },
        Err(fault) => Err(fault),
    }
}
