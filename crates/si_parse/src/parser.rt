// From a text to a module.

ghost use Rattle.std.specs.Prelude.{◌≡◌, List, IfOk, IfErr};
ghost use Rattle.si_semantics.specs.Tree.{Stmts};
ghost use Rattle.si_semantics.specs.Grammar.{Terminal, Derives};
ghost use Rattle.si_semantics.specs.Limits.{IsWithinLimits};
ghost use Rattle.si_syntax.specs.Modules.{tree_of};
ghost use Rattle.si_parse.specs.Modules.{IsRead};
ghost use Rattle.si_parse.specs.inner.Gives.{from, IsSyntax};

use crate::fault::ParseFault;
use crate::statement::statements;
use si_syntax::Module;
use si_token::{TokenRow, tokens};
use std::alloc::Global;

/// The module that tokens derive.
///
/// # Errors
///
/// `Syntax` where they derive none, with the line where reading stopped; `NoMemory`.
pub fn module_of(alloc: Global, tokens: &TokenRow) -> Result<Module, ParseFault>
    // What is read is derived.
    ensures found { IfOk result (λ m. Derives (tree_of m) (from tokens.now 0)) }
    // A refusal for its syntax comes only where nothing is derived.
    ensures refused { IfErr result (λ e. IsSyntax e → (body : Stmts) → Derives body (from tokens.now 0) → ⊥) }
    // Nothing else is derived.
    ensures only { IfOk result (λ m. (body : Stmts) → Derives body (from tokens.now 0) → tree_of m ≡ body) }
{
    let body = statements(alloc, tokens)?;
    Ok(Module::new(body))
}

/// The tree as which a text is read.
///
/// # Errors
///
/// `Syntax` where the text is longer than 1,048,576 bytes, has no tokens, or its tokens derive no module, with the
/// line where reading stopped; `NoMemory`.
pub fn parse(alloc: Global, text: &str) -> Result<Module, ParseFault>
    // What is read is the tree of the text.
    ensures found { IfOk result (λ m. IsRead text.now (tree_of m)) }
    // A refusal for its syntax comes only where it has none.
    ensures refused { IfErr result (λ e. IsSyntax e → (body : Stmts) → IsRead text.now body → ⊥) }
    // It has no other.
    ensures only { IfOk result (λ m. (body : Stmts) → IsRead text.now body → tree_of m ≡ body) }
{
    let all = tokens(alloc, text)?;
    module_of(alloc, &all)
}

/// Every tree that tokens derive is within the limits.
pub fn derived_within_limits()
    ensures { (body : Stmts) (ts : List Terminal) → Derives body ts → IsWithinLimits body }
{}

/// The grammar is unambiguous: tokens derive at most one tree.
pub fn one_tree()
    ensures { (a b : Stmts) (ts : List Terminal) → Derives a ts → Derives b ts → a ≡ b }
{}
