// The trees of scripts.
//
// Each value stands for one tree of `si_semantics`: specs/Trees.antt says which, and specs/Modules.antt for a whole
// script. The type of a whole script keeps that its tree is within the limits.
//
// In reading order: `expr` (expressions), `target` (targets), `stmt` (statements), and `modules` (whole
// scripts).
#![tactic(auto)]

mod expr;
mod modules;
mod stmt;
mod target;

pub use expr::{CallNames, Expr};
pub use modules::Module;
pub use stmt::{
    Assign, Augment, AugmentItem, Branch, Clause, Define, Finally, For, If, Line, Stmt, Try, While,
};
pub use target::{Item, Target};
