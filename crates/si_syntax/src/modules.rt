// Whole scripts.
ghost use Rattle.si_semantics.specs.Limits.{IsWithinLimits};
ghost use Rattle.si_syntax.specs.Trees.{body_of};

use crate::stmt::Stmt;

/// A script as it was read: its statements, which are within the limits of a tree. No expression has a depth greater
/// than 100, no str literal more than 1,048,576 characters, no function more than 255 parameters, and no more than 20
/// compound statements are nested.
#[derive(Debug, Drop)]
pub struct Module {
    body: Vec<Stmt>,
    ghost within: { IsWithinLimits (body_of body.items) },
}

impl Module {
    ghost use Rattle.std.specs.Prelude.{◌≡◌};
    ghost use Rattle.si_syntax.specs.Modules.{tree_of};

    /// The script of these statements, which are within the limits.
    pub fn new(body: Vec<Stmt>) -> Module
        requires { IsWithinLimits (body_of body.items) }
        ensures { tree_of result ≡ body_of body.items }
    {
        Module { body }
    }

    /// Its statements, in order. They are within the limits.
    pub fn body(&self) -> &[Stmt]
        ensures tree { body_of result.now ≡ tree_of self.now }
        ensures within { IsWithinLimits (tree_of self.now) }
    {
        self.body.as_slice()
    }
}
