// Scripts whose names are resolved.
ghost use Rattle.si_scope.specs.Locals.{IsResolved};
ghost use Rattle.si_syntax.specs.Modules.{tree_of};

use si_plain::Names;
use si_syntax::{Module, Stmt};

/// A script that is well scoped, with the names that are local to each of its functions.
#[derive(Drop)]
pub struct Scoped {
    tree: Module,
    locals: Vec<Names>,
    ghost resolved: { ∥ IsResolved (tree_of tree) locals.items ∥₁ },
}

impl Scoped {
    ghost use Rattle.std.specs.Prelude.{◌≡◌, map, slice_get, true};
    ghost use Rattle.std.specs.Option.{option_map};
    ghost use Rattle.si_semantics.specs.Scope.{is_scoped, locals_of};
    ghost use Rattle.si_semantics.specs.Tree.{functions_in};
    ghost use Rattle.si_syntax.specs.Trees.{body_of};
    ghost use Rattle.si_scope.specs.Scripts.{script_of};

    /// A script with the names that are local to its functions.
    pub(crate) fn new(tree: Module, locals: Vec<Names>) -> Scoped
        requires { IsResolved (tree_of tree) locals.items }
        ensures { script_of result ≡ tree_of tree }
    {
        Scoped { tree, locals }
    }

    /// The statements of the script, in order.
    pub fn body(&self) -> &[Stmt]
        ensures { body_of result.now ≡ script_of self.now }
    {
        self.tree.body()
    }

    /// The names that are local to the function of this number, which counts the functions of the script from 0 in the
    /// order in which they stand: its parameters, and what it binds and does not declare global.
    pub fn locals(&self, function: usize) -> Option<&Names>
        ensures { option_map (λ names. names.now) result ≡ slice_get (map locals_of (functions_in (script_of self.now))) function }
    {
        self.locals.get(function)
    }

    /// What holds of every such script: it is well scoped.
    pub fn facts(&self)
        ensures { is_scoped (script_of self.now) ≡ true }
    {
        let _tree = &self.tree;
    }
}
