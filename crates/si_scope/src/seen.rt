// The names of a function, as far as its suite was gone over.
ghost use Rattle.std.specs.Prelude.{◌≡◌, [], IfOk, IfErr, OnOk, map, string_bytes, true, false};
ghost use Rattle.std.specs.Option.{option_map};
ghost use Rattle.si_semantics.specs.Scope.{are_distinct, names_of, names_of_value};
ghost use Rattle.si_syntax.specs.Trees.{expr_of, index_of, object_of, target_of, targets_of};
ghost use Rattle.si_scope.specs.Faults.{Leaves, IsScope};
ghost use Rattle.si_scope.specs.inner.Walk.{binding, binding_any, binding_target, binding_targets, declaring, using};

use crate::expression::use_names;
use crate::fault::ScopeFault;
use si_plain::{Names, NoMemory};
use si_syntax::{Assign, Augment, AugmentItem, Expr, Item, Line, Target};
use std::alloc::Global;

// The names that were used or bound, and the parameters; those that were declared global; and those that are local.
#[derive(Drop)]
pub(crate) struct Seen {
    pub(crate) used: Names,
    pub(crate) declared: Names,
    pub(crate) locals: Names,
}

impl Seen {
    // In front of the suite of a function with these parameters, whose `def` stands in this line.
    pub(crate) fn new(alloc: Global, line: Line, parameters: &[String]) -> Result<Seen, ScopeFault>
        ensures used { IfOk result (λ seen. seen.used ≡ map string_bytes parameters.now) }
        ensures declared { IfOk result (λ seen. seen.declared ≡ []) }
        ensures locals { IfOk result (λ seen. seen.locals ≡ map string_bytes parameters.now) }
        ensures distinct { IfOk result (λ seen. are_distinct (map string_bytes parameters.now) ≡ true) }
        ensures scope { IfErr result (λ fault. IsScope fault → are_distinct (map string_bytes parameters.now) ≡ false) }
    {
        let mut used = Names::new(alloc);
        let mut locals = Names::new(alloc);
        for parameter in parameters {
            let name = parameter.as_str();
            if used.position(name).is_some() {
                return Err(ScopeFault::Scope(line));
            }
            used.slot_of(name)?;
            locals.slot_of(name)?;
        }
        Ok(Seen {
            used,
            declared: Names::new(alloc),
            locals,
        })
    }

    // A name is bound.
    pub(crate) fn bind(&mut self, name: &str) -> Result<(), NoMemory>
        ensures { OnOk result (self.new ≡ binding name.now self.old) }
    {
        self.used.slot_of(name)?;
        if self.declared.position(name).is_none() {
            self.locals.slot_of(name)?;
        }
        Ok(())
    }

    // A name that may be left out is bound.
    pub(crate) fn bind_any(&mut self, name: &Option<String>) -> Result<(), NoMemory>
        ensures { OnOk result (self.new ≡ binding_any (option_map string_bytes name.now) self.old) }
    {
        match name {
            Some(name) => self.bind(name.as_str()),
            None => Ok(()),
        }
    }

    // A target is bound: a name, or what stands in a row; an object and its index are used.
    #[cycle(targets)]
    fn bind_target(&mut self, target: &Target) -> Result<(), NoMemory>
        ensures { OnOk result (self.new ≡ binding_target (target_of target.now) self.old) }
    {
        match target {
            Target::Named(name) => self.bind(name.as_str()),
            Target::Item(item) => self.use_item(item),
            Target::Unpack(targets) => self.bind_targets(targets),
        }
    }

    // Targets in a row are bound.
    #[cycle(targets)]
    fn bind_targets(&mut self, targets: &[Target]) -> Result<(), NoMemory>
        ensures { OnOk result (self.new ≡ binding_targets (targets_of targets.now) self.old) }
    {
        for target in targets {
            self.bind_target(target)?;
        }
        Ok(())
    }

    // The names of an expression are used.
    pub(crate) fn use_expr(&mut self, expr: &Expr) -> Result<(), NoMemory>
        ensures { OnOk result (self.new ≡ using (names_of (expr_of expr.now)) self.old) }
    {
        use_names(expr, &mut self.used)
    }

    // Those of an object and of its index.
    pub(crate) fn use_item(&mut self, item: &Item) -> Result<(), NoMemory>
        ensures { OnOk result (self.new ≡ using (names_of (index_of item.now)) (using (names_of (object_of item.now)) self.old)) }
    {
        self.use_expr(&item.object)?;
        self.use_expr(&item.index)
    }

    // Those of an expression that may be left out.
    pub(crate) fn use_value(&mut self, value: &Option<Expr>) -> Result<(), NoMemory>
        ensures { OnOk result (self.new ≡ using (names_of_value (option_map expr_of value.now)) self.old) }
    {
        match value {
            Some(expr) => self.use_expr(expr),
            None => Ok(()),
        }
    }

    // Targets are bound to the value of an expression.
    pub(crate) fn assign(&mut self, statement: &Assign) -> Result<(), NoMemory>
        ensures { OnOk result (self.new ≡ using (names_of (expr_of statement.now.value)) (binding_targets (targets_of statement.now.targets.items) self.old)) }
    {
        self.bind_targets(&statement.targets)?;
        self.use_expr(&statement.value)
    }

    // A name is bound to what an operator gives for its value and that of an expression.
    pub(crate) fn augment(&mut self, statement: &Augment) -> Result<(), NoMemory>
        ensures { OnOk result (self.new ≡ using (names_of (expr_of statement.now.value)) (binding (string_bytes statement.now.name) self.old)) }
    {
        self.bind(statement.name.as_str())?;
        self.use_expr(&statement.value)
    }

    // The same of an item, whose object and index are used.
    pub(crate) fn augment_item(&mut self, statement: &AugmentItem) -> Result<(), NoMemory>
        ensures { OnOk result (self.new ≡ using (names_of (expr_of statement.now.value)) (using (names_of (index_of statement.now.item)) (using (names_of (object_of statement.now.item)) self.old))) }
    {
        self.use_item(&statement.item)?;
        self.use_expr(&statement.value)
    }

    // A target is bound to what an expression gives.
    pub(crate) fn set(&mut self, target: &Target, expr: &Expr) -> Result<(), NoMemory>
        ensures { OnOk result (self.new ≡ using (names_of (expr_of expr.now)) (binding_target (target_of target.now) self.old)) }
    {
        self.bind_target(target)?;
        self.use_expr(expr)
    }

    // Names are declared global, in this line.
    pub(crate) fn declare(&mut self, line: Line, names: &[String]) -> Result<(), ScopeFault>
        ensures { Leaves self.new result (declaring (map string_bytes names.now) self.old) }
    {
        for global in names {
            let name = global.as_str();
            if self.used.position(name).is_some() {
                return Err(ScopeFault::Scope(line));
            }
            self.declared.slot_of(name)?;
        }
        Ok(())
    }
}
