// The code that binds names, and unbinds them.
ghost use Rattle.std.specs.Prelude.{◌≡◌, [], ◌∷◌, OnOk};
ghost use Rattle.si_semantics.specs.Scope.{place_of};
ghost use Rattle.si_semantics.specs.Text.{module_name};
ghost use Rattle.si_semantics.specs.Value.{Function, Module};
ghost use Rattle.si_syntax.specs.Trees.{expr_of};
ghost use Rattle.si_slots.specs.Code.{assign_code, bind_code, unbind_code};
ghost use Rattle.si_slots.specs.Contents.{Extends, OperandResolves};
ghost use Rattle.si_slots.specs.Machine as machine;
ghost use Rattle.si_slots.specs.Views.{Gains, locals_now, operand_of, words_now};

use crate::expression::{emit_expr, emit_operand};
use si_plain::{ModuleName, Names, NoMemory};
use si_slots::{CodeTable, Constant, FullInstr, NamedInstr, Operand, Target};
use si_syntax::Expr;

/// A name is bound to an operand that speaks of no literal: one of the local names, or else it is global.
pub(crate) fn emit_bind(
    table: &mut CodeTable,
    locals: &Names,
    name: &str,
    operand: Operand<'_>,
) -> Result<(), NoMemory>
    requires { OperandResolves 0 operand }
    ensures ok { OnOk result (Gains table.old table.new (bind_code name.now (place_of name.now locals.now) (operand_of (words_now table.old) operand.entry) ∷ [])) }
    ensures extends { Extends table.old table.new }
{
    match locals.position(name) {
        Some(place) => table.put_named(NamedInstr::Copy(Target::Local(place), operand)),
        None => table.put_named(NamedInstr::StoreGlobal(name, operand)),
    }
}

// The name to which an import binds a module.
fn name_of(which: ModuleName) -> &'static str
    ensures { result.now ≡ module_name which }
{
    match which {
        ModuleName::Threading => "threading",
        ModuleName::Interpreters => "interpreters",
    }
}

/// The name of a module is bound to it.
pub(crate) fn emit_import(
    table: &mut CodeTable,
    locals: &Names,
    which: ModuleName,
) -> Result<(), NoMemory>
    ensures ok { OnOk result (Gains table.old table.new (bind_code (module_name which) (place_of (module_name which) locals.now) (machine.Literal (Module which)) ∷ [])) }
    ensures extends { Extends table.old table.new }
{
    emit_bind(
        table,
        locals,
        name_of(which),
        Operand::Literal(Constant::Module(which)),
    )
}

/// A name is bound to the function of that name and this number.
pub(crate) fn bind_function(
    table: &mut CodeTable,
    locals: &Names,
    name: &str,
    number: u32,
) -> Result<(), NoMemory>
    ensures ok { OnOk result (Gains table.old table.new (bind_code name.now (place_of name.now locals.now) (machine.Literal (Function name.now number)) ∷ [])) }
    ensures extends { Extends table.old table.new }
{
    match locals.position(name) {
        Some(place) => table.put_function(Target::Local(place), name, number),
        None => table.store_function(name, number),
    }
}

/// A name is bound to the value of an expression.
pub(crate) fn bind_value(
    table: &mut CodeTable,
    locals: &Names,
    name: &str,
    value: &Expr,
) -> Result<(), NoMemory>
    requires { locals_now table.old ≡ locals.now }
    ensures ok { OnOk result (Gains table.old table.new (assign_code locals.now name.now (place_of name.now locals.now) (expr_of value.now))) }
    ensures extends { Extends table.old table.new }
{
    match locals.position(name) {
        Some(place) => emit_expr(table, locals, 0, Target::Local(place), value),
        None => {
            let operand = emit_operand(table, locals, 0, true, value)?;
            table.put_named(NamedInstr::StoreGlobal(name, operand))
        }
    }
}

/// A name is unbound.
pub(crate) fn emit_unbind(table: &mut CodeTable, locals: &Names, name: &str) -> Result<(), NoMemory>
    ensures ok { OnOk result (Gains table.old table.new (unbind_code name.now (place_of name.now locals.now) ∷ [])) }
    ensures extends { Extends table.old table.new }
{
    match locals.position(name) {
        Some(place) => table.put(FullInstr::UnbindLocal(place)),
        None => table.put_unbind(name),
    }
}
