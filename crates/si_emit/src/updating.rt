// The code of augmented assignments.
ghost use Rattle.std.specs.Prelude.{◌≡◌, OnOk, IfOk, string_bytes};
ghost use Rattle.si_semantics.specs.Scope.{place_of};
ghost use Rattle.si_semantics.specs.Tree as tree;
ghost use Rattle.si_syntax.specs.Trees.{expr_of, index_of, object_of};
ghost use Rattle.si_slots.specs.Code.{augment_code, augment_instr, augment_item_code, augmented_code, expr_code, in_place};
ghost use Rattle.si_slots.specs.Contents.{Extends, NamedResolves, OperandResolves};
ghost use Rattle.si_slots.specs.Machine as machine;
ghost use Rattle.si_slots.specs.Views.{Gains, Words, locals_now, named_of, operand_of, target_of};
ghost use Rattle.si_emit.specs.inner.Fronts.{front, held, kept};

use crate::expression::{emit_expr, emit_name, emit_operand};
use crate::operand::{lies_in_place, name_operand};
use si_plain::{BinaryOperator, Names, NoMemory};
use si_slots::{CodeTable, FullInstr, NamedInstr, Operand, Source, Target};
use si_syntax::{Augment, AugmentItem, Expr};

/// A name is bound to what an operator gives for its value and that of an expression: one of the local names, or else it
/// is global.
pub(crate) fn emit_augment(
    table: &mut CodeTable,
    locals: &Names,
    statement: &Augment,
) -> Result<(), NoMemory>
    requires { locals_now table.old ≡ locals.now }
    ensures ok { let x = string_bytes statement.now.name in
        OnOk result (Gains table.old table.new (augment_code locals.now x (place_of x locals.now) statement.now.operator (expr_of statement.now.value))) }
    ensures extends { Extends table.old table.new }
{
    let name = statement.name.as_str();
    match locals.position(name) {
        Some(place) => emit_update(table, locals, Target::Local(place), statement),
        None => {
            emit_update(table, locals, Target::Temporary(0), statement)?;
            table.put_named(NamedInstr::StoreGlobal(name, Operand::Temporary(0)))
        }
    }
}

// What an operator gives for the value of a name and that of an expression goes to a target.
fn emit_update(
    table: &mut CodeTable,
    locals: &Names,
    target: Target,
    statement: &Augment,
) -> Result<(), NoMemory>
    requires { locals_now table.old ≡ locals.now }
    ensures ok { OnOk result (Gains table.old table.new (augmented_code locals.now (target_of target) (string_bytes statement.now.name) statement.now.operator (expr_of statement.now.value))) }
    ensures extends { Extends table.old table.new }
{
    let stays = lies_in_place(locals, &statement.value);
    let a = operand_of_name(table, locals, stays, statement.name.as_str())?;
    let b = emit_operand(table, locals, 1, true, &statement.value)?;
    table.put_named(augmented(statement.operator, target, a, b))
}

// The operand of a name: where it stays it needs no instruction; else its value goes to the first temporary. Says where
// it lies.
fn operand_of_name<'e>(
    table: &mut CodeTable,
    locals: &Names,
    stays: bool,
    name: &'e str,
) -> Result<Operand<'e>, NoMemory>
    requires { locals_now table.old ≡ locals.now }
    ensures ok { OnOk result (Gains table.old table.new (front (kept stays (in_place locals.now (tree.Name name.now))) (expr_code locals.now 0 (machine.ToTemporary 0) (tree.Name name.now)))) }
    ensures is { IfOk result (λ operand. (w : Words) → w.locals ≡ locals.now → operand_of w operand ≡ held (kept stays (in_place locals.now (tree.Name name.now))) 0) }
    ensures resolves { IfOk result (λ operand. OperandResolves 0 operand) }
    ensures extends { Extends table.old table.new }
{
    if stays {
        return Ok(name_operand(locals, name));
    }
    emit_name(table, locals, Target::Temporary(0), name)?;
    Ok(Operand::Temporary(0))
}

// The instruction of an operator in an augmented assignment: no other than `+=` changes what lies at the left.
fn augmented<'e>(
    operator: BinaryOperator,
    target: Target,
    a: Operand<'e>,
    b: Operand<'e>,
) -> NamedInstr<'e>
    requires left { OperandResolves 0 a }
    requires right { OperandResolves 0 b }
    ensures is { (w : Words) → named_of w result ≡ augment_instr operator (target_of target) (operand_of w a.entry) (operand_of w b.entry) }
    ensures resolves { NamedResolves 0 result }
{
    match operator {
        BinaryOperator::Add => NamedInstr::AddInPlace(target, a, b),
        _ => NamedInstr::Binary(operator, target, a, b),
    }
}

/// An item is set to what an operator gives for it and the value of an expression. Its object and its index are evaluated
/// once: they stay in the first two temporaries.
pub(crate) fn emit_augment_item(
    table: &mut CodeTable,
    locals: &Names,
    statement: &AugmentItem,
) -> Result<(), NoMemory>
    requires { locals_now table.old ≡ locals.now }
    ensures ok { OnOk result (Gains table.old table.new (augment_item_code locals.now (object_of statement.now.item) (index_of statement.now.item) statement.now.operator (expr_of statement.now.value))) }
    ensures extends { Extends table.old table.new }
{
    let item = &statement.item;
    emit_expr(table, locals, 0, Target::Temporary(0), &item.object)?;
    emit_expr(table, locals, 1, Target::Temporary(1), &item.index)?;
    table.put(FullInstr::Subscript(Target::Temporary(2), Source::Kept(0), Source::Kept(1)))?;
    let operand = emit_operand(table, locals, 3, true, &statement.value)?;
    table.put_named(augmented(
        statement.operator,
        Target::Temporary(2),
        Operand::Temporary(2),
        operand,
    ))?;
    table.put(FullInstr::StoreItem(
        Source::Temporary(2),
        Source::Temporary(0),
        Source::Temporary(1),
    ))
}
