// The code of assignments, and of `del`.
ghost use Rattle.std.specs.Prelude.{◌≡◌, ◌+◌, ◌<◌, [], ◌∷◌, ◌++◌, length, map, IfSome, MatchOption, None, OnOk, Some};
ghost use Rattle.std.specs.Option.{option_map};
ghost use Rattle.si_semantics.specs.Grammar.{exprs_of};
ghost use Rattle.si_semantics.specs.Tree as tree;
ghost use Rattle.si_semantics.specs.Tree.{count_of_targets};
ghost use Rattle.si_syntax.specs.Trees.{expr_of, index_of, object_of, target_of, targets_of};
ghost use Rattle.si_slots.specs.Code.{assign_all_code, assign_target_code, delete_code, displayed, exprs_code, in_place, targets_code};
ghost use Rattle.si_slots.specs.Machine as machine;
ghost use Rattle.si_slots.specs.Contents.{Extends, NamedResolves};
ghost use Rattle.si_slots.specs.Views.{Gains, Words, locals_now, named_of};
ghost use Rattle.si_emit.specs.inner.Stores.{stored};

use crate::expression::{emit_expr, emit_exprs, emit_operand};
use crate::naming::bind_value;
use crate::operand::operand_in_place;
use crate::targets::{emit_item, emit_store, emit_target, emit_targets, emit_unpack};
use si_plain::{Names, NoMemory};
use si_slots::{CodeTable, FullInstr, NamedInstr, Source};
use si_syntax::{Assign, Expr, Item, Target};

/// Each of some targets is bound to the value of an expression.
pub(crate) fn emit_assign(
    table: &mut CodeTable,
    locals: &Names,
    statement: &Assign,
) -> Result<(), NoMemory>
    requires { locals_now table.old ≡ locals.now }
    ensures ok { OnOk result (Gains table.old table.new (assign_all_code locals.now (targets_of statement.now.targets.items) (expr_of statement.now.value))) }
    ensures extends { Extends table.old table.new }
{
    match last_of(&statement.targets) {
        Some((last, others)) => {
            if others.is_empty() {
                return assign_one(table, locals, last, &statement.value);
            }
            assign_each(table, locals, others, last, &statement.value)
        }
        None => emit_expr(
            table,
            locals,
            0,
            si_slots::Target::Nowhere,
            &statement.value,
        ),
    }
}

// The last of some targets, and those in front of it.
fn last_of(targets: &[Target]) -> Option<(&Target, &[Target])>
    ensures { MatchOption result (targets.now ≡ []) (λ row. targets.now ≡ row.1.now ++ row.0.now ∷ []) }
{
    let (last, others) = targets.split_last()?;
    Some((last, others))
}

// Two targets or more are bound to the value of an expression, from the left. It lies in the first temporary, of which each
// but the last gets a copy.
fn assign_each(
    table: &mut CodeTable,
    locals: &Names,
    others: &[Target],
    last: &Target,
    value: &Expr,
) -> Result<(), NoMemory>
    requires names { locals_now table.old ≡ locals.now }
    requires some { 0 < length others.now }
    ensures ok { OnOk result (Gains table.old table.new (assign_all_code locals.now (targets_of (others.now ++ last.now ∷ [])) (expr_of value.now))) }
    ensures extends { Extends table.old table.new }
{
    emit_expr(table, locals, 0, si_slots::Target::Temporary(0), value)?;
    for target in others {
        let copy = si_slots::Target::Temporary(1);
        table.put(FullInstr::Copy(copy, Source::Kept(0)))?;
        emit_target(table, locals, 1, target)?;
    }
    emit_target(table, locals, 0, last)
}

// One target is bound to the value of an expression.
fn assign_one(
    table: &mut CodeTable,
    locals: &Names,
    target: &Target,
    value: &Expr,
) -> Result<(), NoMemory>
    requires { locals_now table.old ≡ locals.now }
    ensures ok { OnOk result (Gains table.old table.new (assign_target_code locals.now (target_of target.now) (expr_of value.now))) }
    ensures extends { Extends table.old table.new }
{
    match target {
        Target::Named(name) => bind_value(table, locals, name.as_str(), value),
        Target::Item(item) => assign_item(table, locals, item, value),
        Target::Unpack(targets) => assign_row(table, locals, targets, value),
    }
}

// Targets in a row are bound to the items of an expression's value. Where that is a tuple's display with an item for each of
// them, no tuple is made.
fn assign_row(
    table: &mut CodeTable,
    locals: &Names,
    targets: &[Target],
    value: &Expr,
) -> Result<(), NoMemory>
    requires { locals_now table.old ≡ locals.now }
    ensures ok { OnOk result (Gains table.old table.new (assign_target_code locals.now (tree.Unpack (targets_of targets.now)) (expr_of value.now))) }
    ensures extends { Extends table.old table.new }
{
    match display_of(value, targets.len()) {
        Some(items) => assign_display(table, locals, targets, items),
        None => {
            let operand = emit_operand(table, locals, 0, true, value)?;
            emit_unpack(table, locals, operand, 0, targets)
        }
    }
}

// The items of a tuple's display, where there are so many.
fn display_of(value: &Expr, count: usize) -> Option<&[Expr]>
    ensures { MatchOption result (displayed count (expr_of value.now) ≡ None) (λ items. (displayed count (expr_of value.now) ≡ Some (exprs_of (map expr_of items.now))) × (length items.now ≡ count)) }
{
    match value {
        Expr::Tuple(items) => {
            if items.len() == count {
                Some(items)
            } else {
                None
            }
        }
        _ => None,
    }
}

// Targets in a row are bound to the values of as many expressions, which lie in temporaries by then, the first above the
// others.
fn assign_display(
    table: &mut CodeTable,
    locals: &Names,
    targets: &[Target],
    items: &[Expr],
) -> Result<(), NoMemory>
    requires names { locals_now table.old ≡ locals.now }
    requires count { length items.now ≡ length targets.now }
    ensures ok { let row = targets_of targets.now in
        OnOk result (Gains table.old table.new (exprs_code locals.now 0 (exprs_of (map expr_of items.now)) ++ (machine.Reverse 0 (count_of_targets row) ∷ targets_code locals.now 0 row))) }
    ensures extends { Extends table.old table.new }
{
    let count = emit_exprs(table, locals, 0, items)?;
    table.put(FullInstr::Reverse(0, count))?;
    emit_targets(table, locals, 0, count, targets)
}

// An item is set to the value of an expression: by one instruction, where the value, the object and the index need none.
fn assign_item(
    table: &mut CodeTable,
    locals: &Names,
    item: &Item,
    value: &Expr,
) -> Result<(), NoMemory>
    requires { locals_now table.old ≡ locals.now }
    ensures ok { OnOk result (Gains table.old table.new (assign_target_code locals.now (tree.Item (object_of item.now) (index_of item.now)) (expr_of value.now))) }
    ensures extends { Extends table.old table.new }
{
    match store_in_place(locals, item, value) {
        Some(instr) => table.put_named(instr),
        None => {
            emit_expr(table, locals, 0, si_slots::Target::Temporary(0), value)?;
            emit_store(table, locals, 0, item)
        }
    }
}

// The instruction that sets an item to the value of an expression, where the value, the object and the index need none.
fn store_in_place<'e>(locals: &Names, item: &'e Item, value: &'e Expr) -> Option<NamedInstr<'e>>
    ensures is { (w : Words) → w.locals ≡ locals.now → option_map (named_of w) result ≡ stored (in_place locals.now (expr_of value.now)) (in_place locals.now (object_of item.now)) (in_place locals.now (index_of item.now)) }
    ensures resolves { IfSome result (λ instr. NamedResolves 0 instr) }
{
    let operand = operand_in_place(locals, value)?;
    let object = operand_in_place(locals, &item.object)?;
    let index = operand_in_place(locals, &item.index)?;
    Some(NamedInstr::StoreItem(operand, object, index))
}

/// An item is deleted.
pub(crate) fn emit_delete(
    table: &mut CodeTable,
    locals: &Names,
    item: &Item,
) -> Result<(), NoMemory>
    requires { locals_now table.old ≡ locals.now }
    ensures ok { OnOk result (Gains table.old table.new (delete_code locals.now (object_of item.now) (index_of item.now))) }
    ensures extends { Extends table.old table.new }
{
    let (object, index) = emit_item(table, locals, 0, item)?;
    table.put_named(NamedInstr::DeleteItem(object, index))
}
