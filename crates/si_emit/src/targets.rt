// The code that binds targets to what lies in temporaries.
ghost use Rattle.std.specs.Prelude.{◌≡◌, ◌+◌, [], ◌∷◌, length, IfOk, OnOk};
ghost use Rattle.si_semantics.specs.Tree as tree;
ghost use Rattle.si_semantics.specs.Tree.{count_of_targets};
ghost use Rattle.si_syntax.specs.Trees.{index_of, object_of, target_of, targets_of};
ghost use Rattle.si_slots.specs.Code.{expr_code, in_place, pair_code, target_code, targets_code};
ghost use Rattle.si_slots.specs.Contents.{Contents, Extends, OperandResolves};
ghost use Rattle.si_slots.specs.Machine as machine;
ghost use Rattle.si_slots.specs.Views.{Gains, locals_now, operand_of, words_now};

use crate::expression::{emit_operand, next};
use crate::naming::emit_bind;
use crate::operand::lies_in_place;
use si_plain::{Names, NoMemory};
use si_slots::{CodeTable, NamedInstr, Operand};
use si_syntax::{Item, Target};
use std::alloc::AllocError;

/// A target is bound to what lies in the temporary `d`, the last one in use, from which it is taken.
#[cycle(targets)]
pub(crate) fn emit_target(
    table: &mut CodeTable,
    locals: &Names,
    d: u32,
    target: &Target,
) -> Result<(), NoMemory>
    requires { locals_now table.old ≡ locals.now }
    ensures ok { OnOk result (Gains table.old table.new (target_code locals.now d (target_of target.now))) }
    ensures extends { Extends table.old table.new }
{
    match target {
        Target::Named(name) => emit_bind(table, locals, name.as_str(), Operand::Temporary(d)),
        Target::Item(item) => emit_store(table, locals, d, item),
        Target::Unpack(targets) => emit_unpack(table, locals, Operand::Temporary(d), d, targets),
    }
}

/// Targets in a row are bound to the items of an operand that speaks of no literal, where the temporaries from `d` on are
/// free, or the first of them is the operand. The item of the first target lies above the others. Past 2^32 temporaries
/// memory counts as refused.
#[cycle(targets)]
pub(crate) fn emit_unpack(
    table: &mut CodeTable,
    locals: &Names,
    operand: Operand<'_>,
    d: u32,
    targets: &[Target],
) -> Result<(), NoMemory>
    requires names { locals_now table.old ≡ locals.now }
    requires there { OperandResolves 0 operand }
    ensures ok { let row = targets_of targets.now in
        OnOk result (Gains table.old table.new (machine.Unpack (operand_of (words_now table.old) operand.entry) d (count_of_targets row) ∷ targets_code locals.now d row)) }
    ensures extends { Extends table.old table.new }
{
    let count = u32::try_from(targets.len()).map_err(|_| AllocError)?;
    table.put_named(NamedInstr::Unpack(operand, d, count))?;
    emit_targets(table, locals, d, count, targets)
}

/// Targets in a row, so many, are bound to what lies in as many temporaries from `d` on, the last ones in use, from which it
/// is taken: the first target to the topmost. Past 2^32 temporaries memory counts as refused.
#[cycle(targets)]
pub(crate) fn emit_targets(
    table: &mut CodeTable,
    locals: &Names,
    d: u32,
    count: u32,
    targets: &[Target],
) -> Result<(), NoMemory>
    requires names { locals_now table.old ≡ locals.now }
    requires count { count ≡ length targets.now }
    ensures ok { OnOk result (Gains table.old table.new (targets_code locals.now d (targets_of targets.now))) }
    ensures extends { Extends table.old table.new }
{
    let mut at = above(d, count)?;
    for target in targets {
        at -= 1;
        emit_target(table, locals, at, target)?;
    }
    Ok(())
}

// The temporary so many above another one.
fn above(d: u32, count: u32) -> Result<u32, NoMemory>
    ensures { IfOk result (λ at. at ≡ d + count) }
{
    d.checked_add(count).ok_or(AllocError)
}

/// An item is set to what lies in the temporary `d`, the last one in use, from which it is taken.
pub(crate) fn emit_store(
    table: &mut CodeTable,
    locals: &Names,
    d: u32,
    item: &Item,
) -> Result<(), NoMemory>
    requires { locals_now table.old ≡ locals.now }
    ensures ok { OnOk result (Gains table.old table.new (target_code locals.now d (tree.Item (object_of item.now) (index_of item.now)))) }
    ensures extends { Extends table.old table.new }
{
    let above = next(d)?;
    let (object, index) = emit_item(table, locals, above, item)?;
    table.put_named(NamedInstr::StoreItem(Operand::Temporary(d), object, index))
}

/// The operands of an item: its object and its index, where the temporaries from `d` on are free. With an instruction of
/// both it is the code of that instruction.
pub(crate) fn emit_item<'e>(
    table: &mut CodeTable,
    locals: &Names,
    d: u32,
    item: &'e Item,
) -> Result<(Operand<'e>, Operand<'e>), NoMemory>
    requires { locals_now table.old ≡ locals.now }
    ensures ok { let a = object_of item.now in let b = index_of item.now in
        IfOk result (λ pair. (i : machine.Source → machine.Source → machine.Instr) (end : Contents) → Gains table.new end (i (operand_of (words_now table.new) pair.0) (operand_of (words_now table.new) pair.1) ∷ [])
        → Gains table.old end (pair_code (in_place locals.now a) (in_place locals.now b) (expr_code locals.now d (machine.ToTemporary d) a) (expr_code locals.now (d + 1) (machine.ToTemporary (d + 1)) b) d i)) }
    ensures object { IfOk result (λ pair. OperandResolves 0 pair.0) }
    ensures index { IfOk result (λ pair. OperandResolves 0 pair.1) }
    ensures extends { Extends table.old table.new }
{
    let above = next(d)?;
    let stays = lies_in_place(locals, &item.index);
    let object = emit_operand(table, locals, d, stays, &item.object)?;
    let index = emit_operand(table, locals, above, true, &item.index)?;
    Ok((object, index))
}
