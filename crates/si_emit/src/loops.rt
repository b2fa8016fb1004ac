// The parts of the code of loops, before and after their suites. The start of a loop is told by `CodeTable::aim_loop` where
// it leads, once all of it is there.
ghost use Rattle.std.specs.Prelude.{◌≡◌, ◌+◌, ◌-◌, ◌≤◌, [], ◌∷◌, ◌++◌, length, IfOk, OnOk};
ghost use Rattle.si_semantics.specs.Scope.{place_of};
ghost use Rattle.si_syntax.specs.Trees.{expr_of, target_of as tree_target};
ghost use Rattle.si_slots.specs.Code.{condition_code, item_code, item_of_name, item_target, name_bound_code, with_code};
ghost use Rattle.si_slots.specs.Contents.{Extends};
ghost use Rattle.si_slots.specs.Machine as machine;
ghost use Rattle.si_slots.specs.Views.{Gains, locals_now, target_of};
ghost use Rattle.si_emit.specs.inner.Turns.{turn_code};

use crate::condition::emit_repeat;
use crate::expression::emit_operand;
use crate::targets::{emit_store, emit_unpack};
use si_plain::{Names, NoMemory};
use si_slots::{CodeTable, FullInstr, NamedInstr, Operand, Target};
use si_syntax::Expr;
use std::alloc::AllocError;

/// What follows the suite of a `while` that begins at a place: the test, which leads back there where it is true, and the
/// end of the loop's block. It is noted as code of the loop's statement, by its number.
pub(crate) fn emit_turn(
    table: &mut CodeTable,
    locals: &Names,
    number: u32,
    body: usize,
    test: &Expr,
) -> Result<(), NoMemory>
    requires names { locals_now table.old ≡ locals.now }
    requires there { body ≤ length table.old.lines }
    ensures ok { OnOk result (Gains table.old table.new (turn_code (condition_code locals.now (expr_of test.now)) (length table.old.lines - body))) }
    ensures extends { Extends table.old table.new }
{
    table.note_again(number)?;
    let at = emit_repeat(table, locals, test)?;
    table.aim_back(at, body)?;
    table.put(FullInstr::LeaveBlock)
}

/// What stands in front of the suite of a `for`: what it goes over, its entry, which isn't told yet where it leads, and the
/// binding of its target, where that is no local name. Says where the entry is.
pub(crate) fn emit_entry(
    table: &mut CodeTable,
    locals: &Names,
    target: &si_syntax::Target,
    items: &Expr,
) -> Result<usize, NoMemory>
    requires { locals_now table.old ≡ locals.now }
    ensures ok { OnOk result (Gains table.old table.new (with_code locals.now (expr_of items.now) (λ s. machine.StartFor 0 0 s) ++ item_code locals.now (tree_target target.now))) }
    ensures at { IfOk result (λ at. at + 1 ≡ length table.old.lines + length (with_code locals.now (expr_of items.now) (λ s. machine.StartFor 0 0 s))) }
    ensures extends { Extends table.old table.new }
{
    let operand = emit_operand(table, locals, 0, true, items)?;
    let at = table.len();
    table.put_named(NamedInstr::StartFor(0, 0, operand))?;
    emit_bound(table, locals, target)?;
    Ok(at)
}

// The target of a `for` is bound to its item, which lies in the first temporary.
fn emit_bound(
    table: &mut CodeTable,
    locals: &Names,
    target: &si_syntax::Target,
) -> Result<(), NoMemory>
    requires { locals_now table.old ≡ locals.now }
    ensures ok { OnOk result (Gains table.old table.new (item_code locals.now (tree_target target.now))) }
    ensures extends { Extends table.old table.new }
{
    match target {
        si_syntax::Target::Named(name) => bind_item(table, locals, name.as_str()),
        si_syntax::Target::Item(item) => emit_store(table, locals, 0, item),
        si_syntax::Target::Unpack(targets) => {
            emit_unpack(table, locals, Operand::Temporary(0), 0, targets)
        }
    }
}

// The same of a name. A local one has the item already.
fn bind_item(table: &mut CodeTable, locals: &Names, name: &str) -> Result<(), NoMemory>
    ensures ok { OnOk result (Gains table.old table.new (name_bound_code name.now (place_of name.now locals.now))) }
    ensures extends { Extends table.old table.new }
{
    match locals.position(name) {
        Some(_) => Ok(()),
        None => table.put_named(NamedInstr::StoreGlobal(name, Operand::Temporary(0))),
    }
}

/// What follows the suite of a `for` whose entry is at a place: its next item, which leads back to after that. It is noted
/// as code of the loop's statement, by its number. A loop of 2^32 instructions or more counts as memory refused.
pub(crate) fn emit_next(
    table: &mut CodeTable,
    locals: &Names,
    number: u32,
    target: &si_syntax::Target,
    entry: usize,
) -> Result<(), NoMemory>
    ensures ok { OnOk result (Gains table.old table.new (machine.NextItem (item_target locals.now (tree_target target.now)) (length table.old.lines - entry) ∷ [])) }
    ensures extends { Extends table.old table.new }
{
    table.note_again(number)?;
    let lines = table.len().saturating_sub(entry);
    let back = u32::try_from(lines).map_err(|_| AllocError)?;
    table.put(FullInstr::NextItem(place_of_item(locals, target), back))
}

// Where the item of a `for` goes.
fn place_of_item(locals: &Names, target: &si_syntax::Target) -> Target
    ensures { target_of result ≡ item_target locals.now (tree_target target.now) }
{
    match target {
        si_syntax::Target::Named(name) => place_of_name(locals, name.as_str()),
        si_syntax::Target::Item(_) => Target::Temporary(0),
        si_syntax::Target::Unpack(_) => Target::Temporary(0),
    }
}

// The same of a name.
fn place_of_name(locals: &Names, name: &str) -> Target
    ensures { target_of result ≡ item_of_name (place_of name.now locals.now) }
{
    match locals.position(name) {
        Some(place) => Target::Local(place),
        None => Target::Temporary(0),
    }
}
