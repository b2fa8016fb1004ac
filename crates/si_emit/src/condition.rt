// The code of the tests of statements. An operand of `and` or `or` that decides one leads on at once.
ghost use Rattle.std.specs.Prelude.{◌≡◌, ◌+◌, ◌≤◌, ℕ, List, [], ◌∷◌, ◌++◌, false, true, map, length, IfOk, MatchOption, OnOk};
ghost use Rattle.std.specs.List.{AllByRecursion};
ghost use Rattle.si_semantics.specs.Grammar.{exprs_of};
ghost use Rattle.si_semantics.specs.Tree as tree;
ghost use Rattle.si_syntax.specs.Trees.{expr_of};
ghost use Rattle.si_slots.specs.Code.{condition_code, row_code};
ghost use Rattle.si_slots.specs.Contents.{Contents, Extends};
ghost use Rattle.si_slots.specs.Machine as machine;
ghost use Rattle.si_slots.specs.Views.{Gains, locals_now};
ghost use Rattle.si_slots.specs.inner.Jumps.{Due};
ghost use Rattle.si_emit.specs.inner.Conditions.{Opens, is_row, skipping};

use crate::expression::emit_test;
use si_plain::{BooleanOperator, Names, NoMemory};
use si_slots::CodeTable;
use si_syntax::Expr;

/// The test of an `if`: where it isn't true it leads past what comes next. Says where the jumps are that are to be aimed
/// there.
pub(crate) fn emit_skip(
    table: &mut CodeTable,
    locals: &Names,
    expr: &Expr,
) -> Result<Vec<usize>, NoMemory>
    requires { locals_now table.old ≡ locals.now }
    ensures ok { IfOk result (λ jumps. Opens table.old jumps.items (λ rest. skipping locals.now (expr_of expr.now) rest) table.new) }
    ensures after { IfOk result (λ jumps. AllByRecursion (λ at. length table.old.lines ≤ at) jumps.items) }
    ensures extends { Extends table.old table.new }
{
    match row_of(expr) {
        Some((BooleanOperator::And, first, others)) => {
            let (mut jumps, last) = emit_row(table, locals, false, false, first, others)?;
            jumps.push(last)?;
            Ok(jumps)
        }
        Some((BooleanOperator::Or, first, others)) => {
            let (ends, last) = emit_row(table, locals, true, false, first, others)?;
            table.aim_all(&ends)?;
            only(table, last)
        }
        None => {
            let at = emit_test(table, locals, 0, false, expr)?;
            only(table, at)
        }
    }
}

/// The test of a `while`, which leads back where it is true, by its last instruction. That isn't aimed yet: it leads no
/// further than what follows. Says where it is.
pub(crate) fn emit_repeat(
    table: &mut CodeTable,
    locals: &Names,
    expr: &Expr,
) -> Result<usize, NoMemory>
    requires { locals_now table.old ≡ locals.now }
    ensures ok { OnOk result (Gains table.old table.new (condition_code locals.now (expr_of expr.now) (machine.ToJump true (machine.Ahead 0)))) }
    ensures at { IfOk result (λ at. at + 1 ≡ length table.new.lines) }
    ensures extends { Extends table.old table.new }
{
    match row_of(expr) {
        Some((BooleanOperator::And, first, others)) => {
            let (ends, last) = emit_row(table, locals, false, true, first, others)?;
            table.aim_all(&ends)?;
            Ok(last)
        }
        Some((BooleanOperator::Or, _, _)) => emit_test(table, locals, 0, true, expr),
        None => emit_test(table, locals, 0, true, expr),
    }
}

// The operator, the first operand and the others, where an expression is an `and` or an `or`.
fn row_of(expr: &Expr) -> Option<(BooleanOperator, &Expr, &[Expr])>
    ensures { MatchOption result (is_row (expr_of expr.now) ≡ false) (λ row. expr_of expr.now ≡ tree.Boolean row.0 (expr_of row.1.now) (exprs_of (map expr_of row.2.now))) }
{
    match expr {
        Expr::Boolean(operator, first, others) => Some((*operator, &**first, others.as_slice())),
        Expr::Name(_) => None,
        Expr::Int(_) => None,
        Expr::Nothing => None,
        Expr::Truth(_) => None,
        Expr::Str(_) => None,
        Expr::Bytes(_) => None,
        Expr::Unary(_, _) => None,
        Expr::Binary(_, _, _) => None,
        Expr::Attribute(_, _) => None,
        Expr::Call(_, _, _) => None,
        Expr::Subscript(_, _) => None,
        Expr::Tuple(_) => None,
        Expr::ListDisplay(_) => None,
        Expr::DictDisplay(_) => None,
        Expr::Compare(_, _) => None,
        Expr::Conditional(_, _, _) => None,
    }
}

// A list of one place.
fn only(table: &CodeTable, at: usize) -> Result<Vec<usize>, NoMemory>
    ensures { IfOk result (λ places. places.items ≡ at ∷ []) }
{
    let mut places = Vec::new(table.allocator());
    places.push(at)?;
    Ok(places)
}

// The operands of `and` or `or` as a test: each but the last jumps where its truth is `soon`, and the last where it is
// `when`. Says where the jumps of those are, and that of the last, which is the last instruction. None is aimed yet: the
// first ones lead to the end, or all of them past what comes next.
fn emit_row(
    table: &mut CodeTable,
    locals: &Names,
    soon: bool,
    when: bool,
    first: &Expr,
    others: &[Expr],
) -> Result<(Vec<usize>, usize), NoMemory>
    requires { locals_now table.old ≡ locals.now }
    ensures past { IfOk result (λ row. (early : ℕ → machine.Target) (end : Contents) (rest : List machine.Instr) → ((k : ℕ) → early k ≡ machine.ToJump soon (machine.Ahead (k + length rest))) → Gains table.new end rest
        → Due table.old (row.0.items ++ row.1 ∷ []) (row_code locals.now early (machine.ToJump when (machine.Ahead (length rest))) (expr_of first.now) (exprs_of (map expr_of others.now)) ++ rest) end) }
    ensures within { IfOk result (λ row. (early : ℕ → machine.Target) → ((k : ℕ) → early k ≡ machine.ToJump soon (machine.Ahead k))
        → Due table.old row.0.items (row_code locals.now early (machine.ToJump when (machine.Ahead 0)) (expr_of first.now) (exprs_of (map expr_of others.now))) table.new) }
    ensures at { IfOk result (λ row. row.1 + 1 ≡ length table.new.lines) }
    ensures after { IfOk result (λ row. AllByRecursion (λ at. length table.old.lines ≤ at) (row.0.items ++ row.1 ∷ [])) }
    ensures extends { Extends table.old table.new }
{
    let mut jumps = Vec::new(table.allocator());
    let mut operand = first;
    for other in others {
        let at = emit_test(table, locals, 0, soon, operand)?;
        jumps.push(at)?;
        operand = other;
    }
    let last = emit_test(table, locals, 0, when, operand)?;
    Ok((jumps, last))
}
