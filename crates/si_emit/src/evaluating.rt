// The code of an expression as a statement.
ghost use Rattle.std.specs.Prelude.{◌≡◌, ◌≢◌, List, [], ◌∷◌, None, length, map, true, string_bytes, IfSome, MatchOption, OnOk};
ghost use Rattle.std.specs.Option.{option_map};
ghost use Rattle.si_semantics.specs.Attributes as attributes;
ghost use Rattle.si_semantics.specs.Attributes.{method_name};
ghost use Rattle.si_semantics.specs.Text.{same_text};
ghost use Rattle.si_semantics.specs.Value.{Text};
ghost use Rattle.si_syntax.specs.Trees.{expr_of};
ghost use Rattle.si_slots.specs.Code.{append_in_place, append_instr, evaluate_code, expr_code, in_place};
ghost use Rattle.si_slots.specs.Contents.{Extends, NamedResolves};
ghost use Rattle.si_slots.specs.Machine as machine;
ghost use Rattle.si_slots.specs.Views.{Gains, Words, locals_now, named_of};
ghost use Rattle.si_emit.specs.inner.Stores.{names_append};

use crate::expression::emit_expr;
use crate::operand::operand_in_place;
use si_plain::{Names, NoMemory};
use si_slots::{CodeTable, NamedInstr, Target};
use si_syntax::{CallNames, Expr};

/// The value of an expression goes nowhere. In front of a call of the method `append`, of an operand in place with another,
/// stands the instruction that puts an item at the end of a list.
pub(crate) fn emit_evaluate(
    table: &mut CodeTable,
    locals: &Names,
    expr: &Expr,
) -> Result<(), NoMemory>
    requires { locals_now table.old ≡ locals.now }
    ensures ok { let a = expr_of expr.now in
        OnOk result (Gains table.old table.new (evaluate_code (append_in_place locals.now a) (expr_code locals.now 0 machine.ToNowhere a))) }
    ensures extends { Extends table.old table.new }
{
    match append_of(locals, expr) {
        Some(instr) => {
            table.put_named(instr)?;
            emit_expr(table, locals, 0, Target::Nowhere, expr)
        }
        None => emit_expr(table, locals, 0, Target::Nowhere, expr),
    }
}

// The instruction that puts an item at the end of a list, where the method `append` is called of an operand in place with
// another.
fn append_of<'e>(locals: &Names, expr: &'e Expr) -> Option<NamedInstr<'e>>
    ensures is { (w : Words) → w.locals ≡ locals.now → option_map (named_of w) result ≡ append_in_place locals.now (expr_of expr.now) }
    ensures resolves { IfSome result (λ instr. NamedResolves 0 instr) }
{
    let (object, item) = appended(expr)?;
    let list = operand_in_place(locals, object)?;
    let operand = operand_in_place(locals, item)?;
    Some(NamedInstr::Append(list, operand))
}

// The object of which the method `append` is called with one argument, and that.
fn appended(expr: &Expr) -> Option<(&Expr, &Expr)>
    ensures { MatchOption result ((ls : List Text) → append_in_place ls (expr_of expr.now) ≡ None) (λ row. (ls : List Text) → append_in_place ls (expr_of expr.now) ≡ append_instr true (in_place ls (expr_of row.0.now)) (in_place ls (expr_of row.1.now))) }
{
    match expr {
        Expr::Call(object, names, arguments) => {
            if !is_append(names) {
                return None;
            }
            let item = only(arguments)?;
            Some((object, item))
        }
        _ => None,
    }
}

// Whether the method `append` is called, and no argument is passed by its name.
fn is_append(names: &CallNames) -> bool
    ensures { result ≡ names_append (option_map string_bytes names.now.attribute) (map string_bytes names.now.arguments.items) }
{
    if !names.arguments.is_empty() {
        return false;
    }
    match &names.attribute {
        Some(name) => is_named_append(name.as_str()),
        None => false,
    }
}

// Whether a name is that of the method `append`.
fn is_named_append(name: &str) -> bool
    ensures { result ≡ same_text name.now (method_name attributes.Append) }
{
    name == "append"
}

// The one argument of a call that has no other.
fn only(arguments: &[Expr]) -> Option<&Expr>
    ensures { MatchOption result (length arguments.now ≢ 1) (λ item. arguments.now ≡ item.now ∷ []) }
{
    let (item, more) = arguments.split_first()?;
    if more.is_empty() { Some(item) } else { None }
}
