// The names that expressions use.
ghost use Rattle.std.specs.Prelude.{◌≡◌, OnOk, map};
ghost use Rattle.si_semantics.specs.Grammar.{exprs_of, chain_of};
ghost use Rattle.si_semantics.specs.Scope.{names_of, names_of_all, names_of_chain};
ghost use Rattle.si_syntax.specs.Trees.{expr_of, link_of};
ghost use Rattle.si_scope.specs.inner.Walk.{with_names};

use si_plain::{ComparisonOperator, Names, NoMemory};
use si_syntax::Expr;

// With the names that an expression uses.
#[cycle(expression)]
pub(crate) fn use_names(expr: &Expr, used: &mut Names) -> Result<(), NoMemory>
    ensures { OnOk result (used.new ≡ with_names used.old (names_of (expr_of expr.now))) }
{
    match expr {
        Expr::Name(name) => {
            used.slot_of(name.as_str())?;
            Ok(())
        }
        Expr::Int(_) | Expr::Nothing | Expr::Truth(_) | Expr::Str(_) | Expr::Bytes(_) => Ok(()),
        Expr::Unary(_, operand) => use_names(operand, used),
        Expr::Binary(_, left, right) => {
            use_names(left, used)?;
            use_names(right, used)
        }
        Expr::Attribute(object, _) => use_names(object, used),
        Expr::Call(callee, _, arguments) => {
            use_names(callee, used)?;
            use_all(arguments, used)
        }
        Expr::Subscript(object, index) => {
            use_names(object, used)?;
            use_names(index, used)
        }
        Expr::Tuple(items) => use_all(items, used),
        Expr::ListDisplay(items) => use_all(items, used),
        Expr::DictDisplay(items) => use_all(items, used),
        Expr::Boolean(_, first, others) => {
            use_names(first, used)?;
            use_all(others, used)
        }
        Expr::Compare(first, links) => {
            use_names(first, used)?;
            use_chain(links, used)
        }
        Expr::Conditional(test, value, other) => {
            use_names(test, used)?;
            use_names(value, used)?;
            use_names(other, used)
        }
    }
}

// With those of expressions in a row.
#[cycle(expression)]
fn use_all(exprs: &[Expr], used: &mut Names) -> Result<(), NoMemory>
    ensures { OnOk result (used.new ≡ with_names used.old (names_of_all (exprs_of (map expr_of exprs.now)))) }
{
    for expr in exprs {
        use_names(expr, used)?;
    }
    Ok(())
}

// With those of the operands of a chain of comparisons after the first.
#[cycle(expression)]
fn use_chain(links: &[(ComparisonOperator, Expr)], used: &mut Names) -> Result<(), NoMemory>
    ensures { OnOk result (used.new ≡ with_names used.old (names_of_chain (chain_of (map link_of links.now)))) }
{
    for (_, operand) in links {
        use_names(operand, used)?;
    }
    Ok(())
}
