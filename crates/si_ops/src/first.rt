// The names that are there from the first.

ghost use Rattle.std.specs.Prelude.{◌≡◌, ℕ, codes, Some, map, option_map};
ghost use Rattle.si_plain.specs.Characters.{characters_of};
ghost use Rattle.si_semantics.specs.Operations as operations;
ghost use Rattle.si_semantics.specs.World.{first_world};
ghost use Rattle.si_semantics.specs.Text.{same_text};
ghost use Rattle.si_semantics.specs.Value.{Str};
ghost use Rattle.si_arena.specs.Memory.{Memory, built_in_of, bound_of, Holds};

use crate::atoms::built_in_name;
use si_arena::{BuiltIn, Ref, Short};
use si_plain::Kind;

/// The value of a built-in name (Python Language Reference 3.14, 4.2.2): `Unbound` where there is none.
pub fn built_in(name: &str) -> Ref
    ensures value { (m : Memory) → bound_of m result ≡ operations.built_in (characters_of name.now) }
    ensures holds { (m : Memory) → Holds m result }
{
    if let Some(function) = built_in_named(name, &built_ins()) {
        return Ref::BuiltIn([], function);
    }
    match kind_named(name, &built_in_kinds()) {
        Some(kind) => Ref::Kind([], kind),
        None => Ref::Unbound,
    }
}

/// What is bound to a global name before a script binds it (Python Language Reference 3.14, 9.1): `__name__` alone is.
pub fn first_global(name: &str) -> Ref
    ensures value { (m : Memory) (own : ℕ) → bound_of m result ≡ (first_world own).globals (characters_of name.now) }
    ensures holds { (m : Memory) → Holds m result }
{
    if is_spelled(name, "__name__") {
        main_name()
    } else {
        Ref::Unbound
    }
}

// The value of `__name__` in the module that is run.
fn main_name() -> Ref
    ensures value { (m : Memory) → bound_of m result ≡ Some (Str (codes "__main__")) }
    ensures holds { (m : Memory) → Holds m result }
{
    let mut name = Short::new();
    name.append(b"__main__");
    Ref::Short(name)
}

// The built-in of a name among these.
fn built_in_named(name: &str, functions: &[BuiltIn]) -> Option<BuiltIn>
    ensures { option_map built_in_of result ≡ operations.built_in_named (characters_of name.now) (map built_in_of functions.now) }
{
    for function in functions {
        if is_spelled(name, built_in_name(*function)) {
            return Some(*function);
        }
    }
    None
}

// The kind of a name among these.
fn kind_named(name: &str, kinds: &[Kind]) -> Option<Kind>
    ensures { result ≡ operations.kind_named (characters_of name.now) kinds.now }
{
    for kind in kinds {
        if is_spelled(name, kind.name()) {
            return Some(*kind);
        }
    }
    None
}

// Whether a name has these characters.
fn is_spelled(name: &str, word: &str) -> bool
    ensures { result ≡ same_text (characters_of name.now) (characters_of word.now) }
{
    name == word
}

// The built-ins that are no kinds (Python Standard Library 3.14, "Built-in Functions").
fn built_ins() -> [BuiltIn; 15]
    ensures { map built_in_of result ≡ operations.built_ins }
{
    [
        BuiltIn::Print,
        BuiltIn::Range,
        BuiltIn::Str,
        BuiltIn::Repr,
        BuiltIn::Len,
        BuiltIn::Bool,
        BuiltIn::Abs,
        BuiltIn::Int,
        BuiltIn::Ord,
        BuiltIn::Chr,
        BuiltIn::Min,
        BuiltIn::Max,
        BuiltIn::Bytes,
        BuiltIn::Tuple,
        BuiltIn::List,
    ]
}

// The kinds that have built-in names (Python Standard Library 3.14, "Built-in Exceptions").
fn built_in_kinds() -> [Kind; 16]
    ensures { result ≡ operations.built_in_kinds }
{
    [
        Kind::BaseException,
        Kind::Exception,
        Kind::ArithmeticError,
        Kind::OverflowError,
        Kind::ZeroDivisionError,
        Kind::AttributeError,
        Kind::LookupError,
        Kind::IndexError,
        Kind::KeyError,
        Kind::NameError,
        Kind::UnboundLocalError,
        Kind::RuntimeError,
        Kind::RecursionError,
        Kind::SyntaxError,
        Kind::TypeError,
        Kind::ValueError,
    ]
}
