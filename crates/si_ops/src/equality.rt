// Which values are equal.

ghost use Rattle.std.specs.Prelude.{◌≡◌, ◌<◌, length};
ghost use Rattle.si_semantics.specs.World.{World};
ghost use Rattle.si_semantics.specs.Value.{Address};
ghost use Rattle.si_semantics.specs.Operations as operations;
ghost use Rattle.si_semantics.specs.Operations.{Compared};
ghost use Rattle.si_arena.specs.Memory.{Memory, value_of, all_of, built_in_of, dict_at, pairs_of, Lies, AllLie, IsDictAt, PairsLie};
ghost use Rattle.si_arena.specs.Views.{value_in};
ghost use Rattle.si_ops.specs.Runs.{decided};
ghost use Rattle.si_ops.specs.inner.Equal.{compared_at, AreBare};

use crate::characters::are_same;
use crate::held::{Held, held_at};
use crate::ranges::is_same_range;
use crate::refusal::Refusal;
use crate::truth::int_of_truth;
use si_arena::{Arena, BuiltIn, Characters, Contents, Dict, Ref, View};
use si_plain::ModuleName;
use si_plain::limits::MAX_NESTED;

/// `x == y` (Python Language Reference 3.14, 6.10.1). Two functions have no answer, nor have tuples, lists and dicts that
/// are more than 200 within each other. It takes no memory.
pub fn are_equal(arena: &Arena, x: Ref, y: Ref) -> Result<bool, Refusal>
    requires x { Lies arena.now x }
    requires y { Lies arena.now y }
    ensures { (w : World) → w.store ≡ arena.now.store → operations.are_equal (value_of arena.now x) (value_of arena.now y) w ≡ decided result }
{
    match (x, y) {
        (Ref::Short(a), Ref::Short(b)) => Ok(are_same(
            Characters::Narrow(a.as_slice()),
            Characters::Narrow(b.as_slice()),
        )),
        _ => are_equal_within(arena, x, y, MAX_NESTED),
    }
}

// The same, where tuples, lists and dicts are within each other at most so deep.
#[cycle(equal)]
fn are_equal_within(arena: &Arena, x: Ref, y: Ref, depth: usize) -> Result<bool, Refusal>
    requires x { Lies arena.now x }
    requires y { Lies arena.now y }
    ensures { (w : World) → w.store ≡ arena.now.store → operations.equal_within depth (value_of arena.now x) (value_of arena.now y) w ≡ decided result }
{
    match arena.view(&x) {
        View::Tuple(xs) => match arena.view(&y) {
            View::Tuple(ys) => are_items_equal(arena, xs, ys, depth),
            other => are_equal_bare(View::Tuple(xs), other),
        },
        View::Object(a) => match arena.view(&y) {
            View::Object(b) => are_objects_equal(arena, a, b, depth),
            other => are_equal_bare(View::Object(a), other),
        },
        other => are_equal_bare(other, arena.view(&y)),
    }
}

// Whether the objects at two addresses are equal: two lists by their items, two dicts by their pairs.
#[cycle(equal)]
fn are_objects_equal(arena: &Arena, a: usize, b: usize, depth: usize) -> Result<bool, Refusal>
    requires a { a < length arena.now.store }
    requires b { b < length arena.now.store }
    ensures { (w : World) → w.store ≡ arena.now.store → operations.equal_by (compared_at depth w) (Address a) (Address b) w ≡ decided result }
{
    if a == b {
        return Ok(true);
    }
    match arena.object(a) {
        Contents::List(xs) => match arena.list(b) {
            Some(ys) => are_items_equal(arena, xs, ys, depth),
            None => Ok(false),
        },
        Contents::Dict(pairs) => match held_at(arena, b) {
            Held::Dict(other) => are_pairs_equal(arena, pairs, other, depth),
            Held::List(_) => Ok(false),
            Held::Other => Ok(false),
        },
        Contents::Plain(_) => Ok(false),
    }
}

// Whether two tuples or lists have equal items, asked from the left; those of different lengths are not compared.
#[cycle(equal)]
fn are_items_equal(arena: &Arena, xs: &[Ref], ys: &[Ref], depth: usize) -> Result<bool, Refusal>
    requires xs { AllLie arena.now xs.now }
    requires ys { AllLie arena.now ys.now }
    ensures { (w : World) → w.store ≡ arena.now.store → (compared_at depth w).items (all_of arena.now xs.now) (all_of arena.now ys.now) ≡ decided result }
{
    if depth == 0 {
        return Err(Refusal::TooDeep);
    }
    if xs.len() != ys.len() {
        return Ok(false);
    }
    for i in 0..xs.len() {
        match are_equal_within(arena, xs[i], ys[i], depth - 1) {
            Ok(true) => {}
            Ok(false) => return Ok(false),
            Err(refusal) => return Err(refusal),
        }
    }
    Ok(true)
}

// Whether a dict has the same keys as the one at an address, with equal values, asked in the order of the first; those of
// different lengths are not compared.
#[cycle(equal)]
fn are_pairs_equal(arena: &Arena, pairs: &Dict, other: usize, depth: usize) -> Result<bool, Refusal>
    requires pairs { PairsLie arena.now pairs.now }
    requires address { other < length arena.now.store }
    requires other { IsDictAt arena.now other }
    ensures { (w : World) → w.store ≡ arena.now.store → (compared_at depth w).pairs (pairs_of arena.now pairs.now) (dict_at arena.now other) ≡ decided result }
{
    if depth == 0 {
        return Err(Refusal::TooDeep);
    }
    if pairs.len() != keys_at(arena, other) {
        return Ok(false);
    }
    for i in 0..pairs.len() {
        let pair = pairs.pair(i);
        let Some(there) = arena.find(other, pair.key) else {
            return Ok(false);
        };
        match are_equal_within(arena, pair.value, there, depth - 1) {
            Ok(true) => {}
            Ok(false) => return Ok(false),
            Err(refusal) => return Err(refusal),
        }
    }
    Ok(true)
}

// How many keys the dict at an address has; of any other object none.
fn keys_at(arena: &Arena, address: usize) -> usize
    requires { address < length arena.now.store }
    ensures { result ≡ length (dict_at arena.now address) }
{
    match arena.object(address) {
        Contents::Dict(pairs) => pairs.len(),
        _ => 0,
    }
}

// `x == y`, where they are neither two tuples nor two objects.
fn are_equal_bare(x: View, y: View) -> Result<bool, Refusal>
    requires { AreBare x y }
    ensures { (m : Memory) (parts : Compared) (w : World) → operations.equal_by parts (value_in m x.entry) (value_in m y.entry) w ≡ decided result }
{
    match (x, y) {
        (View::Int(a), View::Int(b)) => Ok(a == b),
        (View::Int(a), View::Truth(b)) => Ok(a == int_of_truth(b)),
        (View::Truth(a), View::Int(b)) => Ok(int_of_truth(a) == b),
        (View::Truth(a), View::Truth(b)) => Ok(a == b),
        (View::Str(a), View::Str(b)) => Ok(are_same(a, b)),
        (View::Bytes(a), View::Bytes(b)) => {
            Ok(are_same(Characters::Narrow(a), Characters::Narrow(b)))
        }
        (View::None, View::None) => Ok(true),
        (View::BuiltIn(a), View::BuiltIn(b)) => Ok(is_same_built_in(a, b)),
        (View::Function(_, _), View::Function(_, _)) => Err(Refusal::WrongType),
        (View::Range(a), View::Range(b)) => Ok(is_same_range(a, b)),
        (View::Tuple(_), View::Tuple(_)) => unreachable!(),
        (View::Kind(a), View::Kind(b)) => Ok(a.is_same(b)),
        (View::Module(a), View::Module(b)) => Ok(is_same_module(a, b)),
        (View::Queue(a, _), View::Queue(b, _)) => Ok(a == b),
        (View::Interpreter(a), View::Interpreter(b)) => Ok(a == b),
        (View::Exec(a), View::Exec(b)) => Ok(a == b),
        (View::Object(_), View::Object(_)) => unreachable!(),
        _ => Ok(false),
    }
}

// Whether two modules have one name.
fn is_same_module(x: ModuleName, y: ModuleName) -> bool
    ensures { result ≡ operations.same_module x y }
{
    match (x, y) {
        (ModuleName::Threading, ModuleName::Threading) => true,
        (ModuleName::Interpreters, ModuleName::Interpreters) => true,
        _ => false,
    }
}

// Whether two built-ins have one name.
fn is_same_built_in(x: BuiltIn, y: BuiltIn) -> bool
    ensures { result ≡ operations.same_built_in (built_in_of x) (built_in_of y) }
{
    match (x, y) {
        (BuiltIn::Print, BuiltIn::Print) => true,
        (BuiltIn::Range, BuiltIn::Range) => true,
        (BuiltIn::Str, BuiltIn::Str) => true,
        (BuiltIn::Repr, BuiltIn::Repr) => true,
        (BuiltIn::Len, BuiltIn::Len) => true,
        (BuiltIn::Bool, BuiltIn::Bool) => true,
        (BuiltIn::Abs, BuiltIn::Abs) => true,
        (BuiltIn::Int, BuiltIn::Int) => true,
        (BuiltIn::Ord, BuiltIn::Ord) => true,
        (BuiltIn::Chr, BuiltIn::Chr) => true,
        (BuiltIn::Min, BuiltIn::Min) => true,
        (BuiltIn::Max, BuiltIn::Max) => true,
        (BuiltIn::Bytes, BuiltIn::Bytes) => true,
        (BuiltIn::Tuple, BuiltIn::Tuple) => true,
        (BuiltIn::List, BuiltIn::List) => true,
        _ => false,
    }
}
