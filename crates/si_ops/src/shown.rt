// `str` and `repr`.

ghost use Rattle.std.specs.Prelude.{codes, ℕ, List, [], suc, ◌≡◌, ◌<◌, ◌+◌, ◌++◌, nat_lt, length, drop, Some, OnOk, OnErr, string_bytes, encode_utf8_all};
ghost use Rattle.std.specs.Str.{IsCharBoundary};
ghost use Rattle.si_plain.specs.Characters.{characters_of};
ghost use Rattle.si_plain.specs.Kinds.{name_of};
ghost use Rattle.si_semantics.specs.Value as pure;
ghost use Rattle.si_semantics.specs.Text as semantics;
ghost use Rattle.si_semantics.specs.Opened.{InList, InDict, opened_at};
ghost use Rattle.si_arena.specs.Memory.{Memory, value_of, all_of, object_of, pair_of, pairs_of, Lies, AllLie, ObjectLies, PairLies, PairsLie};
ghost use Rattle.si_ops.specs.Writing.{Adds, Lacks, Puts, Writes, Appends, spelled, judged_by, max_bytes};
ghost use Rattle.si_ops.specs.inner.Written.{addresses_of, repr_within, str_within};

use crate::atoms::put_view;
use crate::inside::{Inside, is_inside};
use crate::messages::{put_caused_repr, put_caused_str};
use crate::pieces::{put, put_characters};
use si_arena::{Arena, Cause, Contents, Dict, Fault, Object, Pair, Ref, View};
use si_plain::limits::{MAX_NESTED, MAX_STR_LENGTH};
use si_plain::{Kind, NoMemory};

// The most bytes of the characters of a str in UTF-8.
const MAX_STR_BYTES: usize = 4_194_304;

/// Adds the `str` of a value at the end of a String (Python Standard Library 3.14, "Built-in Functions"). `TooLong`
/// where it has more characters than a str may have, `TooDeep` where more than 200 tuples and objects are within each
/// other: what is met first from the left. Memory is asked for only where the String has no room. Where it is not
/// added, the String's text is as before.
pub fn push_str(out: &mut String, arena: &Arena, value: Ref) -> Result<(), Fault>
    requires { Lies arena.now value }
    ensures { Appends (semantics.str_in arena.now.store (value_of arena.now value)) (spelled (semantics.str_of semantics.max_nested arena.now.store (value_of arena.now value))) out.old out.new result }
{
    let start = out.len();
    match add_str(out, arena, value) {
        Ok(()) => Ok(()),
        Err(fault) => {
            out.truncate(start);
            Err(fault)
        }
    }
}

/// Adds the `repr` of a value at the end of a String (Python Standard Library 3.14, "Built-in Functions"), as
/// `push_str` adds its `str`.
pub fn push_repr(out: &mut String, arena: &Arena, value: Ref) -> Result<(), Fault>
    requires { Lies arena.now value }
    ensures { Appends (semantics.repr_in arena.now.store (value_of arena.now value)) (spelled (semantics.repr_of semantics.max_nested arena.now.store [] (value_of arena.now value))) out.old out.new result }
{
    let start = out.len();
    match add_repr(out, arena, value) {
        Ok(()) => Ok(()),
        Err(fault) => {
            out.truncate(start);
            Err(fault)
        }
    }
}

// Adds the `str` of a value; where it can't be written, or memory is refused, a part of it may have been added.
pub fn add_str(out: &mut String, arena: &Arena, value: Ref) -> Result<(), Fault>
    requires { Lies arena.now value }
    ensures { Writes (semantics.str_in arena.now.store (value_of arena.now value)) (spelled (semantics.str_of semantics.max_nested arena.now.store (value_of arena.now value))) out.old out.new result }
{
    let start = out.len();
    let written = put_str(out, arena, value, MAX_NESTED, start);
    judged(out, start, written)
}

// The same of the `repr`.
fn add_repr(out: &mut String, arena: &Arena, value: Ref) -> Result<(), Fault>
    requires { Lies arena.now value }
    ensures { Writes (semantics.repr_in arena.now.store (value_of arena.now value)) (spelled (semantics.repr_of semantics.max_nested arena.now.store [] (value_of arena.now value))) out.old out.new result }
{
    let start = out.len();
    let written = put_repr(out, arena, &Inside::Nothing, value, MAX_NESTED, start);
    judged(out, start, written)
}

// What came of the text that stands in a String from a start on: where it is too long, that is told.
fn judged(out: &String, start: usize, written: Result<(), Fault>) -> Result<(), Fault>
    requires { IsCharBoundary (string_bytes out.now) start }
    ensures { result ≡ judged_by (nat_lt semantics.max_length (length (characters_of (drop start (string_bytes out.now))))) written }
{
    match written {
        Err(Fault::NoMemory) => Err(Fault::NoMemory),
        _ => {
            if is_too_long(out, start) {
                return Err(Fault::Raises(Cause::TooLong));
            }
            written
        }
    }
}

// Whether what stands in a String from a start on has more characters than a str may have.
fn is_too_long(out: &String, start: usize) -> bool
    requires { IsCharBoundary (string_bytes out.now) start }
    ensures { result ≡ nat_lt semantics.max_length (length (characters_of (drop start (string_bytes out.now)))) }
{
    if out.len() - start <= MAX_STR_LENGTH {
        return false;
    }
    count_after(out, start) > MAX_STR_LENGTH
}

// How many characters stand in a String from a start on.
fn count_after(out: &String, start: usize) -> usize
    requires { IsCharBoundary (string_bytes out.now) start }
    ensures { result ≡ length (characters_of (drop start (string_bytes out.now))) }
{
    out.as_str()[start..].chars().count()
}

// Adds the `str` of a value, where tuples and objects are within each other at most so deep. It need not go on where it
// is too long, by what stands in the String from a start on.
#[cycle(str)]
fn put_str(
    out: &mut String,
    arena: &Arena,
    value: Ref,
    depth: usize,
    start: usize,
) -> Result<(), Fault>
    requires { Lies arena.now value }
    ensures { Puts (semantics.str_of depth arena.now.store (value_of arena.now value)) start out.old out.new result }
{
    match arena.view(&value) {
        View::Str(characters) => {
            put_characters(out, characters)?;
            Ok(())
        }
        View::Object(address) => {
            if depth == 0 {
                return put_bottom(out, arena, &Inside::Nothing, address);
            }
            put_object_str(out, arena, address, depth - 1, start)
        }
        _ => put_repr(out, arena, &Inside::Nothing, value, depth, start),
    }
}

// Adds the `str` of the object at an address, where tuples and objects are within it at most so deep: of what is no
// exception its `repr`.
#[cycle(str)]
fn put_object_str(
    out: &mut String,
    arena: &Arena,
    address: usize,
    depth: usize,
    start: usize,
) -> Result<(), Fault>
    requires { address < length arena.now.store }
    ensures { Puts (semantics.str_of (suc depth) arena.now.store (pure.Address address)) start out.old out.new result }
{
    match arena.object(address) {
        Contents::Plain(object) => put_plain_str(out, arena, object, depth, start),
        Contents::List(items) => {
            put_list(out, arena, &Inside::Nothing, address, items, depth, start)
        }
        Contents::Dict(pairs) => {
            put_dict(out, arena, &Inside::Nothing, address, pairs, depth, start)
        }
    }
}

// Adds the `str` of an exception or a thread, where tuples and objects are within it at most so deep.
#[cycle(str)]
fn put_plain_str(
    out: &mut String,
    arena: &Arena,
    object: Object,
    depth: usize,
    start: usize,
) -> Result<(), Fault>
    requires { ObjectLies arena.now object }
    ensures { (x : ℕ) → Puts (str_within depth arena.now.store (opened_at x (Some (object_of arena.now object)))) start out.old out.new result }
{
    match object {
        Object::Bare(_) => Ok(()),
        Object::Caused(cause) => {
            put_caused_str(out, arena, cause)?;
            Ok(())
        }
        Object::Made(kind, argument) => match kind {
            Kind::KeyError => put_repr(out, arena, &Inside::Nothing, argument, depth, start),
            _ => put_str(out, arena, argument, depth, start),
        },
        Object::Thread { .. } => put_thread(out),
        Object::Started(_) => put_thread(out),
    }
}

// Adds the `repr` of a value, in the same way, where these lists and dicts are being written.
#[cycle(repr)]
fn put_repr(
    out: &mut String,
    arena: &Arena,
    inside: &Inside,
    value: Ref,
    depth: usize,
    start: usize,
) -> Result<(), Fault>
    requires { Lies arena.now value }
    ensures { Puts (semantics.repr_of depth arena.now.store (addresses_of inside.now) (value_of arena.now value)) start out.old out.new result }
{
    let view = arena.view(&value);
    match view {
        View::Tuple(items) => {
            if depth == 0 {
                return Err(Fault::Raises(Cause::TooDeep));
            }
            put_row(
                out,
                arena,
                inside,
                "(",
                items,
                tuple_end(items),
                depth - 1,
                start,
            )
        }
        View::Object(address) => {
            if depth == 0 {
                return put_bottom(out, arena, inside, address);
            }
            put_object(out, arena, inside, address, depth - 1, start)
        }
        _ => {
            put_view(out, view)?;
            Ok(())
        }
    }
}

// Adds the `repr` of values, with a comma and a space between them, between two ASCII texts, where tuples and objects are
// within it at most so deep (Python Language Reference 3.14, 6.2.4 and 6.2.5).
#[cycle(repr)]
fn put_row(
    out: &mut String,
    arena: &Arena,
    inside: &Inside,
    opening: &str,
    items: &[Ref],
    closing: &str,
    depth: usize,
    start: usize,
) -> Result<(), Fault>
    requires { AllLie arena.now items.now }
    ensures { (t u : pure.Text) → opening.now ≡ encode_utf8_all t → closing.now ≡ encode_utf8_all u → Puts (semantics.between t (semantics.items_by (semantics.repr_of depth arena.now.store (addresses_of inside.now)) (all_of arena.now items.now)) u) start out.old out.new result }
{
    put(out, opening)?;
    put_items(out, arena, inside, items, depth, start)?;
    put(out, closing)?;
    Ok(())
}

// What stands after the items of a tuple.
fn tuple_end(items: &[Ref]) -> &'static str
    ensures { (m : Memory) → result.now ≡ semantics.tuple_end (all_of m items.now) }
{
    match items {
        [_] => ",)",
        _ => ")",
    }
}

// Adds the `repr` of values, with a comma and a space between them.
#[cycle(repr)]
fn put_items(
    out: &mut String,
    arena: &Arena,
    inside: &Inside,
    items: &[Ref],
    depth: usize,
    start: usize,
) -> Result<(), Fault>
    requires { AllLie arena.now items.now }
    ensures { Puts (semantics.items_by (semantics.repr_of depth arena.now.store (addresses_of inside.now)) (all_of arena.now items.now)) start out.old out.new result }
{
    match items.split_first() {
        None => Ok(()),
        Some((first, others)) => {
            put_repr(out, arena, inside, *first, depth, start)?;
            put_others(out, arena, inside, others, depth, start)
        }
    }
}

// Adds the `repr` of values, each with a comma and a space before it, up to where it is too long.
#[cycle(repr)]
fn put_others(
    out: &mut String,
    arena: &Arena,
    inside: &Inside,
    items: &[Ref],
    depth: usize,
    start: usize,
) -> Result<(), Fault>
    requires { AllLie arena.now items.now }
    ensures { Puts (semantics.rest_by (semantics.repr_of depth arena.now.store (addresses_of inside.now)) (all_of arena.now items.now)) start out.old out.new result }
{
    for item in items {
        if is_past_all(out, start) {
            return Err(Fault::Raises(Cause::TooLong));
        }
        put(out, ", ")?;
        put_repr(out, arena, inside, *item, depth, start)?;
    }
    Ok(())
}

// Whether more bytes stand in a String from a start on than any str has.
fn is_past_all(out: &String, start: usize) -> bool
    ensures { result ≡ nat_lt (start + max_bytes) (length (string_bytes out.now)) }
{
    out.len().saturating_sub(start) > MAX_STR_BYTES
}

// Adds the `repr` of the object at an address, where tuples and objects are within it at most so deep.
#[cycle(repr)]
fn put_object(
    out: &mut String,
    arena: &Arena,
    inside: &Inside,
    address: usize,
    depth: usize,
    start: usize,
) -> Result<(), Fault>
    requires { address < length arena.now.store }
    ensures { Puts (semantics.repr_of (suc depth) arena.now.store (addresses_of inside.now) (pure.Address address)) start out.old out.new result }
{
    match arena.object(address) {
        Contents::Plain(object) => put_plain(out, arena, inside, object, depth, start),
        Contents::List(items) => put_list(out, arena, inside, address, items, depth, start),
        Contents::Dict(pairs) => put_dict(out, arena, inside, address, pairs, depth, start),
    }
}

// Adds the `repr` of an exception, its kind with its argument in brackets (Python Standard Library 3.14, "Built-in
// Exceptions"), or of a thread.
#[cycle(repr)]
fn put_plain(
    out: &mut String,
    arena: &Arena,
    inside: &Inside,
    object: Object,
    depth: usize,
    start: usize,
) -> Result<(), Fault>
    requires { ObjectLies arena.now object }
    ensures { (x : ℕ) → Puts (repr_within (suc depth) arena.now.store (addresses_of inside.now) (opened_at x (Some (object_of arena.now object)))) start out.old out.new result }
{
    match object {
        Object::Bare(kind) => {
            put_bare(out, kind)?;
            Ok(())
        }
        Object::Caused(cause) => {
            put_caused_repr(out, arena, cause)?;
            Ok(())
        }
        Object::Made(kind, argument) => {
            put_opening(out, kind)?;
            put_repr(out, arena, inside, argument, depth, start)?;
            put(out, ")")?;
            Ok(())
        }
        Object::Thread { .. } => put_thread(out),
        Object::Started(_) => put_thread(out),
    }
}

// Adds the `repr` of the list at an address, or something short where it is inside itself (Python Language Reference 3.14,
// 6.2.5).
#[cycle(repr)]
fn put_list(
    out: &mut String,
    arena: &Arena,
    inside: &Inside,
    address: usize,
    items: &[Ref],
    depth: usize,
    start: usize,
) -> Result<(), Fault>
    requires { AllLie arena.now items.now }
    ensures { Puts (repr_within (suc depth) arena.now.store (addresses_of inside.now) (InList address (all_of arena.now items.now))) start out.old out.new result }
{
    if is_inside(address, inside) {
        put(out, "[...]")?;
        return Ok(());
    }
    put_row(
        out,
        arena,
        &Inside::Within(address, &*inside),
        "[",
        items,
        "]",
        depth,
        start,
    )
}

// Adds the `repr` of the dict at an address, or something short where it is inside itself (Python Language Reference 3.14,
// 6.2.7).
#[cycle(repr)]
fn put_dict(
    out: &mut String,
    arena: &Arena,
    inside: &Inside,
    address: usize,
    pairs: &Dict,
    depth: usize,
    start: usize,
) -> Result<(), Fault>
    requires { PairsLie arena.now pairs.now }
    ensures { Puts (repr_within (suc depth) arena.now.store (addresses_of inside.now) (InDict address (pairs_of arena.now pairs.now))) start out.old out.new result }
{
    if is_inside(address, inside) {
        put(out, "{...}")?;
        return Ok(());
    }
    put(out, "{")?;
    put_pairs(
        out,
        arena,
        &Inside::Within(address, &*inside),
        pairs,
        depth,
        start,
    )?;
    put(out, "}")?;
    Ok(())
}

// Adds the pairs of a dict, with a comma and a space between them.
#[cycle(repr)]
fn put_pairs(
    out: &mut String,
    arena: &Arena,
    inside: &Inside,
    pairs: &Dict,
    depth: usize,
    start: usize,
) -> Result<(), Fault>
    requires { PairsLie arena.now pairs.now }
    ensures { Puts (semantics.items_by (semantics.pair_by (semantics.repr_of depth arena.now.store (addresses_of inside.now))) (pairs_of arena.now pairs.now)) start out.old out.new result }
{
    if pairs.len() == 0 {
        return Ok(());
    }
    put_pair(out, arena, inside, pairs.pair(0), depth, start)?;
    put_other_pairs(out, arena, inside, pairs, depth, start)
}

// Adds the pairs of a dict after the first, each with a comma and a space before it, up to where it is too long.
#[cycle(repr)]
fn put_other_pairs(
    out: &mut String,
    arena: &Arena,
    inside: &Inside,
    pairs: &Dict,
    depth: usize,
    start: usize,
) -> Result<(), Fault>
    requires { PairsLie arena.now pairs.now }
    ensures { Puts (semantics.rest_by (semantics.pair_by (semantics.repr_of depth arena.now.store (addresses_of inside.now))) (drop 1 (pairs_of arena.now pairs.now))) start out.old out.new result }
{
    for i in 1..pairs.len() {
        if is_past_all(out, start) {
            return Err(Fault::Raises(Cause::TooLong));
        }
        put(out, ", ")?;
        put_pair(out, arena, inside, pairs.pair(i), depth, start)?;
    }
    Ok(())
}

// Adds a pair of a dict: its key, a colon and its value.
#[cycle(repr)]
fn put_pair(
    out: &mut String,
    arena: &Arena,
    inside: &Inside,
    pair: Pair,
    depth: usize,
    start: usize,
) -> Result<(), Fault>
    requires { PairLies arena.now pair }
    ensures { Puts (semantics.pair_by (semantics.repr_of depth arena.now.store (addresses_of inside.now)) (pair_of arena.now pair)) start out.old out.new result }
{
    put_key(out, arena, pair.key)?;
    put_repr(out, arena, inside, pair.value, depth, start)
}

// Adds a key of a dict and a colon.
fn put_key(out: &mut String, arena: &Arena, key: Ref) -> Result<(), NoMemory>
    requires { Lies arena.now key }
    ensures ok { OnOk result (Adds (encode_utf8_all (semantics.repr_atom (value_of arena.now key) ++ codes ": ")) out.old out.new) }
    ensures err { OnErr result (Lacks (encode_utf8_all (semantics.repr_atom (value_of arena.now key) ++ codes ": ")) out.old out.new) }
{
    put_view(out, arena.view(&key))?;
    put(out, ": ")
}

// Adds the `str` and the `repr` of the object at an address where nothing may be within it: of a thread, which holds no
// values, and of a list and a dict that are inside themselves.
fn put_bottom(out: &mut String, arena: &Arena, inside: &Inside, address: usize) -> Result<(), Fault>
    requires { address < length arena.now.store }
    ensures { (start : ℕ) → Puts (semantics.repr_of 0 arena.now.store (addresses_of inside.now) (pure.Address address)) start out.old out.new result }
{
    match arena.object(address) {
        Contents::Plain(object) => put_plain_bottom(out, object),
        Contents::List(_) => put_again(out, inside, address, "[...]"),
        Contents::Dict(_) => put_again(out, inside, address, "{...}"),
    }
}

// The same of an exception or a thread.
fn put_plain_bottom(out: &mut String, object: Object) -> Result<(), Fault>
    ensures { (m : Memory) (inside : List ℕ) (x start : ℕ) → Puts (repr_within 0 m.store inside (opened_at x (Some (object_of m object)))) start out.old out.new result }
{
    match object {
        Object::Thread { .. } => put_thread(out),
        Object::Started(_) => put_thread(out),
        _ => Err(Fault::Raises(Cause::TooDeep)),
    }
}

// Adds something short, an ASCII text, for what is inside itself; anything else is too deep.
fn put_again(out: &mut String, inside: &Inside, address: usize, short: &str) -> Result<(), Fault>
    ensures { (t : pure.Text) (start : ℕ) → short.now ≡ encode_utf8_all t → Puts (semantics.unless_inside address (addresses_of inside.now) t (semantics.Broken [])) start out.old out.new result }
{
    if is_inside(address, inside) {
        put(out, short)?;
        return Ok(());
    }
    Err(Fault::Raises(Cause::TooDeep))
}

// Adds how a thread is written.
fn put_thread(out: &mut String) -> Result<(), Fault>
    ensures { (start : ℕ) → Puts (semantics.Whole (codes "<Thread>")) start out.old out.new result }
{
    put(out, "<Thread>")?;
    Ok(())
}

// Adds a kind, and brackets with nothing between them.
fn put_bare(out: &mut String, kind: Kind) -> Result<(), NoMemory>
    ensures ok { OnOk result (Adds (name_of kind ++ codes "()") out.old out.new) }
    ensures err { OnErr result (Lacks (name_of kind ++ codes "()") out.old out.new) }
{
    put(out, kind.name())?;
    put(out, "()")
}

// Adds a kind and an opening bracket.
fn put_opening(out: &mut String, kind: Kind) -> Result<(), NoMemory>
    ensures ok { OnOk result (Adds (name_of kind ++ codes "(") out.old out.new) }
    ensures err { OnErr result (Lacks (name_of kind ++ codes "(") out.old out.new) }
{
    put(out, kind.name())?;
    put(out, "(")
}
