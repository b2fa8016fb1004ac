// What exceptions that operations raised say.

ghost use Rattle.std.specs.Prelude.{codes, List, ℕ, ◌≡◌, ◌++◌, ◌==◌, OnOk, OnErr, encode_utf8, encode_utf8_all, flat_map};
ghost use Rattle.std.specs.List.{list_any};
ghost use Rattle.si_plain.specs.Characters.{characters_of};
ghost use Rattle.si_plain.specs.Kinds.{name_of};
ghost use Rattle.si_plain.specs.Repr.{quote_of, escaped, repr_of};
ghost use Rattle.si_arena.specs.Causes.{kind_of, message_of, CauseLies};
ghost use Rattle.si_ops.specs.Writing.{Adds, Lacks, caused_str};

use crate::pieces::{put, put_char, put_within};
use crate::quoted::{has_character, put_str_escaped};
use si_arena::{Arena, Cause};
use si_plain::{Kind, NoMemory};

// A message in three parts: the middle one is a name, or empty.
#[derive(Clone, Copy)]
struct Parts<'a> {
    front: &'static str,
    name: &'a str,
    back: &'static str,
}

// The message of an exception that was raised so.
fn parts_of<'a>(arena: &'a Arena, cause: Cause) -> Parts<'a>
    requires { CauseLies arena.now.names cause }
    ensures { result.front.now ++ (result.name.now ++ result.back.now) ≡ encode_utf8_all (message_of arena.now.names cause) }
{
    match cause {
        Cause::Arithmetic(Kind::ZeroDivisionError) => fixed("division by zero"),
        Cause::Arithmetic(Kind::OverflowError) => fixed("integer out of range"),
        Cause::Arithmetic(Kind::ValueError) => fixed("wrong value"),
        Cause::Arithmetic(_) => fixed("wrong type"),
        Cause::TooLong => fixed("too long"),
        Cause::WrongType => fixed("wrong type"),
        Cause::NotCallable => fixed("not callable"),
        Cause::WrongArguments => fixed("wrong arguments"),
        Cause::TooDeep => fixed("too deep"),
        Cause::NoneActive => fixed("no active exception"),
        Cause::Outside => fixed("index out of range"),
        Cause::SizeChanged => fixed("dictionary changed size"),
        Cause::NotDefined(name) => Parts {
            front: "name ",
            name: arena.name(name).as_str(),
            back: " is not defined",
        },
        Cause::NotBound(name) => Parts {
            front: "local ",
            name: arena.name(name).as_str(),
            back: " is not bound",
        },
        Cause::NoAttribute(name) => Parts {
            front: "no attribute ",
            name: arena.name(name).as_str(),
            back: "",
        },
        Cause::Refused(refusal) => fixed(refusal.message()),
    }
}

// A message that names nothing.
fn fixed(text: &'static str) -> Parts<'static>
    ensures { result.front.now ++ (result.name.now ++ result.back.now) ≡ text.now }
{
    Parts {
        front: text,
        name: "",
        back: "",
    }
}

// Adds the message of an exception that was raised so.
fn put_message(out: &mut String, arena: &Arena, cause: Cause) -> Result<(), NoMemory>
    requires { CauseLies arena.now.names cause }
    ensures ok { OnOk result (Adds (encode_utf8_all (message_of arena.now.names cause)) out.old out.new) }
    ensures err { OnErr result (Lacks (encode_utf8_all (message_of arena.now.names cause)) out.old out.new) }
{
    let message = parts_of(arena, cause);
    put_within(out, message.front, message.name, message.back)
}

// Adds the `repr` of the message of an exception that was raised so.
fn put_quoted_message(out: &mut String, arena: &Arena, cause: Cause) -> Result<(), NoMemory>
    requires { CauseLies arena.now.names cause }
    ensures ok { OnOk result (Adds (encode_utf8_all (repr_of (message_of arena.now.names cause))) out.old out.new) }
    ensures err { OnErr result (Lacks (encode_utf8_all (repr_of (message_of arena.now.names cause))) out.old out.new) }
{
    let message = parts_of(arena, cause);
    put_quoted_parts(out, message.front, message.name, message.back)
}

// Adds the `repr` of the text that three are together.
fn put_quoted_parts(out: &mut String, front: &str, name: &str, back: &str) -> Result<(), NoMemory>
    ensures ok { (t : List ℕ) → front.now ++ (name.now ++ back.now) ≡ encode_utf8_all t → OnOk result (Adds (encode_utf8_all (repr_of t)) out.old out.new) }
    ensures err { (t : List ℕ) → front.now ++ (name.now ++ back.now) ≡ encode_utf8_all t → OnErr result (Lacks (encode_utf8_all (repr_of t)) out.old out.new) }
{
    let quote = parts_quote(front, name, back);
    put_between(out, quote, front, name, back)
}

// The quote for three texts, one after another.
#[tactic(auto, unfolding(si_plain::specs::Repr::quote_of))]
fn parts_quote(front: &str, name: &str, back: &str) -> char
    ensures { result ≡ quote_of (characters_of front.now ++ (characters_of name.now ++ characters_of back.now)) }
{
    if parts_have(front, name, back, '\'') && !parts_have(front, name, back, '"') {
        '"'
    } else {
        '\''
    }
}

// Whether a character is in one of three texts.
fn parts_have(front: &str, name: &str, back: &str, wanted: char) -> bool
    ensures { result ≡ list_any (λ c. c == wanted) (characters_of front.now ++ (characters_of name.now ++ characters_of back.now)) }
{
    has_character(front, wanted) || has_character(name, wanted) || has_character(back, wanted)
}

// Adds a quote, three texts as they stand between quotes, and the quote.
fn put_between(
    out: &mut String,
    quote: char,
    front: &str,
    name: &str,
    back: &str,
) -> Result<(), NoMemory>
    ensures ok { OnOk result (Adds (encode_utf8 quote ++ (encode_utf8_all (flat_map (escaped quote) (characters_of front.now)) ++ (encode_utf8_all (flat_map (escaped quote) (characters_of name.now)) ++ (encode_utf8_all (flat_map (escaped quote) (characters_of back.now)) ++ encode_utf8 quote)))) out.old out.new) }
    ensures err { OnErr result (Lacks (encode_utf8 quote ++ (encode_utf8_all (flat_map (escaped quote) (characters_of front.now)) ++ (encode_utf8_all (flat_map (escaped quote) (characters_of name.now)) ++ (encode_utf8_all (flat_map (escaped quote) (characters_of back.now)) ++ encode_utf8 quote)))) out.old out.new) }
{
    put_char(out, quote)?;
    put_str_escaped(out, quote, front)?;
    put_str_escaped(out, quote, name)?;
    put_str_escaped(out, quote, back)?;
    put_char(out, quote)
}

// Adds the `str` of an exception that was raised so: its message, of a KeyError the `repr` of that.
pub fn put_caused_str(out: &mut String, arena: &Arena, cause: Cause) -> Result<(), NoMemory>
    requires { CauseLies arena.now.names cause }
    ensures ok { OnOk result (Adds (encode_utf8_all (caused_str (kind_of cause) (message_of arena.now.names cause))) out.old out.new) }
    ensures err { OnErr result (Lacks (encode_utf8_all (caused_str (kind_of cause) (message_of arena.now.names cause))) out.old out.new) }
{
    match cause.kind() {
        Kind::KeyError => put_quoted_message(out, arena, cause),
        _ => put_message(out, arena, cause),
    }
}

// Adds the `repr` of an exception that was raised so.
pub fn put_caused_repr(out: &mut String, arena: &Arena, cause: Cause) -> Result<(), NoMemory>
    requires { CauseLies arena.now.names cause }
    ensures ok { OnOk result (Adds (name_of (kind_of cause) ++ (codes "(" ++ (encode_utf8_all (repr_of (message_of arena.now.names cause)) ++ codes ")"))) out.old out.new) }
    ensures err { OnErr result (Lacks (name_of (kind_of cause) ++ (codes "(" ++ (encode_utf8_all (repr_of (message_of arena.now.names cause)) ++ codes ")"))) out.old out.new) }
{
    put(out, cause.kind().name())?;
    put(out, "(")?;
    put_quoted_message(out, arena, cause)?;
    put(out, ")")
}
