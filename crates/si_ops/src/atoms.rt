// How values that are no objects are written.

ghost use Rattle.std.specs.Prelude.{codes, pos, ◌≡◌, ◌++◌, OnOk, OnErr, encode_utf8_all};
ghost use Rattle.si_plain.specs.Kinds.{name_of};
ghost use Rattle.si_semantics.specs.Text as semantics;
ghost use Rattle.si_arena.specs.Memory.{Memory, built_in_of};
ghost use Rattle.si_arena.specs.Views.{value_in};
ghost use Rattle.si_ops.specs.Writing.{Adds, Lacks, step_bytes};

use crate::pieces::{put, put_int, put_within};
use crate::quoted::{put_bytes, put_quoted};
use si_arena::{BuiltIn, View};
use si_plain::{Kind, ModuleName, NoMemory, Text};

// Adds the `repr` of what is shown; of what holds values nothing.
pub fn put_view(out: &mut String, view: View) -> Result<(), NoMemory>
    ensures ok { (m : Memory) → OnOk result (Adds (encode_utf8_all (semantics.repr_atom (value_in m view.entry))) out.old out.new) }
    ensures err { (m : Memory) → OnErr result (Lacks (encode_utf8_all (semantics.repr_atom (value_in m view.entry))) out.old out.new) }
{
    match view {
        View::None => put(out, "None"),
        View::Truth(true) => put(out, "True"),
        View::Truth(false) => put(out, "False"),
        View::Int(n) => put_int(out, n),
        View::Str(characters) => put_quoted(out, characters),
        View::Bytes(bytes) => put_bytes(out, bytes),
        View::BuiltIn(function) => put_built_in(out, function),
        View::Function(_, name) => put_function(out, name),
        View::Range(steps) => put_range(out, steps.start, steps.stop, steps.step),
        View::Kind(kind) => put_class(out, kind),
        View::Module(name) => put_module(out, name),
        View::Queue(id, _) => put_queue(out, id),
        View::Interpreter(id) => put_interpreter(out, id),
        View::Exec(id) => put_exec(out, id),
        View::Tuple(_) => Ok(()),
        View::Object(_) => Ok(()),
    }
}

// Adds how a built-in is written.
fn put_built_in(out: &mut String, function: BuiltIn) -> Result<(), NoMemory>
    ensures ok { OnOk result (Adds (encode_utf8_all (codes "<built-in " ++ semantics.built_in_name (built_in_of function) ++ codes ">")) out.old out.new) }
    ensures err { OnErr result (Lacks (encode_utf8_all (codes "<built-in " ++ semantics.built_in_name (built_in_of function) ++ codes ">")) out.old out.new) }
{
    put_within(out, "<built-in ", built_in_name(function), ">")
}

/// The name of a built-in.
pub fn built_in_name(function: BuiltIn) -> &'static str
    ensures { result.now ≡ semantics.built_in_name (built_in_of function) }
{
    match function {
        BuiltIn::Print => "print",
        BuiltIn::Range => "range",
        BuiltIn::Str => "str",
        BuiltIn::Repr => "repr",
        BuiltIn::Len => "len",
        BuiltIn::Bool => "bool",
        BuiltIn::Abs => "abs",
        BuiltIn::Int => "int",
        BuiltIn::Ord => "ord",
        BuiltIn::Chr => "chr",
        BuiltIn::Min => "min",
        BuiltIn::Max => "max",
        BuiltIn::Bytes => "bytes",
        BuiltIn::Tuple => "tuple",
        BuiltIn::List => "list",
    }
}

// Adds how a function is written, by its name.
fn put_function(out: &mut String, name: &Text) -> Result<(), NoMemory>
    ensures ok { OnOk result (Adds (encode_utf8_all (codes "<function " ++ name.now ++ codes ">")) out.old out.new) }
    ensures err { OnErr result (Lacks (encode_utf8_all (codes "<function " ++ name.now ++ codes ">")) out.old out.new) }
{
    put_within(out, "<function ", name.as_str(), ">")
}

// Adds how a kind is written.
fn put_class(out: &mut String, kind: Kind) -> Result<(), NoMemory>
    ensures ok { OnOk result (Adds (encode_utf8_all (codes "<class '" ++ name_of kind ++ codes "'>")) out.old out.new) }
    ensures err { OnErr result (Lacks (encode_utf8_all (codes "<class '" ++ name_of kind ++ codes "'>")) out.old out.new) }
{
    put_within(out, "<class '", kind.name(), "'>")
}

// Adds how a module is written.
fn put_module(out: &mut String, name: ModuleName) -> Result<(), NoMemory>
    ensures ok { OnOk result (Adds (encode_utf8_all (codes "<module '" ++ semantics.full_name name ++ codes "'>")) out.old out.new) }
    ensures err { OnErr result (Lacks (encode_utf8_all (codes "<module '" ++ semantics.full_name name ++ codes "'>")) out.old out.new) }
{
    put_within(out, "<module '", full_name(name), "'>")
}

// The name of a module.
fn full_name(name: ModuleName) -> &'static str
    ensures { result.now ≡ semantics.full_name name }
{
    match name {
        ModuleName::Threading => "threading",
        ModuleName::Interpreters => "concurrent.interpreters",
    }
}

// Adds how a queue is written, by its number.
fn put_queue(out: &mut String, id: u32) -> Result<(), NoMemory>
    ensures ok { OnOk result (Adds (encode_utf8_all (codes "Queue(" ++ semantics.decimal (pos id) ++ codes ")")) out.old out.new) }
    ensures err { OnErr result (Lacks (encode_utf8_all (codes "Queue(" ++ semantics.decimal (pos id) ++ codes ")")) out.old out.new) }
{
    put_numbered(out, "Queue(", id, ")")
}

// Adds how an interpreter is written, by its number.
fn put_interpreter(out: &mut String, id: u32) -> Result<(), NoMemory>
    ensures ok { OnOk result (Adds (encode_utf8_all (codes "Interpreter(" ++ semantics.decimal (pos id) ++ codes ")")) out.old out.new) }
    ensures err { OnErr result (Lacks (encode_utf8_all (codes "Interpreter(" ++ semantics.decimal (pos id) ++ codes ")")) out.old out.new) }
{
    put_numbered(out, "Interpreter(", id, ")")
}

// Adds how the method `exec` of an interpreter is written, by its number.
fn put_exec(out: &mut String, id: u32) -> Result<(), NoMemory>
    ensures ok { OnOk result (Adds (encode_utf8_all (codes "<exec of Interpreter(" ++ semantics.decimal (pos id) ++ codes ")>")) out.old out.new) }
    ensures err { OnErr result (Lacks (encode_utf8_all (codes "<exec of Interpreter(" ++ semantics.decimal (pos id) ++ codes ")>")) out.old out.new) }
{
    put_numbered(out, "<exec of Interpreter(", id, ")>")
}

// Adds a number between two texts.
fn put_numbered(out: &mut String, front: &str, number: u32, back: &str) -> Result<(), NoMemory>
    ensures ok { OnOk result (Adds (front.now ++ (encode_utf8_all (semantics.decimal (pos number)) ++ back.now)) out.old out.new) }
    ensures err { OnErr result (Lacks (front.now ++ (encode_utf8_all (semantics.decimal (pos number)) ++ back.now)) out.old out.new) }
{
    put(out, front)?;
    put_int(out, i64::from(number))?;
    put(out, back)
}

// Adds a range; its step is left out where it is 1.
fn put_range(out: &mut String, start: i64, stop: i64, step: i64) -> Result<(), NoMemory>
    ensures ok { OnOk result (Adds (encode_utf8_all (semantics.repr_range start stop step)) out.old out.new) }
    ensures err { OnErr result (Lacks (encode_utf8_all (semantics.repr_range start stop step)) out.old out.new) }
{
    put_steps(out, start, stop, step)
}

// Adds the parts of a range.
fn put_steps(out: &mut String, start: i64, stop: i64, step: i64) -> Result<(), NoMemory>
    ensures ok { OnOk result (Adds ((codes "range(" ++ encode_utf8_all (semantics.decimal start)) ++ ((codes ", " ++ encode_utf8_all (semantics.decimal stop)) ++ step_bytes step)) out.old out.new) }
    ensures err { OnErr result (Lacks ((codes "range(" ++ encode_utf8_all (semantics.decimal start)) ++ ((codes ", " ++ encode_utf8_all (semantics.decimal stop)) ++ step_bytes step)) out.old out.new) }
{
    put_start(out, start)?;
    put_stop(out, stop)?;
    put_step(out, step)?;
    Ok(())
}

// Adds the start of a range.
fn put_start(out: &mut String, start: i64) -> Result<(), NoMemory>
    ensures ok { OnOk result (Adds (codes "range(" ++ encode_utf8_all (semantics.decimal start)) out.old out.new) }
    ensures err { OnErr result (Lacks (codes "range(" ++ encode_utf8_all (semantics.decimal start)) out.old out.new) }
{
    put(out, "range(")?;
    put_int(out, start)
}

// Adds the stop of a range.
fn put_stop(out: &mut String, stop: i64) -> Result<(), NoMemory>
    ensures ok { OnOk result (Adds (codes ", " ++ encode_utf8_all (semantics.decimal stop)) out.old out.new) }
    ensures err { OnErr result (Lacks (codes ", " ++ encode_utf8_all (semantics.decimal stop)) out.old out.new) }
{
    put(out, ", ")?;
    put_int(out, stop)
}

// Adds the end of a range.
fn put_step(out: &mut String, step: i64) -> Result<(), NoMemory>
    ensures ok { OnOk result (Adds (step_bytes step) out.old out.new) }
    ensures err { OnErr result (Lacks (step_bytes step) out.old out.new) }
{
    if step != 1 {
        return put_last_step(out, step);
    }
    put(out, ")")
}

// Adds a step that is not left out.
fn put_last_step(out: &mut String, step: i64) -> Result<(), NoMemory>
    ensures ok { OnOk result (Adds (codes ", " ++ (encode_utf8_all (semantics.decimal step) ++ codes ")")) out.old out.new) }
    ensures err { OnErr result (Lacks (codes ", " ++ (encode_utf8_all (semantics.decimal step) ++ codes ")")) out.old out.new) }
{
    put(out, ", ")?;
    put_int(out, step)?;
    put(out, ")")
}
