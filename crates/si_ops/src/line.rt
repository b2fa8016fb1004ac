// The line that `print` writes.

ghost use Rattle.si_semantics.specs.Text as semantics;
ghost use Rattle.si_arena.specs.Memory.{all_of, AllLie};
ghost use Rattle.si_ops.specs.Writing.{Writes, Appends, spaced_in, spaced_bytes, line_bytes};

use crate::pieces::put;
use crate::shown::add_str;
use si_arena::{Arena, Fault, Ref};

/// Adds what `print` writes of its arguments at the end of a String: their `str`, joined by spaces, and a newline
/// (Python Standard Library 3.14, "Built-in Functions": print). `TooDeep` and `TooLong` as of the first `str` that can't
/// be written; memory is asked for only where the String has no room. Where the line is not added, the String's text is
/// as before.
pub fn push_line(out: &mut String, arena: &Arena, arguments: &[Ref]) -> Result<(), Fault>
    requires { AllLie arena.now arguments.now }
    ensures { Appends (semantics.line_of arena.now.store (all_of arena.now arguments.now)) (line_bytes arena.now.store (all_of arena.now arguments.now)) out.old out.new result }
{
    let start = out.len();
    match add_line(out, arena, arguments) {
        Ok(()) => Ok(()),
        Err(fault) => {
            out.truncate(start);
            Err(fault)
        }
    }
}

// Adds the line; where that is refused, a part of it may have been added.
fn add_line(out: &mut String, arena: &Arena, arguments: &[Ref]) -> Result<(), Fault>
    requires { AllLie arena.now arguments.now }
    ensures { Writes (semantics.line_of arena.now.store (all_of arena.now arguments.now)) (line_bytes arena.now.store (all_of arena.now arguments.now)) out.old out.new result }
{
    match arguments.split_first() {
        None => {
            put(out, "\n")?;
            Ok(())
        }
        Some((first, others)) => {
            add_str(out, arena, *first)?;
            add_others(out, arena, others)?;
            put(out, "\n")?;
            Ok(())
        }
    }
}

// Adds the `str` of each value, with a space before it.
fn add_others(out: &mut String, arena: &Arena, values: &[Ref]) -> Result<(), Fault>
    requires { AllLie arena.now values.now }
    ensures { Writes (spaced_in arena.now.store (all_of arena.now values.now)) (spaced_bytes arena.now.store (all_of arena.now values.now)) out.old out.new result }
{
    for value in values {
        put(out, " ")?;
        add_str(out, arena, *value)?;
    }
    Ok(())
}
