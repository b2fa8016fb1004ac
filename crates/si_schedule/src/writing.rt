// The text of a schedule.

ghost use Rattle.std.specs.Prelude.{◌≡◌, ◌++◌, ◌∷◌, [], IfOk, OnOk, string_bytes};
ghost use Rattle.std.specs.Fmt.{decimal};
ghost use Rattle.si_schedule.specs.Schedules.{text_of};

use crate::schedule::Schedule;
use si_plain::NoMemory;
use std::alloc::Global;

/// The text of a schedule: the lines `schedule 1`, `interpreters` and how many, `turns` and the number of callers, a line
/// for each caller, and `end`, each ended by a line feed. Numbers are decimal. The form is this project's own.
///
/// # Errors
///
/// `NoMemory` where memory was refused.
pub fn write(alloc: Global, schedule: &Schedule) -> Result<String, NoMemory>
    ensures { IfOk result (λ t. string_bytes t ≡ text_of schedule.now) }
{
    let mut text = String::new(alloc);
    text.push_str("schedule 1\n")?;
    push_line(
        &mut text,
        "interpreters ",
        u64::from(schedule.interpreters()),
    )?;
    push_line(&mut text, "turns ", schedule.callers().len() as u64)?;
    for by in schedule.callers() {
        push_line(&mut text, "", u64::from(*by))?;
    }
    text.push_str("end\n")?;
    Ok(text)
}

// A line more: a word and a number.
fn push_line(text: &mut String, word: &str, number: u64) -> Result<(), NoMemory>
    ensures { OnOk result (string_bytes text.new ≡ string_bytes text.old ++ (word.now ++ decimal number) ++ 10 ∷ []) }
{
    write!(text, "{word}{number}\n")
}
