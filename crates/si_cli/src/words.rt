// The words of a command line: the second names the command, and each command reads the words after it by a clap
// command of its own.

ghost use Rattle.std.specs.Prelude.{◌≡◌, ℕ, IfNone, IfOk, IfErr, IfSome, codes, option_map, slice_get, true, false};
ghost use Rattle.clap.specs.Words.{app_of, kind_of, rule_of};
ghost use Rattle.si_cli.specs.Status.{status_of_words};
ghost use Rattle.si_plain.specs.Ranges.{Numbers};
ghost use Rattle.si_cli.specs.Words.{Allows, AllowsInterpreters, AllowsTurns, AreRepeat, AreRun, AreTaken, IsReadFrom, IsSaidBy, Takes, TellsHelp, asks_help, check, helps, history, interpreters, is_help, is_topic, name_of, planning, replay, run, saving, script, serial, texts, turns};
ghost use Rattle.si_cli.specs.inner.Commands.{limited, limited_run, repeats, repeats_name, runs, runs_name};
ghost use Rattle.si_cli.specs.inner.Requests.{repeat_in, run_in};

use crate::asked::Request;
use clap::error::ErrorKind;
use clap::{Arg, ArgAction, Command, Error};
use si_hints::Shortened;
use si_plain::Limits;
use std::alloc::{AllocError, Global};

const HELP: &str = "Runs Python scripts in isolated interpreters and reports what each has printed.

Usage: subpy COMMAND [ARGUMENTS]

Commands:
  serial [SCRIPT] [--interpreters N] [--turns N] [--record PATH]
                  Runs a script, one turn after another, and prints its report
  run [SCRIPT] [--interpreters N] [--turns N] [--record PATH]
                  Runs a script, each interpreter by a thread of its own, and prints its report
  replay [SCRIPT] --schedule PATH [--turns N]
                  Makes a run again from its schedule, and prints its report
  history [SCRIPT] --schedule PATH [--turns N]
                  Makes a run again, and prints what its interpreters asked and were answered
  check [SCRIPT]  Prints 'ok' where a script is well formed, and runs nothing of it
  help [COMMAND]  Prints this text, or that of a command
  --version       Prints the version

Where SCRIPT is left out or is '-' the script is read from standard input.

Statuses:
  0  the script has run to its end, 'ok' was printed, or help or the version was asked for
  1  the script was left by an exception
  2  the words, the script or the schedule are refused, or a read or a write failed
  3  a run waits for what can't come
  4  turns were used up
  5  memory was refused
  6  a thread can't be started
";

/// What `--version` prints.
const VERSION: &str = "subpy 0.2.0\n";

/// The most characters of a word that a message repeats.
const MAX_REPEATED: usize = 60;

const SERIAL_HELP: &str =
    "The report has for each interpreter the line '== interpreter N ==', what it printed, and the line
'raised KIND: MESSAGE' for each of its runs that an exception left; and last the line 'end: finished',
'end: stuck' where a run waits for what can't come, 'end: spent' where an interpreter's turns were
used up, or 'end: starved' where memory was refused to one. With --record the order in which interpreters
acted is written to a file, before the report: a schedule, from which replay makes the same run again.
Standard error has, once the report is out, the lines from which exceptions came that left runs, and what
keeps a run that isn't finished.";

const RUN_HELP: &str =
    "The report is as that of serial. The interpreters run at once, so the order in which they act may be another
each time; with --record it is written to a file, before the report: a schedule, from which replay makes the
same run again.";

const REPLAY_HELP: &str =
    "The schedule is a file that --record has made: how many interpreters there may be, and whose actions are
taken in which order. The run with just these actions is made, and its report printed, as that of serial.
Where an action can't be taken, or another can after the last, that is told on standard error, with status 2.";

const HISTORY_HELP: &str =
    "The run is made as by replay. For each of its actions there is a line: its number, the interpreter that
asked, what it asked, ' = ', and what it was answered.";

const CHECK_HELP: &str =
    "The line 'ok' is printed where the script can be read, and its statements and names stand where they
may. Otherwise the fault is told on standard error, with status 2. Nothing of the script is run.";

/// What moves the interpreters of a run.
#[derive(Clone, Copy, Debug, PartialEq, Eq)]
pub(crate) enum Mover {
    Turns,
    Threads,
}

/// What is told of a run that is made again.
#[derive(Clone, Copy, Debug, PartialEq, Eq)]
pub(crate) enum Told {
    Report,
    History,
}

/// Why the words ask for nothing that can be carried out.
#[derive(Debug, Drop)]
pub enum WordsFault {
    /// No command is named, its definition doesn't take the words after it, a number among them is none or outside its
    /// limits, or they ask for help or for the version. `text` is for people: with `help` the lines of the help, or of the
    /// version, else one message without a line end.
    Words { help: bool, text: String },
    /// Memory was refused.
    NoMemory,
}

impl From<AllocError> for WordsFault {
    ghost use Rattle.si_cli.specs.declared.words.WordsFault.TheVariants.{NoMemory};

    ghost from_gives = { λ _ e. e ≡ NoMemory };

    fn from(_: AllocError) -> WordsFault {
        WordsFault::NoMemory
    }
}

impl WordsFault {
    /// The status of a program that stops for this: 0 where help or the version was asked for, 5 where memory was refused, else 2.
    pub fn status(&self) -> u8
        ensures { result ≡ status_of_words self.now }
    {
        match self {
            WordsFault::Words { help, .. } => if *help { 0 } else { 2 },
            WordsFault::NoMemory => 5,
        }
    }
}

/// What the words ask for. The first is the program's name, the second that of a command.
///
/// `WordsFault::Words` where no command is named, its definition doesn't take the words after it, no schedule is named
/// where one is needed, the value of `--interpreters` is no number from 1 to 64, that of `--turns` none from 1 to
/// 1,099,511,627,776, or help or the version is asked for; `WordsFault::NoMemory` where memory was refused.
pub fn request<'a>(alloc: Global, words: &'a [&'a str]) -> Result<Request<'a>, WordsFault>
    ensures said { IfOk result (IsSaidBy (texts words.entry.now)) }
    // Words that no command takes are refused.
    ensures only { IfOk result (λ _. AreTaken (texts words.entry.now)) }
    // Words that a command takes are refused only for want of memory.
    ensures taken { IfErr result (λ fault. AreTaken (texts words.entry.now) → fault ≡ WordsFault.NoMemory) }
    // Help, or the version, is told where the words ask for it, and nowhere else.
    ensures help { IfErr result (TellsHelp (asks_help (texts words.entry.now))) }
{
    let Some(name) = words.get(1) else {
        return Err(refused(alloc, "no command is named"));
    };
    if *name == "serial" {
        return run_request(alloc, &words[1..], Mover::Turns);
    }
    if *name == "run" {
        return run_request(alloc, &words[1..], Mover::Threads);
    }
    if *name == "check" {
        return check_request(alloc, &words[1..]);
    }
    if *name == "replay" {
        return repeat_request(alloc, &words[1..], Told::Report);
    }
    if *name == "history" {
        return repeat_request(alloc, &words[1..], Told::History);
    }
    Err(match *name {
        "help" => help_of(alloc, words),
        "-h" | "--help" | "-V" | "--version" => told_by(alloc, name),
        _ => no_command(alloc, name),
    })
}

/// The request of the words from the name of a command on that runs a script.
fn run_request<'a>(
    alloc: Global,
    words: &'a [&'a str],
    mover: Mover,
) -> Result<Request<'a>, WordsFault>
    ensures name { IfOk result (λ request. name_of request ≡ runs_name mover) }
    ensures said { IfOk result (IsReadFrom (texts words.entry.now)) }
    ensures only { IfOk result (λ _. AreRun (runs mover) (texts words.entry.now)) }
    ensures taken { IfErr result (λ fault. AreRun (runs mover) (texts words.entry.now) → fault ≡ WordsFault.NoMemory) }
    ensures help { IfErr result (TellsHelp (helps (runs mover) (texts words.entry.now))) }
{
    let command = run_command(alloc, mover)?;
    match command.try_get_matches_from(words) {
        Ok(matches) => {
            let script = matches.get_str("SCRIPT");
            let interpreters = matches.get_str("interpreters");
            let turns = matches.get_str("turns");
            let saved = matches.get_str("record");
            match limits_of(alloc, interpreters, turns) {
                Ok(limits) => Ok(run_of(mover, script, limits, saved)),
                Err(fault) => Err(fault),
            }
        }
        Err(error) => Err(words_fault(alloc, &error)),
    }
}

/// The request to run a script.
fn run_of<'a>(
    mover: Mover,
    script: Option<&'a str>,
    limits: Limits,
    saved: Option<&'a str>,
) -> Request<'a>
    ensures { result ≡ run_in mover script.entry limits saved.entry }
{
    match mover {
        Mover::Turns => Request::Serial {
            script,
            limits,
            saved,
        },
        Mover::Threads => Request::Run {
            script,
            limits,
            saved,
        },
    }
}

/// The request of the words from `check` on.
fn check_request<'a>(alloc: Global, words: &'a [&'a str]) -> Result<Request<'a>, WordsFault>
    ensures name { IfOk result (λ request. name_of request ≡ codes "check") }
    ensures said { IfOk result (IsReadFrom (texts words.entry.now)) }
    ensures only { IfOk result (λ _. Takes check (texts words.entry.now)) }
    ensures taken { IfErr result (λ fault. Takes check (texts words.entry.now) → fault ≡ WordsFault.NoMemory) }
    ensures help { IfErr result (TellsHelp (helps check (texts words.entry.now))) }
{
    let command = check_command(alloc)?;
    match command.try_get_matches_from(words) {
        Ok(matches) => Ok(Request::Check {
            script: matches.get_str("SCRIPT"),
        }),
        Err(error) => Err(words_fault(alloc, &error)),
    }
}

/// The request of the words from the name of a command on that makes a run again.
fn repeat_request<'a>(
    alloc: Global,
    words: &'a [&'a str],
    told: Told,
) -> Result<Request<'a>, WordsFault>
    ensures name { IfOk result (λ request. name_of request ≡ repeats_name told) }
    ensures said { IfOk result (IsReadFrom (texts words.entry.now)) }
    ensures only { IfOk result (λ _. AreRepeat (repeats told) (texts words.entry.now)) }
    ensures taken { IfErr result (λ fault. AreRepeat (repeats told) (texts words.entry.now) → fault ≡ WordsFault.NoMemory) }
    ensures help { IfErr result (TellsHelp (helps (repeats told) (texts words.entry.now))) }
{
    let command = repeat_command(alloc, told)?;
    match command.try_get_matches_from(words) {
        Ok(matches) => {
            let script = matches.get_str("SCRIPT");
            let turns = matches.get_str("turns");
            let Some(schedule) = matches.get_str("schedule") else {
                return Err(no_schedule(alloc));
            };
            match limits_of(alloc, None, turns) {
                Ok(limits) => Ok(repeat_of(told, script, schedule, limits)),
                Err(fault) => Err(fault),
            }
        }
        Err(error) => Err(words_fault(alloc, &error)),
    }
}

/// The request to make a run again.
fn repeat_of<'a>(
    told: Told,
    script: Option<&'a str>,
    schedule: &'a str,
    limits: Limits,
) -> Request<'a>
    ensures { result ≡ repeat_in told script.entry schedule.entry limits }
{
    match told {
        Told::Report => Request::Replay {
            script,
            schedule,
            limits,
        },
        Told::History => Request::History {
            script,
            schedule,
            limits,
        },
    }
}

/// The limits under these values of `--interpreters` and `--turns`, or why there are none.
fn limits_of(
    alloc: Global,
    interpreters: Option<&str>,
    turns: Option<&str>,
) -> Result<Limits, WordsFault>
    ensures some { IfOk result (Allows (option_map (λ text. text.now) interpreters.entry) (option_map (λ text. text.now) turns.entry)) }
    ensures none { IfErr result (λ _. (limits : Numbers) → Allows (option_map (λ text. text.now) interpreters.entry) (option_map (λ text. text.now) turns.entry) limits → ⊥) }
    ensures help { IfErr result (TellsHelp false) }
{
    let Some(limits) = with_interpreters(interpreters) else {
        return Err(no_interpreters(alloc, interpreters));
    };
    match with_turns(limits, turns) {
        Some(limits) => Ok(limits),
        None => Err(no_turns(alloc, turns)),
    }
}

/// The limits under this value of `--interpreters` with the standard number of turns, if it is a number of interpreters
/// that may be allowed.
fn with_interpreters(interpreters: Option<&str>) -> Option<Limits>
    ensures some { IfSome result (λ limits. AllowsInterpreters (option_map (λ text. text.now) interpreters.entry) limits.interpreters
        × (limits.turns ≡ 1000000)) }
    ensures none { IfNone result ((n : ℕ) → AllowsInterpreters (option_map (λ text. text.now) interpreters.entry) n → ⊥) }
{
    let standard = Limits::standard();
    let Some(text) = interpreters else {
        return Some(standard);
    };
    match text.parse::<u32>() {
        Ok(number) => Limits::new(number, standard.turns()).ok(),
        Err(_) => None,
    }
}

/// These limits with the number of turns under this value of `--turns`, if it is one that may be allowed.
fn with_turns(limits: Limits, turns: Option<&str>) -> Option<Limits>
    requires { limits.turns ≡ 1000000 }
    ensures some { IfSome result (λ new. (new.interpreters ≡ limits.interpreters)
        × AllowsTurns (option_map (λ text. text.now) turns.entry) new.turns) }
    ensures none { IfNone result ((n : ℕ) → AllowsTurns (option_map (λ text. text.now) turns.entry) n → ⊥) }
{
    let Some(text) = turns else {
        return Some(limits);
    };
    match text.parse::<u64>() {
        Ok(number) => Limits::new(limits.interpreters(), number).ok(),
        Err(_) => None,
    }
}

/// The definition of the command that runs a script.
fn run_command<'a>(alloc: Global, mover: Mover) -> Result<Command<'a>, AllocError>
    ensures { IfOk result (λ command. app_of command ≡ runs mover) }
{
    match mover {
        Mover::Turns => serial_command(alloc),
        Mover::Threads => threads_command(alloc),
    }
}

/// The definition of `serial`.
fn serial_command<'a>(alloc: Global) -> Result<Command<'a>, AllocError>
    ensures { IfOk result (λ command. app_of command ≡ serial) }
{
    limited_command(alloc)?.arg(saving_argument(alloc))
}

/// The same without `--record`.
fn limited_command<'a>(alloc: Global) -> Result<Command<'a>, AllocError>
    ensures { IfOk result (λ command. app_of command ≡ limited) }
{
    Command::new(alloc, "serial")
        .about("Runs a script, one turn after another, and prints the report of each interpreter.")
        .override_usage("subpy serial [SCRIPT] [--interpreters N] [--turns N] [--record PATH]")
        .after_help(SERIAL_HELP)
        .arg(script_argument(alloc))?
        .arg(interpreters_argument(alloc))?
        .arg(turns_argument(alloc))
}

/// The definition of `run`.
fn threads_command<'a>(alloc: Global) -> Result<Command<'a>, AllocError>
    ensures { IfOk result (λ command. app_of command ≡ run) }
{
    limited_run_command(alloc)?.arg(saving_argument(alloc))
}

/// The same without `--record`.
fn limited_run_command<'a>(alloc: Global) -> Result<Command<'a>, AllocError>
    ensures { IfOk result (λ command. app_of command ≡ limited_run) }
{
    Command::new(alloc, "run")
        .about(
            "Runs a script, each interpreter by a thread of its own, and prints the report of each.",
        )
        .override_usage("subpy run [SCRIPT] [--interpreters N] [--turns N] [--record PATH]")
        .after_help(RUN_HELP)
        .arg(script_argument(alloc))?
        .arg(interpreters_argument(alloc))?
        .arg(turns_argument(alloc))
}

/// The definition of the command that makes a run again.
fn repeat_command<'a>(alloc: Global, told: Told) -> Result<Command<'a>, AllocError>
    ensures { IfOk result (λ command. app_of command ≡ repeats told) }
{
    match told {
        Told::Report => replay_command(alloc),
        Told::History => history_command(alloc),
    }
}

/// The definition of `replay`.
fn replay_command<'a>(alloc: Global) -> Result<Command<'a>, AllocError>
    ensures { IfOk result (λ command. app_of command ≡ replay) }
{
    Command::new(alloc, "replay")
        .about("Makes a run again from its schedule, and prints the report of each interpreter.")
        .override_usage("subpy replay [SCRIPT] --schedule PATH [--turns N]")
        .after_help(REPLAY_HELP)
        .arg(script_argument(alloc))?
        .arg(schedule_argument(alloc))?
        .arg(turns_argument(alloc))
}

/// The definition of `history`.
fn history_command<'a>(alloc: Global) -> Result<Command<'a>, AllocError>
    ensures { IfOk result (λ command. app_of command ≡ history) }
{
    Command::new(alloc, "history")
        .about("Makes a run again from its schedule, and prints what its interpreters asked.")
        .override_usage("subpy history [SCRIPT] --schedule PATH [--turns N]")
        .after_help(HISTORY_HELP)
        .arg(script_argument(alloc))?
        .arg(schedule_argument(alloc))?
        .arg(turns_argument(alloc))
}

/// The definition of `check`.
fn check_command<'a>(alloc: Global) -> Result<Command<'a>, AllocError>
    ensures { IfOk result (λ command. app_of command ≡ check) }
{
    Command::new(alloc, "check")
        .about("Says whether a script is well formed, and runs nothing of it.")
        .override_usage("subpy check [SCRIPT]")
        .after_help(CHECK_HELP)
        .arg(script_argument(alloc))
}

/// The script's path, which may be left out.
fn script_argument<'a>(alloc: Global) -> Arg<'a>
    ensures rule { rule_of result ≡ script }
    ensures local { result.global ≡ false }
{
    Arg::new(alloc, "SCRIPT")
        .help("The script's file; standard input where it is left out or is '-'")
        .action(ArgAction::Set)
}

/// The number of interpreters, which may be left out.
fn interpreters_argument<'a>(alloc: Global) -> Arg<'a>
    ensures rule { rule_of result ≡ interpreters }
    ensures local { result.global ≡ false }
{
    Arg::new(alloc, "interpreters")
        .long("interpreters")
        .value_name("N")
        .help("How many interpreters there may be, closed ones counted: 1 to 64, by default 8")
        .action(ArgAction::Set)
}

/// The number of turns, which may be left out.
fn turns_argument<'a>(alloc: Global) -> Arg<'a>
    ensures rule { rule_of result ≡ turns }
    ensures local { result.global ≡ false }
{
    Arg::new(alloc, "turns")
        .long("turns")
        .value_name("N")
        .help("How many local turns each interpreter has: 1 to 1099511627776, by default 1000000")
        .action(ArgAction::Set)
}

/// The path at which the schedule is saved, which may be left out.
fn saving_argument<'a>(alloc: Global) -> Arg<'a>
    ensures rule { rule_of result ≡ saving }
    ensures local { result.global ≡ false }
{
    Arg::new(alloc, "record")
        .long("record")
        .value_name("PATH")
        .help("The file to write the schedule of the run to")
        .action(ArgAction::Set)
}

/// The path of the schedule.
fn schedule_argument<'a>(alloc: Global) -> Arg<'a>
    ensures rule { rule_of result ≡ planning }
    ensures local { result.global ≡ false }
{
    Arg::new(alloc, "schedule")
        .long("schedule")
        .value_name("PATH")
        .help("The file of the schedule of the run")
        .action(ArgAction::Set)
}

/// What clap's error comes to: help, a refusal in one line, or want of memory.
fn words_fault(alloc: Global, error: &Error) -> WordsFault
    ensures memory { kind_of error.now ≡ ErrorKind.OutOfMemory → result ≡ WordsFault.NoMemory }
    ensures help { TellsHelp (is_help (kind_of error.now)) result }
{
    if error.kind() == ErrorKind::OutOfMemory {
        return WordsFault::NoMemory;
    }
    let help = !error.use_stderr();
    match if help {
        error.to_string(alloc)
    } else {
        one_line(alloc, error)
    } {
        Ok(text) => WordsFault::Words { help, text },
        Err(_) => WordsFault::NoMemory,
    }
}

/// The message of a refusal, without its mark `error:`, its usage and its line ends, and with the words in it shortened.
fn one_line(alloc: Global, error: &Error) -> Result<String, AllocError> {
    let whole = error.to_string(alloc)?;
    let text = whole.as_str();
    let text = text.strip_prefix("error: ").unwrap_or(text);
    let mut line = String::new(alloc);
    for part in text.lines() {
        if part.is_empty() {
            break;
        }
        if !line.is_empty() {
            line.push_str(" ")?;
        }
        push_shortened(&mut line, part.trim())?;
    }
    Ok(line)
}

/// Adds a text, of which each part between two quotes that is too long is shortened.
fn push_shortened(line: &mut String, text: &str) -> Result<(), AllocError> {
    let mut count: usize = 0;
    for c in text.chars() {
        count = if c == '\'' {
            0
        } else {
            count.saturating_add(1)
        };
        if count <= MAX_REPEATED {
            line.push(c)?;
        } else if count == MAX_REPEATED + 1 {
            line.push_str("..")?;
        }
    }
    Ok(())
}

/// The fault of words that are refused for this reason.
fn refused(alloc: Global, why: &str) -> WordsFault
    ensures { TellsHelp false result }
{
    match format!(in alloc; "{why}; 'subpy --help' lists the commands") {
        Ok(text) => WordsFault::Words { help: false, text },
        Err(_) => WordsFault::NoMemory,
    }
}

/// The fault of a value of `--interpreters` that is no number of interpreters.
fn no_interpreters(alloc: Global, interpreters: Option<&str>) -> WordsFault
    ensures { TellsHelp false result }
{
    let value = Shortened::new(interpreters.unwrap_or(""), MAX_REPEATED);
    match format!(in alloc; "--interpreters takes a whole number from 1 to 64, not {value:?}") {
        Ok(text) => WordsFault::Words { help: false, text },
        Err(_) => WordsFault::NoMemory,
    }
}

/// The fault of words that name no schedule where one is needed.
fn no_schedule(alloc: Global) -> WordsFault
    ensures { TellsHelp false result }
{
    match String::from_str(alloc, "no schedule is named; --schedule PATH does") {
        Ok(text) => WordsFault::Words { help: false, text },
        Err(_) => WordsFault::NoMemory,
    }
}

/// The fault of a value of `--turns` that is no number of turns.
fn no_turns(alloc: Global, turns: Option<&str>) -> WordsFault
    ensures { TellsHelp false result }
{
    let value = Shortened::new(turns.unwrap_or(""), MAX_REPEATED);
    match format!(in alloc; "--turns takes a whole number from 1 to 1099511627776, not {value:?}") {
        Ok(text) => WordsFault::Words { help: false, text },
        Err(_) => WordsFault::NoMemory,
    }
}

/// The fault of a word that is no command.
fn no_command(alloc: Global, name: &str) -> WordsFault
    ensures { TellsHelp false result }
{
    let word = Shortened::new(name, MAX_REPEATED);
    match format!(in alloc; "there is no command {word:?}; 'subpy --help' lists them") {
        Ok(text) => WordsFault::Words { help: false, text },
        Err(_) => WordsFault::NoMemory,
    }
}

/// The help that lists the commands.
fn general_help(alloc: Global) -> WordsFault
    ensures { TellsHelp true result }
{
    match String::from_str(alloc, HELP) {
        Ok(text) => WordsFault::Words { help: true, text },
        Err(_) => WordsFault::NoMemory,
    }
}

/// What a flag of the program asks for: the version, or else the help that lists the commands.
fn told_by(alloc: Global, flag: &str) -> WordsFault
    ensures { TellsHelp true result }
{
    match flag {
        "-V" | "--version" => version(alloc),
        _ => general_help(alloc),
    }
}

/// The version.
fn version(alloc: Global) -> WordsFault
    ensures { TellsHelp true result }
{
    match String::from_str(alloc, VERSION) {
        Ok(text) => WordsFault::Words { help: true, text },
        Err(_) => WordsFault::NoMemory,
    }
}

/// The help that words whose second is `help` ask for.
fn help_of(alloc: Global, words: &[&str]) -> WordsFault
    ensures { TellsHelp (is_topic (slice_get (texts words.entry.now) 2)) result }
{
    match words.get(2) {
        None => general_help(alloc),
        Some(name) => match *name {
            "serial" => command_help(serial_command(alloc)),
            "run" => command_help(threads_command(alloc)),
            "check" => command_help(check_command(alloc)),
            "replay" => command_help(replay_command(alloc)),
            "history" => command_help(history_command(alloc)),
            "help" => general_help(alloc),
            _ => no_command(alloc, name),
        },
    }
}

/// The help of a command, by its definition.
fn command_help(command: Result<Command, AllocError>) -> WordsFault
    ensures { TellsHelp true result }
{
    let rendered = match command {
        Ok(mut command) => command.render_help(),
        Err(error) => Err(error),
    };
    match rendered {
        Ok(text) => WordsFault::Words { help: true, text },
        Err(_) => WordsFault::NoMemory,
    }
}
