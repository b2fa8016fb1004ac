// The command line of `subpy`: from words and bytes to a report and a status.
//
// Its one contract is that of `serve`. For `serial` the world that is reported is that of the script after turns that led to
// it, in which each interpreter shows what its texts mean; what is appended to the writer is its report, and the answer is
// its status; and if that is asked for, the schedule that was taken is saved first. For `replay` and `history` it is the
// report of the run that has the schedule, or the lines of its calls. `run` has a call of its own, `serve_run`, whose world is one
// that worker threads have moved. For `check` it is the line `ok`, where the script is
// read and well scoped. A script that is not is refused, and no other.
//
// In reading order: `asked` (what a command line asks for), `words` (how it is read), `input` (reading a script), `report`
// (the text of a world's report), `status` (the status after it), `saving` (the schedule that was taken), `repeating` (runs
// made again), `serving` (all of these in a row), `working` (runs by worker threads), `laws`, `fault`.
// specs/Runs.antt says what is run, specs/Report.antt what its report and its status are, specs/Service.antt what it is to
// carry out a command.
#![tactic(auto)]

mod asked;
mod fault;
mod input;
pub mod laws;
mod repeating;
mod report;
mod saving;
mod serving;
mod status;
mod words;
mod working;

pub use asked::Request;
pub use fault::CliFault;
pub use input::{MAX_SCHEDULE_BYTES, read_input};
pub use serving::serve;
pub use words::{WordsFault, request};
pub use working::serve_run;
