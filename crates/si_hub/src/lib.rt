// What interpreters share: one state, and the journal of the calls that made it.
//
// A shared action is done by `Hub::act`, which is the table of si_semantics/specs/Shared.antt: it is not enabled, or has
// one answer and leaves one state. The state is always that which the calls of the journal leave. What grows, grows before
// the first change: where memory is refused, the action comes back and nothing has changed.
//
// In reading order: `shared` (the state, and which actions are enabled), `telling` (what an action is answered),
// `queue_rows` and `interpreter_rows` (what each action changes), `hub` (the state with its journal).
#![tactic(auto)]

mod hub;
mod interpreter_rows;
mod queue_rows;
mod shared;
mod telling;

pub use hub::{Call, Hub, NotActed, Why};
