// Attributes, methods, and what they ask of others.
//
// Each goes over an arena as its definition in `si_semantics` says (`specs/Answering.antt`, `specs/Replying.antt`): a call of a
// method gives the value of the definition, or asks the request that the definition asks, as the shared action by which it is
// made, or gives the cause of an exception whose kind and message are those of the definition, or the key that is a KeyError's
// argument, or memory was asked for and refused. What is kept of a request, an `Awaited`, is enough to say what an answer makes of it (`laws`).
//
// In reading order: `characters` (texts compared where they lie), `method` (which methods a value has), `values` (those of attributes),
// `shown` (what a value is to a method), `request` (what is kept of a request, and what a call gives), `arguments` (which arguments a call takes),
// `sent` (parcels and texts that go to others), `texts`, `joining`, `containers`,
// `modules`, `threads`, `queues`, `interpreters` (the methods), `calls` (a call of any of them), `replying` (what an answer makes
// of a request), `messages`, and `laws`.
#![tactic(auto)]

mod arguments;
mod calls;
mod characters;
mod containers;
mod interpreters;
mod joining;
pub mod laws;
mod messages;
mod method;
mod modules;
mod queues;
mod replying;
mod request;
mod sent;
mod shown;
mod texts;
mod threads;
mod values;

pub use calls::call_method;
pub use method::{Method, MethodName, method_at, method_named, method_of};
pub use replying::{Replied, reply};
pub use request::{Answered, Awaited};
pub use values::attribute;
