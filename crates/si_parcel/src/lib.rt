// What interpreters send to each other, and what they ask of what they share.
//
// Each value stands for pure data of `si_semantics`: a `Parcel` for a tree (`Parcels`), an `Action` and an `Answer` for
// those of `Actions`. A contract sees a parcel as its tree alone; specs/Shared.antt says for which action a value stands.
//
// In reading order: `boxed_text` (a text behind a pointer), `atom` (what has no parts), `parcel`, `refused` (what is
// past its limits) and `top` (one level of it), `binds` and `ids` (lists in actions and answers), `outcome`, `job`,
// `action`, `answer`.
#![tactic(auto)]

mod action;
mod answer;
mod atom;
mod binds;
mod boxed_text;
mod ids;
mod job;
mod outcome;
mod parcel;
mod refused;
mod top;

pub use action::Action;
pub use answer::Answer;
pub use atom::Atom;
pub use binds::Binds;
pub use boxed_text::BoxedText;
pub use ids::Ids;
pub use job::Job;
pub use outcome::Outcome;
pub use parcel::Parcel;
pub use refused::{StrFault, TooLong, TupleFault};
pub use top::Top;
