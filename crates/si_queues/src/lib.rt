// The queues that interpreters share: bounded lists of parcels, first in, first out.
//
// Contracts see each queue as a list with its greatest length, and all of them as a list by their numbers
// (si_semantics/specs/Shared.antt). A parcel that is refused comes back, and nothing is lost or changed then.
//
// In reading order: `queue` (one queue), `refused` (why a parcel comes back), `queues` (all of them).
#![tactic(auto)]

mod queue;
mod queues;
mod refused;

pub use queue::Queue;
pub use queues::Queues;
pub use refused::{NotPut, Refusal};
