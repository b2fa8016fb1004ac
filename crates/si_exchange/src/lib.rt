// Which neighbouring calls of a journal may be exchanged.
//
// Two calls are independent if two interpreters made them, and each is a put, a get or a question for the size, on different
// queues or both for sizes (`specs/Independence.antt`). `independent` says which are. The one contract: independent
// neighbours of a history may be exchanged (`laws`). Each call is enabled and answered as before, the state left is the same,
// and each interpreter made the same calls in the same order. A legal history stays legal so: the life of each caller asks its
// call there too (`specs/LegalHistories.antt`).
//
// In reading order: `exchange` (`independent`), `laws`. The proofs: `Rows` (what such an action does to its queue alone),
// `Swapping` (two of them in the other order), `Exchanging` (whole histories), `Asking` (legal ones).
#![tactic(auto)]

mod exchange;
pub mod laws;

pub use exchange::independent;
