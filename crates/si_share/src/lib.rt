// Copies of values between interpreters: from an arena into a parcel, and from a parcel into another arena.
//
// The one contract: the parcel is that of the value by the definition (`parcel_of` in si_semantics/specs/Shareable.antt),
// and in the other arena lies a value that denotes the parcel's (`value_of_parcel`), with all else there as it was. So a
// value that was copied out of one arena and into another is equal to itself (`laws`). Which values are shareable never
// depends on memory: that is asked first. `specs/Copies.antt` says when each call is refused; nothing has changed then.
//
// In reading order: `fault` (why a copy is refused), `text` (the text of characters), `bytes`, `scalars` (items that are
// copied at once), `outward` (`is_shareable` and `copy_out`), `inward` (`copy_in`), `laws`.
#![tactic(auto)]

mod bytes;
mod fault;
mod inward;
pub mod laws;
mod outward;
mod scalars;
mod text;

pub use fault::ShareFault;
pub use inward::copy_in;
pub use outward::{copy_out, is_shareable};
pub use text::text_of;
