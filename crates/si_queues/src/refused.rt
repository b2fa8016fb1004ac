// Why a parcel comes back.

use si_parcel::Parcel;

/// Why a parcel was not put in.
#[derive(Clone, Copy, Debug, PartialEq, Eq)]
pub enum Refusal {
    /// The queue holds as many items as it may.
    Full,
    /// Memory was refused.
    NoMemory,
}

/// A parcel that was not put in, with the reason. The queues are as they were.
#[derive(Drop)]
pub struct NotPut {
    pub why: Refusal,
    pub parcel: Parcel,
}
