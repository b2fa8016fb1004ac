// What is no parcel, given back: it is past the limits, or memory was refused.

use crate::parcel::Parcel;
use si_plain::Text;

/// Why a tuple is no parcel, with the items that were to be in it.
#[derive(Drop)]
pub enum TupleFault {
    /// It would have more than 65,536 values.
    TooLarge(Vec<Parcel>),
    /// It would have more than 200 levels, but not too many values.
    TooDeep(Vec<Parcel>),
    /// It is within the limits, and memory was refused.
    NoMemory(Vec<Parcel>),
}

/// Why a str is no parcel, with the text that was to be in it.
#[derive(Debug, Drop)]
pub enum StrFault {
    /// It has more than 1,048,576 characters.
    TooLong(Text),
    /// It is within the limits, and memory was refused.
    NoMemory(Text),
}

/// A bytes that is no parcel, since it has more than 1,048,576 bytes.
#[derive(Debug, Drop)]
pub struct TooLong<T> {
    pub given: T,
}
