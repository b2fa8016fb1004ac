// One level of a parcel.

use crate::atom::Atom;
use crate::parcel::Parcel;

/// The top of a parcel: its atom, or the items of a tuple in order.
#[derive(Clone, Copy)]
pub enum Top<'a> {
    Atom(Atom<'a>),
    Tuple(&'a [Parcel]),
}
