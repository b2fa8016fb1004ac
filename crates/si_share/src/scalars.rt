// None, truths and ints: the items of a tuple that are copied where they stand, without a call and without a `Result`,
// since tuples have them often.

ghost use Rattle.std.specs.Prelude.{◌≡◌, is_some};
ghost use Rattle.si_share.specs.inner.Scalars.{scalar_parcel, scalar_value};

use si_arena::Ref;
use si_parcel::{Atom, Parcel, Top};

// Whether a value is None, a truth or an int.
#[inline(always)]
pub(crate) fn is_scalar(value: Ref) -> bool
    ensures { result ≡ is_some (scalar_parcel value) }
{
    match value {
        Ref::None => true,
        Ref::Truth(..) => true,
        Ref::Int(_) => true,
        _ => false,
    }
}

// The parcel of None, a truth or an int.
#[inline(always)]
pub(crate) fn scalar_out(value: Ref) -> Option<Parcel>
    ensures { result ≡ scalar_parcel value }
{
    match value {
        Ref::None => Some(Parcel::none()),
        Ref::Truth(_, truth) => Some(Parcel::truth(truth)),
        Ref::Int(int) => Some(Parcel::int(int)),
        _ => None,
    }
}

// The value of a parcel of None, a truth or an int.
#[inline(always)]
pub(crate) fn scalar_in(parcel: &Parcel) -> Option<Ref>
    ensures { result ≡ scalar_value parcel.now }
{
    match parcel.top() {
        Top::Atom(Atom::Nothing) => Some(Ref::None),
        Top::Atom(Atom::Truth(truth)) => Some(Ref::Truth([], truth)),
        Top::Atom(Atom::Int(int)) => Some(Ref::Int(int)),
        _ => None,
    }
}
