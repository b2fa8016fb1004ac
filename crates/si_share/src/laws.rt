// Laws of copies, for those who build on them.

ghost use Rattle.si_share.specs.Laws.{OneParcel, CopiedIsEqual, EachHasValue};

/// A value is that of its parcel, and a parcel that of its value.
pub fn one_parcel()
    ensures { OneParcel }
{}

/// What was copied out of one arena and into another denotes there what it denoted.
pub fn copied_is_equal()
    ensures { CopiedIsEqual }
{}

/// Each parcel has a value: none is refused for want of one.
pub fn each_has_value()
    ensures { EachHasValue }
{}
