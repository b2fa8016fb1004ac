// Laws of what is kept of requests, for those who build on them.

ghost use Rattle.si_methods.specs.Laws.{SameReplies, SameFit, OneLimit};

/// Two requests of which the same is kept get the same replies.
pub fn same_replies()
    ensures { SameReplies }
{}

/// The same answers fit two requests of which the same is kept.
pub fn same_fit()
    ensures { SameFit }
{}

/// The definition's test for the limits of parcels says what they are.
pub fn one_limit()
    ensures { OneLimit }
{}
