// Laws of what interpreters share, for those who build on them.

ghost use Rattle.si_semantics.specs.SharedLaws.{FirstInFirstOut, GivenOnce, ClosedStays, OneAnswer, WithinLimits};

/// First in, first out: what was put into a queue is what was taken from it, and then what it holds, in order.
pub fn first_in_first_out()
    ensures { FirstInFirstOut }
{}

/// No number of an interpreter, a queue or a run is given twice, and none that there was at first.
pub fn given_once()
    ensures { GivenOnce }
{}

/// A closed interpreter stays closed, whatever calls come after.
pub fn closed_stays()
    ensures { ClosedStays }
{}

/// An action has an answer exactly where it is enabled, and no other; it is one that the action may be given.
pub fn one_answer()
    ensures { OneAnswer }
{}

/// There are never more interpreters than the limit, closed ones counted, nor more than 1,024 queues.
pub fn within_limits()
    ensures { WithinLimits }
{}
