// Laws of the texts of schedules, for those who build on them.

ghost use Rattle.si_schedule.specs.Laws.{OneText, OneBadLine};
ghost use Rattle.si_schedule.specs.Worked.{WorkedCases};

/// The worked cases: the texts of schedules, and the first bad lines of other texts.
pub fn worked_cases()
    ensures { WorkedCases }
{}

/// Schedules with the same text are the same.
pub fn one_text()
    ensures { OneText }
{}

/// A text has at most one first bad line.
pub fn one_bad_line()
    ensures { OneBadLine }
{}
