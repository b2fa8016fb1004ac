// Worked cases of a history.

ghost use Rattle.si_history.specs.Worked.{HistoryCases};

/// What the definitions give for some calls. Costs nothing.
pub fn worked_history()
    ensures { HistoryCases }
{}
