// Which tree a text has, for those who build on it.

ghost use Rattle.si_reading.specs.Laws.{ReadsOnly, ReadsRight, TextsReadRight};
ghost use Rattle.si_reading.specs.Worked.{TreeCases};

/// Where a text has a tree, it is read as that tree, which is well scoped; and where it has none, there is no such tree.
pub fn reads_right()
    ensures { ReadsRight }
{}

/// A text has whichever tree it is read as and is well scoped: it is read as one tree only.
pub fn reads_only()
    ensures { ReadsOnly }
{}

/// The same as `reads_right` of a text of characters, by its bytes in UTF-8.
pub fn texts_read_right()
    ensures { TextsReadRight }
{}

/// The worked cases: texts that have a tree, and texts that have none.
pub fn worked_trees()
    ensures { TreeCases }
{}
