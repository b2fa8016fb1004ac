// What holds of what is run.

ghost use Rattle.si_cli.specs.Laws.{RunsWhatIsRead};

/// Where the bytes of a script are read as a tree, it is the tree of the text that its world is given to run. Costs nothing.
pub fn runs_what_is_read()
    ensures { RunsWhatIsRead }
{}
