// What a turn did.

/// What a turn of an interpreter did.
#[derive(Clone, Copy, Debug, Drop, PartialEq, Eq)]
pub enum Mark {
    /// One line of its machine, which may leave it standing at an action.
    Local,
    /// The action at which it stood was done and answered.
    Acted,
    /// It stands at an action that is not enabled; nothing changed.
    Waited,
    /// It has a line to run, and no turn left for it; nothing changed.
    Spent,
    /// It was not created, is gone, or was starved before; nothing changed.
    Nobody,
    /// Memory was refused to it, for its line or for its action; it stands still for good.
    Starved,
}

impl Mark {
    ghost use Rattle.std.specs.Prelude.{◌≡◌};
    ghost use Rattle.si_world.specs.Rounds.{is_move};

    /// Whether the turn moved its interpreter: it was marked Local or Acted.
    pub fn is_move(self) -> bool
        ensures { result ≡ is_move self }
    {
        matches!(self, Mark::Local | Mark::Acted)
    }
}
