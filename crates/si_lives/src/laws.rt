// Laws of lives.

ghost use Rattle.si_lives.specs.Laws.{AnswersWait};

/// Further answers change nothing in a life before the action that the first of them answers: one that is gone or cut is
/// the same but for the answers that are left, and one that stops at an action, with none left, takes the first of them.
pub fn answers_wait()
    ensures { AnswersWait }
{}
