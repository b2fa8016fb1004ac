// What the code for slots does, for those who run it, and laws of courses.

ghost use Rattle.si_slots.specs.Correct.{Compiles, KnowsMore, Lives, StaysOpen};
ghost use Rattle.si_slots.specs.CodeCases.{CodeCases};
ghost use Rattle.si_slots.specs.Interpreter.{StaysAfter, AfterShows};
ghost use Rattle.si_slots.specs.Laws.{AnswersWait, OnePieceALine, OneMoment};

/// The worked cases of code: which instructions some functions have.
pub fn worked_code()
    ensures { CodeCases }
{}

/// The code of a text does what its body means, from every state and whatever came before, and takes at most sixteen
/// lines for each statement, expression, target, turn of a loop and except clause that the meaning visits.
pub fn compiles()
    ensures { Compiles }
{}

/// A table that knows the functions that were read before a text knows that text's functions too, once its code is
/// added.
pub fn knows_more()
    ensures { KnowsMore }
{}

/// Under any answers a machine that runs compiled code comes to where the life of its meaning ends, within that count.
pub fn lives()
    ensures { Lives }
{}

/// However far compiled code runs, and whatever its requests are answered, it never comes to where an instruction is
/// missing, is of another function than the frame, or lacks a temporary.
pub fn stays_open()
    ensures { StaysOpen }
{}

/// An interpreter is at a moment of its course, from its start on, through each line and each answer.
pub fn stays_after()
    ensures { StaysAfter }
{}

/// At each such moment an interpreter shows its meaning.
pub fn after_shows()
    ensures { AfterShows }
{}

/// One answer more changes nothing in a course before the action that it answers.
pub fn answers_wait()
    ensures { AnswersWait }
{}

/// One line of a course prints at most one piece, and takes back none.
pub fn one_piece_a_line()
    ensures { OnePieceALine }
{}

/// With all answers taken, the lines that were run tell the whole state of a course.
pub fn one_moment()
    ensures { OneMoment }
{}
