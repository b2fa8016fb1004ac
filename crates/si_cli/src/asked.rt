// What a command line asks for.

ghost use Rattle.std.specs.Prelude.{◌≡◌, option_map};
ghost use Rattle.si_cli.specs.Words.{path_of, saved_of, schedule_of};

use si_plain::Limits;

/// What the words of a command line ask for. A path of a script that is not named stands for standard input.
#[derive(Debug, Drop)]
pub enum Request<'a> {
    /// Run the script, one turn after another, and report; at the path `saved`, if one is named, save the schedule that was
    /// taken.
    Serial {
        script: Option<&'a str>,
        limits: Limits,
        saved: Option<&'a str>,
    },
    /// Run the script, each interpreter by a thread of its own, and report; the rest is as for `Serial`.
    Run {
        script: Option<&'a str>,
        limits: Limits,
        saved: Option<&'a str>,
    },
    /// Say whether the script is read and well scoped, and run nothing of it.
    Check {
        script: Option<&'a str>,
    },
    /// Make a run again from its schedule, and report. Of the limits only the turns count: how many interpreters there may be,
    /// the schedule says.
    Replay {
        script: Option<&'a str>,
        schedule: &'a str,
        limits: Limits,
    },
    /// Make a run again from its schedule, and tell its history. The limits are as for `Replay`.
    History {
        script: Option<&'a str>,
        schedule: &'a str,
        limits: Limits,
    },
}

impl<'a> Request<'a> {
    /// The path of the script, if the words name one.
    pub fn script(&self) -> Option<&'a str>
        ensures { option_map (λ path. path.now) result ≡ path_of self.now }
    {
        match self {
            Request::Serial { script, .. } => *script,
            Request::Run { script, .. } => *script,
            Request::Check { script } => *script,
            Request::Replay { script, .. } => *script,
            Request::History { script, .. } => *script,
        }
    }

    /// The path of the schedule that is read, if one is.
    pub fn schedule(&self) -> Option<&'a str>
        ensures { option_map (λ path. path.now) result ≡ schedule_of self.now }
    {
        match self {
            Request::Serial { .. } => None,
            Request::Run { .. } => None,
            Request::Check { .. } => None,
            Request::Replay { schedule, .. } => Some(*schedule),
            Request::History { schedule, .. } => Some(*schedule),
        }
    }

    /// The path at which the schedule that was taken is saved, if it is.
    pub fn saved(&self) -> Option<&'a str>
        ensures { option_map (λ path. path.now) result ≡ saved_of self.now }
    {
        match self {
            Request::Serial { saved, .. } => *saved,
            Request::Run { saved, .. } => *saved,
            Request::Check { .. } => None,
            Request::Replay { .. } => None,
            Request::History { .. } => None,
        }
    }
}
