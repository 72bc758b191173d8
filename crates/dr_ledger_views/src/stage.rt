//! How far rows are, and how many of them.
ghost use Rattle.std.specs.Prelude.{◌≡◌};
ghost use Rattle.dr_ledger_views.specs.Views.{number_of, stage_of};

use dr_ledger::Progress;

/// How far a row is, without more about it.
#[derive(Clone, Copy, PartialEq, Eq, Debug)]
pub enum Stage {
    Waiting,
    Held,
    Done,
    Dropped,
}

impl Stage {
    /// A number for each stage.
    pub fn number(self) -> u64
        ensures { result ≡ number_of self }
    {
        match self {
            Stage::Waiting => 0,
            Stage::Held => 1,
            Stage::Done => 2,
            Stage::Dropped => 3,
        }
    }

    /// The stage of a row.
    pub fn of(progress: Progress) -> Stage
        ensures { result ≡ stage_of progress }
    {
        match progress {
            Progress::Waiting { .. } => Stage::Waiting,
            Progress::Held(_) => Stage::Held,
            Progress::Done => Stage::Done,
            Progress::Dropped => Stage::Dropped,
        }
    }
}

/// How many rows to a destination are at which stage, and from which moment on (milliseconds) the
/// first that waits is due.
#[derive(Clone, Copy, PartialEq, Eq)]
pub struct HopTally {
    pub waiting: u64,
    pub held: u64,
    pub done: u64,
    pub dropped: u64,
    pub due: Option<u64>,
}
