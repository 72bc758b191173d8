//! How the program ends.
ghost use Rattle.std.specs.Prelude.{◌≡◌};
ghost use Rattle.dr_run_open.specs.Statuses.{status_number};

/// How the program ends.
#[derive(Clone, Copy, PartialEq, Eq, Debug, Drop)]
pub enum Status {
    /// The plan is sound, or help was asked for.
    Success,
    /// The plan is refused or not sound, or its certificate would be too large.
    Refused,
    /// The words are none that the program knows.
    Usage,
    /// Input or output failed.
    InputOutput,
    /// There was no memory.
    Memory,
}

impl Status {
    /// The number that the process ends with.
    pub fn number(self) -> u8
        ensures { result ≡ status_number self }
    {
        match self {
            Status::Success => 0,
            Status::Refused => 1,
            Status::Usage => 2,
            Status::InputOutput => 3,
            Status::Memory => 4,
        }
    }
}
