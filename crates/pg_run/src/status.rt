// The status that the program ends with.
ghost use Rattle.std.specs.Prelude.{◌≡◌, ◌≢◌, MatchOption};
ghost use Rattle.pg_run.specs.Statuses.{code_of};

/// How the program ended. Each status has a code, with which the process exits (`docs/FORMATS.md`), and all but one a
/// text.
#[derive(Clone, Copy)]
pub enum Status {
    /// The input was read to its end, and each line answered.
    Served,
    /// The words aren't those that the program takes.
    Usage,
    /// The files aren't well formed.
    Damaged,
    /// A call of the disk failed.
    DiskFailed,
    /// A call of the output failed.
    OutputFailed,
    /// A call of the input failed.
    InputFailed,
    /// There was no memory.
    OutOfMemory,
    /// The input has more bytes than are read.
    InputTooLong,
    /// No epoch or no queue id is left, or a file would grow past its limit.
    LimitReached,
}

impl Status {
    /// The code with which the process exits.
    pub fn code(self) -> u8
        ensures { result ≡ code_of self }
    {
        match self {
            Status::Served => 0,
            Status::Usage => 1,
            Status::Damaged => 2,
            Status::DiskFailed => 3,
            Status::OutputFailed => 4,
            Status::InputFailed => 5,
            Status::OutOfMemory => 6,
            Status::InputTooLong => 7,
            Status::LimitReached => 8,
        }
    }

    /// The status with that code. None where no status has it.
    pub fn of_code(code: u8) -> Option<Status>
        ensures { MatchOption result ((status : Status) → code_of status ≢ code) (λ status. code_of status ≡ code) }
    {
        match code {
            0 => Some(Status::Served),
            1 => Some(Status::Usage),
            2 => Some(Status::Damaged),
            3 => Some(Status::DiskFailed),
            4 => Some(Status::OutputFailed),
            5 => Some(Status::InputFailed),
            6 => Some(Status::OutOfMemory),
            7 => Some(Status::InputTooLong),
            8 => Some(Status::LimitReached),
            _ => None,
        }
    }

    /// What is told of it on the error output. Nothing where all went well.
    pub fn text(self) -> Option<&'static str> {
        match self {
            Status::Served => None,
            Status::Usage => Some(
                "usage: pagebroker run, init, print or check DIR; soak DIR SEED N",
            ),
            Status::Damaged => Some("damaged"),
            Status::DiskFailed => Some("disk fault"),
            Status::OutputFailed => Some("output fault"),
            Status::InputFailed => Some("input fault"),
            Status::OutOfMemory => Some("out of memory"),
            Status::InputTooLong => Some("input too long"),
            Status::LimitReached => Some("limit reached"),
        }
    }
}
