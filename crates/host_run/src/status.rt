//! How a run ends.
ghost use Rattle.std.specs.Prelude.{◌≡◌};

/// How a run ended.
#[derive(Clone, Copy, Debug, PartialEq, Eq)]
pub enum Status {
    /// The report, its summary or a load was written.
    Reported,
    /// The words or the request file were refused, and the reason was written.
    Refused,
    /// The source failed.
    SourceFailed,
    /// The sink failed.
    SinkFailed,
    /// Memory was refused.
    NoMemory,
}

impl Status {
    ghost use Rattle.host_run.specs.Status.{code_of};

    /// The program's exit status.
    pub fn code(self) -> u8
        ensures { result ≡ code_of self }
    {
        match self {
            Status::Reported => 0,
            Status::Refused => 2,
            Status::SourceFailed => 3,
            Status::SinkFailed => 4,
            Status::NoMemory => 5,
        }
    }
}
