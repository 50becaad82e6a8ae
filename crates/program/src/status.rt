// The status with which a program ends.
ghost use Rattle.std.specs.Prelude.{◌≡◌};

/// How a program ended.
#[derive(Clone, Copy)]
pub enum Status {
    /// The whole log was read, and the whole report written; or the help or the version was.
    Done,
    /// A form, a file of the log, standard output or the output's file failed.
    Failed,
    /// The command line is not understood.
    Usage,
    /// A line of the log did not belong to it.
    Strayed,
}

impl Status {
    ghost use Rattle.program.specs.Status.{status_code};

    /// Returns the status for the system.
    pub fn code(self) -> u8
        ensures { result ≡ status_code self }
    {
        match self {
            Status::Done => 0,
            Status::Failed => 1,
            Status::Usage => 2,
            Status::Strayed => 3,
        }
    }
}
