// How a run ends.
ghost use Rattle.std.specs.Prelude.{◌≡◌};
ghost use Rattle.go_base.specs.Status.{status_code, status_message};

/// How a run ends.
#[derive(Clone, Copy, Debug, PartialEq, Eq)]
pub enum Status {
    /// Every package of the module is accepted, and the report is written.
    Accepted,
    /// A package is refused, and the report is written.
    Refused,
    /// The words of the command line are refused. Its message names the words that this version takes.
    Usage,
    /// The module is outside the language that is checked, or past a limit, and the report is
    /// written.
    Beyond,
    /// A call on the tree failed.
    ReadFault,
    /// A call on the sink failed.
    WriteFault,
    /// Memory was refused.
    NoMemory,
}

impl Status {
    /// The exit status of the program.
    pub fn code(self) -> u8
        ensures { result ≡ status_code self }
    {
        self as u8
    }

    /// What the program prints to standard error, or nothing where the text is empty.
    pub fn message(self) -> &'static str
        ensures { result.now ≡ status_message self }
    {
        match self {
            Status::Accepted | Status::Refused => "",
            Status::Usage => "usage: gocheck ROOT [--stubs ROOT2]",
            Status::Beyond => "outside the profile or past a limit",
            Status::ReadFault => "reading failed",
            Status::WriteFault => "writing failed",
            Status::NoMemory => "out of memory",
        }
    }
}
