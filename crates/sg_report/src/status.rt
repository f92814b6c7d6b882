ghost use Rattle.std.specs.Prelude.{◌≡◌};
ghost use Rattle.sg_report.specs.Exit.{exit_code};

/// How a run ended.
#[derive(Clone, Copy, Debug, PartialEq, Eq)]
pub enum Status {
    /// The command was answered.
    Done,
    /// The input was refused, and the line written says why.
    Refused,
    /// The words have no shape.
    Usage,
    /// A checked proof fails.
    No,
    /// The source failed; nothing was written.
    ReadFault,
    /// The sink failed; a prefix of the text was written.
    WriteFault,
    /// The allocator had no memory left; nothing was written.
    NoMemory,
}

impl Status {
    /// The exit status of a program that ends so.
    pub fn exit_code(self) -> u8
        ensures { result ≡ exit_code self }
    {
        match self {
            Status::Done => 0,
            Status::Refused => 1,
            Status::Usage => 2,
            Status::No => 3,
            Status::ReadFault => 4,
            Status::WriteFault => 5,
            Status::NoMemory => 6,
        }
    }
}
