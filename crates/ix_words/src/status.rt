ghost use Rattle.std.specs.Prelude.{◌≡◌};
ghost use Rattle.ix_words.specs.Statuses.{code_of};

/// How a run ended.
#[derive(Clone, Copy, Debug, PartialEq, Eq)]
pub enum Status {
    /// All is done.
    Done,
    /// All is done but for elements that are refused by their own lines.
    SomeRefused,
    /// The input is refused.
    FileRefused,
    /// The source failed.
    ReadFault,
    /// The output or the report could not be written.
    WriteFault,
    /// Memory was wanting.
    NoMemory,
    /// The words stand for no job.
    Usage,
    /// A check found a fault.
    CheckFailed,
}

impl Status {
    /// The status with which the program ends, from 0 to 7 in the order of the variants.
    pub fn code(&self) -> u8
        ensures { result ≡ code_of self.now }
    {
        match self {
            Status::Done => 0,
            Status::SomeRefused => 1,
            Status::FileRefused => 2,
            Status::ReadFault => 3,
            Status::WriteFault => 4,
            Status::NoMemory => 5,
            Status::Usage => 6,
            Status::CheckFailed => 7,
        }
    }
}
