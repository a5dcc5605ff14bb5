//! How the program ends.

ghost use Rattle.std.specs.Prelude.{◌≡◌};
ghost use Rattle.doll.specs.Statuses.{status_code};

/// How the program ends.
#[derive(Clone, Copy, PartialEq, Eq)]
pub enum Status {
    /// What was asked is done.
    Done,
    /// The words are none of the forms.
    WrongWords,
    /// The bundle is refused.
    BundleRefused,
    /// The templates have faults of types.
    Untyped,
    /// A cached block reads beyond its key, or may share it.
    Unclean,
    /// No route has the path, or its record isn't there.
    UnknownPath,
    /// The line of the script with this number, from 1, is no order, or its session isn't open, or is open already.
    ScriptRefused { line: u32 },
    /// Reading the source or a file of the folder failed.
    ReadFailed,
    /// Writing failed.
    WriteFailed,
    /// No memory was found.
    NoMemory,
    /// The input or a file of the folder is too long.
    TooLong,
}

impl Status {
    /// The status that the process ends with.
    pub fn code(self) -> u8
        ensures { result ≡ status_code self }
    {
        match self {
            Status::Done => 0,
            Status::WrongWords => 2,
            Status::BundleRefused => 3,
            Status::Untyped => 4,
            Status::Unclean => 4,
            Status::UnknownPath => 5,
            Status::ScriptRefused { .. } => 6,
            Status::ReadFailed => 7,
            Status::WriteFailed => 8,
            Status::NoMemory => 9,
            Status::TooLong => 12,
        }
    }
}
