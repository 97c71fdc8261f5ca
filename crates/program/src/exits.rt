//! How the program ends: its exit status, and the line that says so.

ghost use Rattle.std.specs.Prelude.{◌≡◌, ◌≢◌};
ghost use Rattle.program.specs.Exits.{status_of, ending_line};

use std::io::ErrorKind;

/// How a run of the program ends.
#[derive(Clone, Copy, PartialEq, Eq)]
pub enum Exit {
    /// Everything was carried out and printed.
    Done,
    /// The organization, the token's name, or its secret within the organization already exists.
    Exists,
    /// The organization or the token does not exist.
    Absent,
    /// A workspace of the organization is locked, or a run is open.
    InUse,
    /// The file's tables have faults.
    Faults,
    /// The words or the secret are not valid.
    Usage,
    /// A frame does not parse.
    BadFrame,
    /// The file has another schema.
    Schema,
    /// An allocation, the store, standard input or the network failed.
    Down,
    /// A stream did not take everything that was to be printed.
    Unprinted,
}

impl Exit {
    /// The exit status.
    pub fn status(self) -> u8
        ensures { result ≡ status_of self }
    {
        match self {
            Exit::Done => 0,
            Exit::Exists | Exit::Absent | Exit::InUse | Exit::Faults => 1,
            Exit::Usage | Exit::BadFrame => 2,
            Exit::Schema | Exit::Down | Exit::Unprinted => 3,
        }
    }

    /// The line on standard output, without its line feed; empty if there is none.
    pub fn line(self) -> &'static str
        ensures { result.now ≡ ending_line self }
    {
        match self {
            Exit::Done => "ok",
            Exit::Exists => "refused exists",
            Exit::Absent => "refused absent",
            Exit::InUse => "refused in-use",
            Exit::Usage => "refused usage",
            Exit::Schema => "refused schema",
            Exit::Down => "refused down",
            Exit::Faults | Exit::BadFrame | Exit::Unprinted => "",
        }
    }
}

/// How the program ends if its arguments cannot be read: out of memory, or one is not UTF-8.
pub fn unread(kind: ErrorKind) -> Exit
    ensures memory { kind ≡ ErrorKind.OutOfMemory → result ≡ Exit.Down }
    ensures other { kind ≢ ErrorKind.OutOfMemory → result ≡ Exit.Usage }
{
    match kind {
        ErrorKind::OutOfMemory => Exit::Down,
        _ => Exit::Usage,
    }
}
