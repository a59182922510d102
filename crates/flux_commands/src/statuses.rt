//! How a call of the program ends.

ghost use Rattle.std.specs.Prelude.{◌≡◌};
ghost use Rattle.flux_commands.specs.Statuses.{code_of};

/// How the program ends. `code` gives the number that its process ends with.
#[derive(Clone, Copy, PartialEq, Eq)]
pub enum Status {
    /// The command was carried out.
    Done,
    /// The words are no command.
    Usage,
    /// The program's text has a static fault.
    Static,
    /// The items text has a fault.
    Items,
    /// Reading failed.
    Read,
    /// Writing failed.
    Write,
    /// The door failed.
    Door,
    /// The audit's verdict is no.
    No,
    /// A named file is missing or too long.
    Missing,
    /// The program can't be served.
    NotServed,
    /// There was no memory.
    Memory,
}

impl Status {
    /// The number that the process ends with.
    pub fn code(&self) -> u8
        ensures { result ≡ code_of self.now }
    {
        match self {
            Status::Done => 0,
            Status::Usage => 2,
            Status::Static => 3,
            Status::Items => 4,
            Status::Read => 5,
            Status::Write => 6,
            Status::Door => 7,
            Status::No => 8,
            Status::Missing => 9,
            Status::NotServed => 10,
            Status::Memory => 12,
        }
    }
}
