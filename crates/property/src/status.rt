// The statuses that 01 uses, by 000's names (000, section 6).
ghost use Rattle.std.specs.Prelude.{◌≡◌};
ghost use Rattle.property.specs.Status.{status_number};

#[derive(Clone, Copy, PartialEq, Eq)]
pub enum Status {
    Ok = 0,
    InvalidArgument = 3,
    InvalidState = 4,
    InvalidCommand = 5,
    InvalidInterface = 6,
    ParseError = 9,
    NoMem = 11,
    PropNotFound = 13,
    Already = 19,
    ItemNotFound = 20,
    InvalidCommandForProp = 21,
    ResetSoftware = 114,
}

impl Status {
    // The last of those that a link can hold.
    pub const MAX: u8 = 127;

    pub fn number(self) -> u8
        ensures { result ≡ status_number self }
    {
        self as u8
    }
}
