// What a body asks, before its payload is looked at: steps 2 to 5 of 01, Commands.
ghost use Rattle.std.specs.Prelude.{◌≡◌};
ghost use Rattle.property.specs.Status.{status_number};
ghost use Rattle.request.specs.Verdict.{step_of, status_of, cause_of, verdict};

use packed::{Fault, read_packed};
use property::{Command, Row, Status, commands, find};

// What stops a body in these steps.
#[derive(Clone, Copy, PartialEq, Eq)]
pub enum Refusal {
    UnreadableCommand(Fault),
    UnknownCommand,
    UnreadableProperty(Fault),
    UnknownProperty,
    NotAllowed,
}

impl Refusal {
    // The step of 01, Commands, that stops the body. Step, status and cause are methods by these names in docs/PROMISES.md, and no From.
    pub fn step(self) -> u8
        ensures { result ≡ step_of self }
    {
        match self {
            Refusal::UnreadableCommand(_) | Refusal::UnknownCommand => 2,
            Refusal::UnreadableProperty(_) | Refusal::UnknownProperty => 4,
            Refusal::NotAllowed => 5,
        }
    }

    pub fn status(self) -> Status
        ensures { status_number result ≡ status_of self }
    {
        match self {
            Refusal::UnreadableCommand(_) | Refusal::UnreadableProperty(_) => Status::ParseError,
            Refusal::UnknownCommand => Status::InvalidCommand,
            Refusal::UnknownProperty => Status::PropNotFound,
            Refusal::NotAllowed => Status::InvalidCommandForProp,
        }
    }

    // The fault of a packed integer, where that stops the body.
    pub fn cause(self) -> Option<Fault>
        ensures { result ≡ cause_of self }
    {
        match self {
            Refusal::UnreadableCommand(fault) | Refusal::UnreadableProperty(fault) => Some(fault),
            Refusal::UnknownCommand | Refusal::UnknownProperty | Refusal::NotAllowed => None,
        }
    }
}

// What a body asks that these steps let pass.
#[derive(Clone, Copy, PartialEq, Eq)]
pub enum Request {
    Noop,
    Reset,
    // A command on a property that allows it; the payload starts at this place.
    Reach {
        command: Command,
        row: Row,
        start: usize,
    },
}

#[tactic(auto, unfolding(crate::specs::Verdict::verdict, crate::specs::Verdict::command_of))]
pub fn verdict_of(body: &[u8]) -> Result<Request, Refusal>
    ensures { result ≡ verdict body.now }
{
    let asked = read_packed(body, 1).map_err(Refusal::UnreadableCommand)?;
    let command = match asked.number {
        commands::NOOP => return Ok(Request::Noop),
        commands::RESET => return Ok(Request::Reset),
        commands::VALUE_GET => Command::Get,
        commands::VALUE_SET => Command::Set,
        commands::VALUE_INSERT => Command::Insert,
        commands::VALUE_REMOVE => Command::Remove,
        _ => return Err(Refusal::UnknownCommand),
    };
    let named = read_packed(body, asked.next).map_err(Refusal::UnreadableProperty)?;
    let row = find(named.number).ok_or(Refusal::UnknownProperty)?;
    if !row.allows(command) {
        return Err(Refusal::NotAllowed);
    }
    Ok(Request::Reach {
        command,
        row,
        start: named.next,
    })
}
