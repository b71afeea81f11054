// The twenty rows (01, The property table).
ghost use Rattle.std.specs.Prelude.{◌≡◌};
ghost use Rattle.property.specs.Row.{lookup, allows};
ghost use Rattle.property.specs.Rule.{KeepsRule};

use crate::commands::Command;
use crate::slot;

// A property that no command changes.
#[derive(Clone, Copy, PartialEq, Eq)]
pub enum ReadOnly {
    LastStatus,
    ProtocolVersion,
    VersionText,
    InterfaceType,
    Vendor,
    Capabilities,
    InterfaceCount,
    HardwareAddress,
}

// What a property holds; a number, by its slot in a link.
#[derive(Clone, Copy, PartialEq, Eq)]
pub enum Kind {
    ReadOnly(ReadOnly),
    Power,
    Number(usize),
    Name,
    Ports,
}

// Whose value it is.
#[derive(Clone, Copy, PartialEq, Eq)]
pub enum Scope {
    Device,
    Link,
}

// The rule that `find` promises is no ghost field: `allows` takes any row, and a definition has one that breaks it (`no_row`).
#[derive(Clone, Copy, PartialEq, Eq)]
pub struct Row {
    pub id: u32,
    pub kind: Kind,
    pub get: bool,
    pub set: bool,
    // INSERT and REMOVE.
    pub items: bool,
    pub scope: Scope,
}

impl Row {
    pub const COUNT: usize = 20;

    #[tactic(auto, unfolding(crate::specs::Row::allows))]
    pub fn allows(self, command: Command) -> bool
        ensures { result ≡ allows self command }
    {
        match command {
            Command::Get => self.get,
            Command::Set => self.set,
            Command::Insert | Command::Remove => self.items,
        }
    }
}

// "Every property allows GET"; the commands beside it are by 01's column Writable. Constants, since a constant's value calls no function.
const READ_ONLY: Row = Row {
    id: 0,
    kind: Kind::ReadOnly(ReadOnly::LastStatus),
    get: true,
    set: false,
    items: false,
    scope: Scope::Device,
};

const SETTABLE: Row = Row {
    set: true,
    scope: Scope::Link,
    ..READ_ONLY
};

static ROWS: [Row; Row::COUNT] = [
    Row {
        id: 0,
        kind: Kind::ReadOnly(ReadOnly::LastStatus),
        scope: Scope::Link,
        ..READ_ONLY
    },
    Row {
        id: 1,
        kind: Kind::ReadOnly(ReadOnly::ProtocolVersion),
        ..READ_ONLY
    },
    Row {
        id: 2,
        kind: Kind::ReadOnly(ReadOnly::VersionText),
        ..READ_ONLY
    },
    Row {
        id: 3,
        kind: Kind::ReadOnly(ReadOnly::InterfaceType),
        ..READ_ONLY
    },
    Row {
        id: 4,
        kind: Kind::ReadOnly(ReadOnly::Vendor),
        ..READ_ONLY
    },
    Row {
        id: 5,
        kind: Kind::ReadOnly(ReadOnly::Capabilities),
        ..READ_ONLY
    },
    Row {
        id: 6,
        kind: Kind::ReadOnly(ReadOnly::InterfaceCount),
        ..READ_ONLY
    },
    Row {
        id: 7,
        kind: Kind::Power,
        scope: Scope::Device,
        ..SETTABLE
    },
    Row {
        id: 8,
        kind: Kind::ReadOnly(ReadOnly::HardwareAddress),
        ..READ_ONLY
    },
    Row {
        id: 32,
        kind: Kind::Number(slot::PHY_ENABLED),
        ..SETTABLE
    },
    Row {
        id: 33,
        kind: Kind::Number(slot::CHANNEL),
        ..SETTABLE
    },
    Row {
        id: 37,
        kind: Kind::Number(slot::TRANSMIT_POWER),
        ..SETTABLE
    },
    Row {
        id: 54,
        kind: Kind::Number(slot::PAN_ID),
        ..SETTABLE
    },
    Row {
        id: 65,
        kind: Kind::Number(slot::INTERFACE_UP),
        ..SETTABLE
    },
    Row {
        id: 66,
        kind: Kind::Number(slot::STACK_UP),
        ..SETTABLE
    },
    Row {
        id: 68,
        kind: Kind::Name,
        ..SETTABLE
    },
    Row {
        id: 92,
        kind: Kind::Ports,
        items: true,
        ..SETTABLE
    },
    Row {
        id: 94,
        kind: Kind::Number(slot::THREAD_MODE),
        ..SETTABLE
    },
    Row {
        id: 5376,
        kind: Kind::Number(slot::CHILD_TIMEOUT),
        ..SETTABLE
    },
    Row {
        id: 5377,
        kind: Kind::Number(slot::RLOC16),
        ..SETTABLE
    },
];

// The row of a property. A row that is found keeps the table's rule.
pub fn find(id: u32) -> Option<Row>
    ensures is { result ≡ lookup id }
    ensures rule { KeepsRule result }
{
    ROWS.iter().find(|row| row.id == id).copied()
}
