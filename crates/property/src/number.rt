// The numbers that are held, and the values that each may have (01, The property table).
ghost use Rattle.std.specs.Prelude.{◌≡◌, ◌<◌, true};
ghost use Rattle.property.specs.Number.{number_at, power_state, within, slot_count};
ghost use Rattle.property.specs.Rule.{number_rule};

use crate::slot;
use crate::status::Status;

// A number, and the values that it may have: from low to high, or where low is above high from low to top and from 0 to high.
#[derive(Clone, Copy, PartialEq, Eq)]
pub struct Number {
    // How many octets it has.
    pub width: usize,
    pub low: u32,
    pub high: u32,
    // The largest number of the width.
    pub top: u32,
    // The status of any other value.
    pub outside: Status,
    pub default: u32,
}

// "A bool not 00 or 01: 9".
const BOOL: Number = Number {
    width: 1,
    low: 0,
    high: 1,
    top: 255,
    outside: Status::ParseError,
    default: 0,
};

// Any octet; of a narrower number, "value out of range: 3".
const OCTET: Number = Number {
    width: 1,
    low: 0,
    high: 255,
    top: 255,
    outside: Status::InvalidArgument,
    default: 0,
};

const TWO_OCTETS: Number = Number {
    width: 2,
    high: 65535,
    top: 65535,
    ..OCTET
};

static NUMBERS: [Number; slot::COUNT] = [
    // PHY enabled.
    BOOL,
    // Channel.
    Number {
        low: 11,
        high: 26,
        default: 11,
        ..OCTET
    },
    // Transmit power, a signed octet from -40 (216) to 8.
    Number {
        low: 216,
        high: 8,
        ..OCTET
    },
    // PAN id.
    Number {
        default: 65535,
        ..TWO_OCTETS
    },
    // Interface up.
    BOOL,
    // Stack up.
    BOOL,
    // Thread mode.
    OCTET,
    // Child timeout.
    Number {
        width: 4,
        high: 4294967295,
        top: 4294967295,
        default: 240,
        ..OCTET
    },
    // RLOC16.
    Number {
        default: 65534,
        ..TWO_OCTETS
    },
];

// The number in a slot of a link.
pub fn number_at(slot: usize) -> Number
    requires { slot < slot_count }
    ensures is { result ≡ number_at slot }
    ensures rule { number_rule result ≡ true }
{
    NUMBERS[slot]
}

// The power state, which is the whole device's.
pub fn power_state() -> Number
    ensures { result ≡ power_state }
{
    Number {
        high: 4,
        default: 4,
        ..OCTET
    }
}

// Whether a number may have a value.
#[tactic(auto, unfolding(crate::specs::Number::within))]
pub fn is_within(number: Number, value: u32) -> bool
    ensures { result ≡ within number value }
{
    let Number { low, high, top, .. } = number;
    let inside = if low <= high {
        (low..=high).contains(&value)
    } else {
        value <= high || low <= value
    };
    inside && value <= top
}
