// A record of a capture log: a mark, a direction, a length and a body.
ghost use Rattle.std.specs.Prelude.{◌≡◌, ◌<◌, is_some, IfSome, MatchResult};
ghost use Rattle.capture.specs.declared.reading.ReadError.TheVariants.{OutOfRange};
ghost use Rattle.capture.specs.Records.{octet_of, is_in_range};

use crate::reading::ReadError;
use octets::Body;

// Where a body went.
#[derive(Clone, Copy, PartialEq, Eq)]
pub enum Direction {
    ToBox,
    FromBox,
}

impl From<Direction> for u8 {
    ghost from_gives = { λ d n. n ≡ octet_of d };

    // 02's number of a direction.
    fn from(direction: Direction) -> u8 {
        match direction {
            Direction::ToBox => 0,
            Direction::FromBox => 1,
        }
    }
}

impl TryFrom<u8> for Direction {
    type Error = ReadError;

    ghost try_from_gives = { λ n r. MatchResult r (λ d. octet_of d ≡ n) (λ e. (e ≡ OutOfRange) × (1 < n)) };

    fn try_from(octet: u8) -> Result<Direction, ReadError> {
        match octet {
            0 => Ok(Direction::ToBox),
            1 => Ok(Direction::FromBox),
            _ => Err(ReadError::OutOfRange),
        }
    }
}

// A record where it stands in a log.
#[derive(Clone, Copy)]
pub struct Record {
    pub direction: Direction,
    // Where its body starts, and how many octets that has.
    pub start: usize,
    pub len: usize,
    // The place after it.
    pub next: usize,
}

impl Record {
    // How many octets stand before a body: mark, direction and length.
    pub const HEAD_SIZE: usize = 5;

    // The longest record.
    pub const MAX_OCTETS: usize = Record::HEAD_SIZE + Body::MAX_OCTETS;
}

pub const MARK: [u8; 2] = *b"SP";

// The direction, where a record may have it and a body of so many octets.
pub fn in_range(direction: u8, len: usize) -> Option<Direction>
    ensures there { is_some result ≡ is_in_range direction len }
    ensures direction { IfSome result (λ d. octet_of d ≡ direction) }
{
    match len {
        Body::MIN_OCTETS..=Body::MAX_OCTETS => Direction::try_from(direction).ok(),
        _ => None,
    }
}
