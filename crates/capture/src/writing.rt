// Writing a record into lent space.
ghost use Rattle.std.specs.Prelude.{true, ◌≡◌, ◌+◌, ◌≤◌, length};
ghost use Rattle.octets.specs.Writing.{Wrote};
ghost use Rattle.capture.specs.Records.{entry, record_of, is_in_range};
ghost use Rattle.capture.specs.Writing.{number_of, reported, writing};

use crate::records::{MARK, Record, in_range};
use octets::{write_le, write_octet, write_octets};

// Why a record is not written, with 02's number of each reason.
#[derive(Clone, Copy, PartialEq, Eq)]
pub enum WriteError {
    // A direction that is not 0 or 1, or a body that has not 2 to 1,300 octets.
    OutOfRange = 23,
    // The record does not fit between the place and the end of the space.
    NoRoom = 24,
}

impl WriteError {
    // 02's number of a refusal.
    pub fn number(self) -> u32
        ensures { result ≡ number_of self }
    {
        self as u32
    }
}

// The record, where there is room for it.
fn put_record(space: &mut [u8], at: usize, direction: u8, body: &[u8]) -> usize
    requires range { is_in_range direction (length body.now) ≡ true }
    requires room { at + length (record_of (entry direction body.now)) ≤ length space.old }
    ensures { Wrote space.old space.new at result (record_of (entry direction body.now)) }
{
    let at_direction = write_octets(space, at, &MARK);
    let at_len = write_octet(space, at_direction, direction);
    let at_body = write_le(space, at_len, body.len() as u32, 2);
    write_octets(space, at_body, body)
}

// Takes any space, any place, any direction and any body, so the direction is an octet here. Returns the place after the record.
pub fn write_record(
    space: &mut [u8],
    at: usize,
    direction: u8,
    body: &[u8],
) -> Result<usize, WriteError>
    ensures { reported result space.new ≡ writing space.old at direction body.now }
{
    if in_range(direction, body.len()).is_none() {
        return Err(WriteError::OutOfRange);
    }
    if space.len().saturating_sub(at) < Record::HEAD_SIZE + body.len() {
        return Err(WriteError::NoRoom);
    }
    Ok(put_record(space, at, direction, body))
}
