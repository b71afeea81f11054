// Reading the record at a place of a log.
ghost use Rattle.std.specs.Prelude.{◌≡◌};
ghost use Rattle.capture.specs.Reading.{number_of, reported, read_at};

use crate::records::{MARK, Record, in_range};

// What is wrong at a place of a log, with 02's number of each fault.
#[derive(Clone, Copy, PartialEq, Eq)]
pub enum ReadError {
    // Another mark than 53 50.
    BadMark = 21,
    // A place past the end, under five octets, or fewer than the length says.
    CutOff = 22,
    // A direction that is not 0 or 1, or a length that is not 2 to 1,300.
    OutOfRange = 23,
}

impl ReadError {
    // 02's number of a refusal. Each enum of refusals tells its own (docs/PROMISES.md): a trait for the one line would have to be imported.
    pub fn number(self) -> u32
        ensures { result ≡ number_of self }
    {
        self as u32
    }
}

// Takes any octets and any place. None where the log ends there.
pub fn read_record(log: &[u8], at: usize) -> Result<Option<Record>, ReadError>
    ensures { reported result ≡ read_at log.now at }
{
    let rest = log.get(at..).ok_or(ReadError::CutOff)?;
    if rest.is_empty() {
        return Ok(None);
    }
    let [first, second, direction, low, high, body @ ..] = rest else {
        return Err(ReadError::CutOff);
    };
    if [*first, *second] != MARK {
        return Err(ReadError::BadMark);
    }
    let len = usize::from(u16::from_le_bytes([*low, *high]));
    let direction = in_range(*direction, len).ok_or(ReadError::OutOfRange)?;
    if body.len() < len {
        return Err(ReadError::CutOff);
    }
    let start = at + Record::HEAD_SIZE;
    Ok(Some(Record {
        direction,
        start,
        len,
        next: start + len,
    }))
}
