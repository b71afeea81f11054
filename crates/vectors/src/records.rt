// Records of a capture log, read and written at any place (02, T-05).
use crate::show;
use crate::show::Case;
use crate::text::{MAX_OCTETS, bare, cut, number, octets};
use capture::{ReadError, Record, WriteError, read_record, write_record};
use std::io::Stdout;

pub fn read(case: Case) -> Option<()> {
    let mut out = [0u8; MAX_OCTETS];
    let (at, log) = cut(case.text, b':')?;
    let at = number(at)?;
    let log = octets(log, &mut out)?;
    case.show();
    tell_found(case.stdout, read_record(log, at));
    Some(())
}

fn tell_found(stdout: Stdout, found: Result<Option<Record>, ReadError>) {
    match found {
        Ok(Some(record)) => {
            let _ = print!(stdout;
                " = 0 record, direction {}, start {}, length {}, next {}",
                u8::from(record.direction),
                record.start,
                record.len,
                record.next
            );
        }
        Ok(None) => {
            let _ = print!(stdout; " = 0 no more");
        }
        Err(error) => {
            let word = match error {
                ReadError::BadMark => "bad mark",
                ReadError::CutOff => "cut off",
                ReadError::OutOfRange => "out of range",
            };
            let _ = print!(stdout; " = {} {word}", error.number());
        }
    }
}

pub fn write(case: Case) -> Option<()> {
    let mut out = [0u8; MAX_OCTETS];
    let mut space = [0u8; MAX_OCTETS];
    let (head, parts) = cut(case.text, b':')?;
    let (at, direction) = cut(head, b' ')?;
    let at = number(at)?;
    let direction = number(direction)?;
    let (body, held) = cut(parts, b'|')?;
    let body = octets(bare(body), &mut out)?;
    let count = octets(bare(held), &mut space)?.len();
    let lent = space.get_mut(..count)?;
    case.show();
    tell_written(case.stdout, write_record(lent, at, direction, body));
    let _ = print!(case.stdout; ":");
    show::octets(case.stdout, lent);
    Some(())
}

fn tell_written(stdout: Stdout, written: Result<usize, WriteError>) {
    match written {
        Ok(next) => {
            let _ = print!(stdout; " = 0 written, next {next}");
        }
        Err(error) => {
            let word = match error {
                WriteError::OutOfRange => "out of range",
                WriteError::NoRoom => "no room",
            };
            let _ = print!(stdout; " = {} {word}, next 0", error.number());
        }
    }
}
