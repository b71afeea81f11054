// Packed integers, and why octets are none (02, T-07).
use crate::show;
use crate::show::Case;
use crate::text::{MAX_OCTETS, number, octets};
use packed::{Fault, Packed, read_packed, write_packed};
use std::io::Stdout;

// A number written, and what was written read back.
#[tactic(auto, using(packed::proofs::ReadsBack::packed_size))]
pub fn packed(case: Case) -> Option<()> {
    let n = number(case.text)?;
    if Packed::MAX < n {
        return None;
    }
    let mut out = [0u8; 3];
    let end = write_packed(&mut out, 0, n);
    let (octets, _) = out.split_at(end);
    case.show();
    let _ = print!(case.stdout; " =");
    show::octets(case.stdout, octets);
    let _ = print!(case.stdout; ", ");
    tell(case.stdout, read_packed(octets, 0));
    Some(())
}

pub fn read(case: Case) -> Option<()> {
    let mut out = [0u8; MAX_OCTETS];
    let octets = octets(case.text, &mut out)?;
    case.show();
    let _ = print!(case.stdout; ": ");
    tell(case.stdout, read_packed(octets, 0));
    Some(())
}

fn tell(stdout: Stdout, found: Result<Packed, Fault>) {
    match found {
        Ok(Packed { number, next }) => {
            let _ = print!(stdout; "{number} up to {next}");
        }
        Err(fault) => {
            let _ = print!(stdout; "unreadable{}", why(fault));
        }
    }
}

// The fault of a packed integer, where that is the cause.
pub fn cause(fault: Option<Fault>) -> &'static str {
    fault.map_or("", why)
}

fn why(fault: Fault) -> &'static str {
    match fault {
        Fault::RanOut => " (octets ran out)",
        Fault::GoesOn => " (a third octet with its top bit set)",
        Fault::NotShortest => " (a shorter spelling exists)",
    }
}
