// Packed unsigned integers (01, Packed integers; 000, section 3.2): seven bits an octet, the least significant first, the top bit set
// on all but the last; 1 to 3 octets, and no more of them than the number needs.
#![tactic(auto)]

ghost use Rattle.std.specs.Prelude.{◌≡◌, ◌+◌, ◌≤◌, length};
ghost use Rattle.octets.specs.Writing.{Wrote};
ghost use Rattle.packed.specs.Packed.{packed, packed_at, max_packed};

use octets::write_octet;

// Why octets at a place are no packed integer.
#[derive(Clone, Copy, PartialEq, Eq)]
pub enum Fault {
    // The octets ran out: there is none, or one or two that all have the top bit set.
    RanOut,
    // The third octet still has its top bit set: the number goes on past it.
    GoesOn,
    // A shorter spelling exists.
    NotShortest,
}

// The number that stands at a place, and the place after it.
#[derive(Clone, Copy, PartialEq, Eq)]
pub struct Packed {
    pub number: u32,
    pub next: usize,
}

impl Packed {
    // The largest number that three octets hold.
    pub const MAX: u32 = 2097151;
}

pub fn read_packed(octets: &[u8], at: usize) -> Result<Packed, Fault>
    ensures { result ≡ packed_at octets.now at }
{
    let mut number = 0;
    let mut next = at;
    for scale in [1, 128, 16384] {
        let octet = u32::from(*octets.get(next).ok_or(Fault::RanOut)?);
        next += 1;
        // A last octet of 0 after others adds nothing: a shorter spelling exists.
        if octet == 0 && 1 < scale {
            return Err(Fault::NotShortest);
        }
        if octet < 128 {
            return Ok(Packed {
                number: number + scale * octet,
                next,
            });
        }
        number += scale * (octet - 128);
    }
    Err(Fault::GoesOn)
}

// Writes a number of at most 2,097,151 in the fewest octets.
pub fn write_packed(out: &mut [u8], at: usize, n: u32) -> usize
    requires { (n ≤ max_packed) × (at + length (packed n) ≤ length out.old) }
    ensures { Wrote out.old out.new at result (packed n) }
{
    let mut rest = n;
    let mut to = at;
    while 128 <= rest {
        to = write_octet(out, to, (rest % 128 + 128) as u8);
        rest /= 128;
    }
    write_octet(out, to, rest as u8)
}
