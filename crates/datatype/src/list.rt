// The lent list of leaves, three numbers a leaf: letter, start, length. It is a list of numbers, whole leaves or not: 01 lends it so.
ghost use Rattle.std.specs.Prelude.{◌≡◌, ◌+◌, ◌≤◌, set, Ok};
ghost use Rattle.typestring.specs.Grammar.{max_octets};
ghost use Rattle.datatype.specs.Answer.{max_payload};
ghost use Rattle.datatype.specs.Reading.{leaf_reads};
ghost use Rattle.datatype.specs.Calls.{Small, Did, filling_to};

use crate::leaf::{Misfit, Span};

// What reading has come to: the place reached in the payload and the number of leaves so far.
#[derive(Clone, Copy)]
pub struct Read {
    pub next: usize,
    pub leaves: usize,
}

impl Read {
    // A reading has to reach the end of its part.
    pub fn filling(self, stop: usize) -> Result<Read, Misfit>
        ensures { result ≡ filling_to stop self }
    {
        if self.next == stop {
            Ok(self)
        } else {
            Err(Misfit { cause: None })
        }
    }

    // The leaf of a value, behind the leaves so far. Its numbers are stored as far as the list goes.
    pub fn with_leaf(self, list: &mut [u32], letter: u8, span: Span) -> Read
        requires { (self.leaves ≤ max_payload + max_octets) × Small span }
        ensures { Did (leaf_reads letter (Ok span)) list.old list.new self.leaves (Ok result) }
    {
        let at = 3 * self.leaves;
        put_number(list, at, u32::from(letter));
        put_number(list, at + 1, span.start as u32);
        put_number(list, at + 2, span.size as u32);
        Read {
            next: span.next,
            leaves: self.leaves + 1,
        }
    }
}

// By index: with `get_mut` the check does not see that a list with no such place stays as it was.
fn put_number(list: &mut [u32], at: usize, n: u32)
    ensures { list.new ≡ set list.old at n }
{
    if at < list.len() {
        list[at] = n;
    }
}
