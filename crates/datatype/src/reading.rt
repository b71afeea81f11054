// Reading a payload by a type string that is well-formed.
ghost use Rattle.std.specs.Prelude.{◌≡◌, drop, Err};
ghost use Rattle.typestring.specs.Grammar.{Item, Items};
ghost use Rattle.typestring.specs.Calls.{PartFrom, ItemFrom};
ghost use Rattle.datatype.specs.declared.reading.Refusal.TheVariants as refusal;
ghost use Rattle.datatype.specs.Answer.{reported, report_of, filled, answer_to};
ghost use Rattle.datatype.specs.Calls.{Room, ReadsPart, ReadsItem};

use crate::leaf::{Misfit, Part};
use crate::list::Read;
use packed::Fault;
use typestring::{ItemKind, TypeString, ends_part, is_type, item_end, kind_of};

// A payload is a slice; this type only has its limits.
#[derive(Clone, Copy)]
pub struct Payload {}

impl Payload {
    pub const MAX_OCTETS: usize = 1300;
    // A list of so many numbers has room for the leaves of any payload: there are never more of them than octets of the longest.
    pub const MAX_NUMBERS: usize = 3 * Payload::MAX_OCTETS;
}

// Why the public call found no leaves, with 01's number of each.
#[derive(Clone, Copy, PartialEq, Eq)]
pub enum Refusal {
    // 15: the type string is not well-formed.
    Malformed,
    // 16: the payload does not fit it; and the fault of a packed integer, where that is the first from the left.
    Misfit(Option<Fault>),
    // 17: the list has fewer than three numbers for each leaf.
    ShortList,
}

impl Refusal {
    // 01's number of the refusal.
    pub fn number(self) -> u32
        ensures { result ≡ (reported (Err self)).number }
    {
        match self {
            Refusal::Malformed => 15,
            Refusal::Misfit(_) => 16,
            Refusal::ShortList => 17,
        }
    }

    // The fault of a packed integer, where that is why the payload does not fit.
    pub fn cause(self) -> Option<Fault>
        ensures { result ≡ (reported (Err self)).cause }
    {
        match self {
            Refusal::Misfit(cause) => cause,
            Refusal::Malformed | Refusal::ShortList => None,
        }
    }
}

impl From<Misfit> for Refusal {
    ghost from_gives = { λ m r. r ≡ refusal.Misfit m.cause };

    fn from(misfit: Misfit) -> Refusal {
        Refusal::Misfit(misfit.cause)
    }
}

// Reads a payload by a type string, and tells how many leaves there are. They go to `list`, three numbers each: letter, start, length.
pub fn read_typed(types: &[u8], payload: &[u8], list: &mut [u32]) -> Result<usize, Refusal>
    ensures report { reported result ≡ report_of (answer_to types.now payload.now list.old) }
    ensures list { list.new ≡ filled list.old (answer_to types.now payload.now list.old) }
{
    if !is_type(types) {
        return Err(Refusal::Malformed);
    }
    if Payload::MAX_OCTETS < payload.len() {
        return Err(Refusal::Misfit(None));
    }
    let start = Read { next: 0, leaves: 0 };
    // A first reading, which is lent none of the list, only counts: a refusal has to leave the list as it was.
    let reached = read_sequence(types, 0, TypeString::MAX_OPEN, payload, start, &mut [])?;
    let counted = reached.filling(payload.len())?;
    if list.len() < 3 * counted.leaves {
        return Err(Refusal::ShortList);
    }
    // A second one comes to the same, and fills the list.
    let _ = read_sequence(types, 0, TypeString::MAX_OPEN, payload, start, list);
    Ok(counted.leaves)
}

// Reads on in a part of the payload by the items from `at` on; the depth is how many brackets more may be opened. Types, place and depth are
// no struct: the place changes alone in a loop and with the depth in brackets, and a literal that names all would be longer than they are.
#[cycle(reading_parts)]
fn read_sequence(
    types: &[u8],
    at: usize,
    depth: usize,
    part: &[u8],
    start: Read,
    list: &mut [u32],
) -> Result<Read, Misfit>
    requires { ((t : Items) × PartFrom (drop at types.now) depth t) × Room types.now part.now at start.next start.leaves }
    ensures { ReadsPart (drop at types.now) depth part.now start.next list.old list.new start.leaves result }
{
    let mut place = at;
    let mut read = start;
    while !ends_part(types, place) {
        read = read_item(types, place, depth, part, read, list)?;
        place = item_end(types, place);
    }
    Ok(read)
}

#[cycle(reading_parts)]
fn read_item(
    types: &[u8],
    at: usize,
    depth: usize,
    part: &[u8],
    start: Read,
    list: &mut [u32],
) -> Result<Read, Misfit>
    requires { ((i : Item) × ItemFrom (drop at types.now) depth i) × Room types.now part.now at start.next start.leaves }
    ensures { ReadsItem (drop at types.now) depth part.now start.next list.old list.new start.leaves result }
{
    let letter = types[at];
    let here = Part {
        octets: part,
        from: start.next,
    };
    match kind_of(letter).unwrap() {
        ItemKind::Value(value) => {
            let span = here.span_of(value)?;
            Ok(start.with_leaf(list, letter, span))
        }
        ItemKind::Rest => Ok(start.with_leaf(list, letter, here.rest())),
        ItemKind::Struct => {
            let contents = here.counted()?;
            let inside = Read {
                next: contents.start,
                ..start
            };
            let inner = &part[..contents.next];
            let reached = read_sequence(types, at + 2, depth - 1, inner, inside, list)?;
            reached.filling(contents.next)
        }
        ItemKind::Array => {
            let mut read = start;
            while read.next < part.len() {
                read = read_sequence(types, at + 2, depth - 1, part, read, list)?;
            }
            Ok(read)
        }
    }
}
