// Whether a type string is well-formed. A part is the whole string or what stands in a pair of brackets; `depth` is how many brackets
// more may be opened, and `in_array` tells a part that stands directly inside A(..).
ghost use Rattle.std.specs.Prelude.{◌≡◌, false, ◌≤◌, ◌<◌, length, drop};
ghost use Rattle.typestring.specs.Parse as parse;
ghost use Rattle.typestring.specs.Calls.{Scanned, Stepped};

use crate::kind::{ItemKind, kind_of};

// A type string is a slice; this type only has its limits.
#[derive(Clone, Copy)]
pub struct TypeString {}

impl TypeString {
    pub const MAX_OCTETS: usize = 64;
    // How many brackets may be open at once.
    pub const MAX_OPEN: usize = 4;
}

// Where an item ends, and whether it has to be the last of its part.
#[derive(Clone, Copy)]
pub enum Step {
    Next(usize),
    Last(usize),
}

#[tactic(auto, using(crate::proofs::LawsCheck::whole_ends), unfolding(crate::specs::Parse::type_of))]
pub fn is_type(types: &[u8]) -> bool
    ensures { result ≡ parse.is_type (parse.type_of types.now) }
{
    types.len() <= TypeString::MAX_OCTETS
        && check_sequence(types, 0, TypeString::MAX_OPEN, false) == Some(types.len())
}

// Whether a part ends at a place: there is a closing bracket, or the string's end.
#[tactic(auto, using(octets::proofs::LawsLists::drop_next), unfolding(crate::specs::Parse::ends_part))]
pub fn ends_part(types: &[u8], at: usize) -> bool
    requires { at ≤ length types.now }
    ensures { result ≡ parse.ends_part (drop at types.now) }
{
    at == types.len() || types[at] == b')'
}

// Where a part ends. The place, `depth` and `in_array` are no struct: each call changes one or two of them, and a literal that names all
// would be longer than the arguments are.
#[cycle(checking)]
fn check_sequence(types: &[u8], at: usize, depth: usize, in_array: bool) -> Option<usize>
    requires { at ≤ length types.now }
    ensures { Scanned types.now at (parse.part_at depth in_array (drop at types.now)) result }
{
    let mut next = at;
    while !ends_part(types, next) {
        match check_item(types, next, depth, in_array)? {
            Step::Next(end) => next = end,
            Step::Last(end) => return ends_part(types, end).then_some(end),
        }
    }
    Some(next)
}

#[cycle(checking)]
fn check_item(types: &[u8], at: usize, depth: usize, in_array: bool) -> Option<Step>
    requires { at < length types.now }
    ensures { Stepped types.now at (parse.item_at depth in_array (drop at types.now)) result }
{
    let after = at + 1;
    match kind_of(types[at])? {
        ItemKind::Value(_) => Some(Step::Next(after)),
        ItemKind::Struct => Some(Step::Next(check_inside(types, after, depth, false)?)),
        ItemKind::Rest if !in_array => Some(Step::Last(after)),
        ItemKind::Array if !in_array => Some(Step::Last(check_inside(types, after, depth, true)?)),
        // Directly inside A(..) there is no D and no A.
        _ => None,
    }
}

// The brackets at a place, with at least one item between them.
#[cycle(checking)]
fn check_inside(types: &[u8], at: usize, depth: usize, in_array: bool) -> Option<usize>
    requires { at ≤ length types.now }
    ensures { Scanned types.now at (parse.inside parse.part_at depth in_array (drop at types.now)) result }
{
    if depth == 0 || at == types.len() || types[at] != b'(' || ends_part(types, at + 1) {
        return None;
    }
    let end = check_sequence(types, at + 1, depth - 1, in_array)?;
    (end < types.len()).then_some(end + 1)
}
