// Spinel type strings (01, Type strings): their letters, which strings are well-formed, and where an item ends.
#![tactic(auto)]

mod brackets;
mod check;
mod kind;

pub use brackets::item_end;
pub use check::{TypeString, ends_part, is_type};
pub use kind::{ItemKind, Value, kind_of};
