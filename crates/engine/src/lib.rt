// The command engine: one checked body in, one reply body and the next state of the box out.
#![tactic(auto)]

mod engine;
mod marked;

pub use engine::{Answered, answer};
pub use marked::two_links;
