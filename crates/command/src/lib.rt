// A body on one link: what it asks, what that comes to, and the octets of its reply; steps 2 to 8 of 01, Commands.
#![tactic(auto)]

mod decision;

pub use decision::{Decided, decide};
