// What a body asks, before its payload is looked at: steps 2 to 5 of 01, Commands.
#![tactic(auto)]

mod verdict;

pub use verdict::{Refusal, Request, verdict_of};
