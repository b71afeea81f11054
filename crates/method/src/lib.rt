// A command on one property of one link: 000's property methods GET, SET, INSERT and REMOVE; steps 6 to 8 of 01, Commands.
#![tactic(auto)]

mod items;
mod outcome;
mod perform;
mod set;

pub use outcome::Performed;
pub use perform::perform_on;
