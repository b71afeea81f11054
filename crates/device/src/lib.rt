// The state of the box: what setup makes, what the rules allow, what a link holds and what it sees of the rest.
#![tactic(auto)]

pub mod ports;
mod rules;
mod set_up;
mod state;
pub mod text;
mod view;

pub use rules::stack_keeps;
pub use set_up::{BadSetup, Configured, setup};
pub use state::{Device, Held, Link, Padded, Settings, Text};
pub use view::{Effect, View};
