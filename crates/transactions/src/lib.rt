// The host's table of transaction numbers (02, T-06, which calls it the desk): each of 1 to 15 is free, waiting or given up.
#![tactic(auto)]

mod answer;
mod example;
mod in_place;
mod kind;
mod number_set;
mod receiving;
mod table;
mod writing;

pub use answer::{Answer, Refusal};
pub use in_place::{give_up, open, reply, reset};
pub use receiving::{Heard, ReceiveRefusal, Received, receive};
pub use table::{Step, Table};
pub use writing::{write_command, write_reset};
