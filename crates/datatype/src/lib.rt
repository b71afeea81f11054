// Where the values of a payload stand by a type string (01, Type strings).
#![tactic(auto)]

mod leaf;
mod list;
mod reading;

pub use reading::{Payload, Refusal, read_typed};
