// The octets of a reply: the value that a property holds, and the body around it.
#![tactic(auto)]

mod reply;
mod value;

pub use reply::{Asked, write_reply, write_status};
