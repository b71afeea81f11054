// The box on a serial cable: the receiving call, which joins the frame reader to the command engine.
#![tactic(auto)]

mod receiving;

pub use receiving::{Received, Refusal, receive, receive_body};
