// HDLC-like framing of Spinel bodies on a serial cable (01, Octets on the wire): the frame reader.
#![tactic(auto)]

mod reader;

pub use reader::{Fate, Reader, Reading, read_frame};
