// Octets as lines of hex: written, and read.
#![tactic(auto)]

mod line;
mod reader;

pub use line::write_line;
pub use reader::{HexLine, LineReader, Stage, read_line};
