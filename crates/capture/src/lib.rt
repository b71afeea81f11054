// Capture logs (02, T-05): records of the bodies that went to the box and came from it, written and read.
#![tactic(auto)]

mod reading;
mod records;
mod writing;

pub use reading::{ReadError, read_record};
pub use records::{Direction, Record};
pub use writing::{WriteError, write_record};
