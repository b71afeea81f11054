// Little-endian numbers of up to four octets, scans and comparisons of octets, the shape that every writer of octets has, and the limits of a body.
#![tactic(auto)]

mod body;
mod comparing;
mod finding;
mod little_endian;
mod scanning;
mod writing;

pub use body::Body;
pub use comparing::{common_front, same_octets};
pub use finding::find_octet;
pub use little_endian::{read_le, write_le};
pub use scanning::is_zero_from;
pub use writing::{write_octet, write_octets};
