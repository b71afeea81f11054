// The frame of a body on a serial cable (01, Octets on the wire; RFC 1662): the frame check, the kinds of octets, the frame writer.
#![tactic(auto)]

mod fcs;
mod fcs_table;
mod frame;
mod kind;

pub use fcs::fcs16;
pub use frame::write_frame;
pub use kind::OctetKind;
