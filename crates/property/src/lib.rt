// The property table (01, The property table): what each property holds, which commands it allows and whose value it is.
#![tactic(auto)]

pub mod commands;
mod number;
mod row;
pub mod slot;
mod status;

pub use commands::Command;
pub use number::{Number, is_within, number_at, power_state};
pub use row::{Kind, ReadOnly, Row, Scope, find};
pub use status::Status;
