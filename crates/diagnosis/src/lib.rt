// How far a body gets, told without carrying it out.
#![tactic(auto)]

mod classes;

pub use classes::{Class, classify};
