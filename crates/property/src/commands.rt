// Commands and their numbers (01, Commands), by 000's names.

// The commands that name a property. `request` tells all six numbers apart in one match, NOOP and RESET with them, and so needs no TryFrom.
#[derive(Clone, Copy, PartialEq, Eq)]
pub enum Command {
    Get,
    Set,
    Insert,
    Remove,
}

// Of requests, which come as packed integers.
pub const NOOP: u32 = 0;

pub const RESET: u32 = 1;

pub const VALUE_GET: u32 = 2;

pub const VALUE_SET: u32 = 3;

pub const VALUE_INSERT: u32 = 4;

pub const VALUE_REMOVE: u32 = 5;

// Of replies, which take one octet.
pub const VALUE_IS: u8 = 6;

pub const VALUE_INSERTED: u8 = 7;

pub const VALUE_REMOVED: u8 = 8;

// The header of link 0 and transaction 0: the two bits 10 that every Spinel header begins with.
pub const SPINEL_HEADER: u8 = 0x80;
