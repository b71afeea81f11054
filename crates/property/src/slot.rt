// Where a link holds each of its nine numbers. A slot is a place in an array and no enum: `number_at` is promised for every place below nine
// (docs/PROMISES.md), and an enum would ask more of its callers.
pub const COUNT: usize = 9;

pub const PHY_ENABLED: usize = 0;

pub const CHANNEL: usize = 1;

pub const TRANSMIT_POWER: usize = 2;

pub const PAN_ID: usize = 3;

pub const INTERFACE_UP: usize = 4;

pub const STACK_UP: usize = 5;

pub const THREAD_MODE: usize = 6;

pub const CHILD_TIMEOUT: usize = 7;

pub const RLOC16: usize = 8;
