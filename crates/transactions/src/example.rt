// A table in a local, lent to each call: a question is opened under number 1 and given up, and then a body comes. No part of the interface: it
// shows that the contracts of the functions on a table in one place are what a caller needs.
ghost use Rattle.std.specs.Prelude.{◌≡◌};
ghost use Rattle.transactions.specs.Answer.{reported};
ghost use Rattle.transactions.specs.Table.{fresh, given_up, put, after_reply};

use crate::answer::{Answer, Refusal};
use crate::in_place::{give_up, open, reply};
use crate::table::Table;

pub fn first_given_up(body: &[u8]) -> Result<Answer, Refusal>
    ensures { reported result ≡ (after_reply (put fresh 1 given_up) body.now).report }
{
    let mut table = Table::fresh();
    open(&mut table)?;
    give_up(&mut table, 1)?;
    reply(&mut table, body)
}
