// The table kept in one place and changed where it stands, as a host's main loop keeps it. Each function is the method of its name. A table is
// `Copy`: a host that cannot send what it opened a number for puts back the one that it had before.
ghost use Rattle.std.specs.Prelude.{◌≡◌};
ghost use Rattle.transactions.specs.Table.{numbers_of, result as outcome, after_open, after_reset, after_give_up, after_reply};

use crate::answer::{Answer, Refusal};
use crate::table::{Step, Table};

// One call on the table where it stands.
fn change<F: FnOnce(Table) -> Step>(table: &mut Table, call: F) -> Result<Answer, Refusal>
    requires { F.pre call table.old }
    ensures { F.post call table.old (record { answer = result; table = table.new }) }
{
    let next = call(*table);
    *table = next.table;
    next.answer
}

pub fn open(table: &mut Table) -> Result<Answer, Refusal>
    ensures { outcome result table.new ≡ after_open (numbers_of table.old) }
{
    change(table, |table| table.open())
}

pub fn reset(table: &mut Table) -> Result<Answer, Refusal>
    ensures { outcome result table.new ≡ after_reset (numbers_of table.old) }
{
    change(table, |table| table.reset())
}

pub fn give_up(table: &mut Table, number: u8) -> Result<Answer, Refusal>
    ensures { outcome result table.new ≡ after_give_up (numbers_of table.old) number }
{
    change(table, |table| table.give_up(number))
}

pub fn reply(table: &mut Table, body: &[u8]) -> Result<Answer, Refusal>
    ensures { outcome result table.new ≡ after_reply (numbers_of table.old) body.now }
{
    change(table, |table| table.reply(body))
}
