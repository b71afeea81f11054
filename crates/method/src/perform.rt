// A command on one property of a link: steps 6 to 8 of 01, Commands.
ghost use Rattle.std.specs.Prelude.{true, ◌≡◌};
ghost use Rattle.property.specs.Rule.{row_rule};
ghost use Rattle.device.specs.Rules.{link_rule};
ghost use Rattle.method.specs.Perform.{get_with, perform};

use crate::items::{insert, remove};
use crate::outcome::{Performed, done};
use crate::set::set;
use device::Link;
use property::{Command, Row, Status};

#[tactic(auto, unfolding(crate::specs::Perform::get_with))]
fn get(link: Link, payload: &[u8]) -> Result<Performed, Status>
    ensures { result ≡ get_with link payload.now }
{
    if !payload.is_empty() {
        return Err(Status::ParseError);
    }
    Ok(done(link))
}

// A refusal leaves the link as it was.
#[tactic(auto, unfolding(crate::specs::Perform::perform))]
pub fn perform_on(
    link: Link,
    command: Command,
    row: Row,
    payload: &[u8],
) -> Result<Performed, Status>
    requires { (row_rule row ≡ true) × (link_rule link ≡ true) }
    ensures { result ≡ perform link command row.kind payload.now }
{
    match command {
        Command::Get => get(link, payload),
        Command::Set => set(link, row, payload),
        Command::Insert => insert(link, payload),
        Command::Remove => remove(link, payload),
    }
}
