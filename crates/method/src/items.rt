// INSERT and REMOVE. The ports are the only property with items.
ghost use Rattle.std.specs.Prelude.{true, ◌≡◌, ◌+◌, ◌≤◌, length};
ghost use Rattle.device.specs.Rules.{link_rule};
ghost use Rattle.device.specs.State.{held_from, max_held};
ghost use Rattle.method.specs.Items.{whole, insert_port, without, remove_port};

use crate::outcome::{Performed, done};
use device::ports::find_port;
use device::{Held, Link};
use octets::read_le;
use property::Status;

// The number that a payload of so many octets holds.
#[tactic(auto, using(crate::proofs::LawsNumbers::le_whole), unfolding(crate::specs::Items::whole))]
pub fn read_whole(payload: &[u8], width: usize) -> Result<u32, Status>
    requires { width ≤ 4 }
    ensures { result ≡ whole width payload.now }
{
    if payload.len() != width {
        return Err(Status::ParseError);
    }
    Ok(read_le(payload, 0, width))
}

#[tactic(auto, using(device::proofs::LawsPorts::place_held, device::proofs::StateRules::ports_room, device::proofs::StateRules::ports_even, crate::proofs::LawsItems::ports_count, crate::proofs::LawsItems::port_read), unfolding(crate::specs::Items::insert_port, crate::specs::Items::whole))]
pub fn insert(link: Link, payload: &[u8]) -> Result<Performed, Status>
    requires { link_rule link ≡ true }
    ensures { result ≡ insert_port link payload.now }
{
    let port = read_whole(payload, 2)?;
    let held = link.ports.octets();
    if find_port(held, port).is_some() {
        return Err(Status::Already);
    }
    if 2 * Link::MAX_PORTS <= held.len() {
        return Err(Status::NoMem);
    }
    Ok(done(Link {
        ports: Held::of(held, payload),
        ..link
    }))
}

// All but the two octets at a place; what stood behind them moves up.
#[tactic(auto, using(octets::proofs::LawsLists::take_rest), unfolding(crate::specs::Items::without))]
fn close_gap(octets: &[u8], at: usize) -> Held
    requires { (at + 2 ≤ length octets.now) × (length octets.now ≤ max_held) }
    ensures { result ≡ held_from (without at octets.now) }
{
    Held::of(&octets[..at], &octets[at + 2..])
}

#[tactic(auto, using(device::proofs::LawsPorts::place_told, device::proofs::LawsPorts::place_none, device::proofs::StateRules::ports_room, crate::proofs::LawsItems::port_inside, crate::proofs::LawsItems::port_read), unfolding(crate::specs::Items::remove_port, crate::specs::Items::whole))]
pub fn remove(link: Link, payload: &[u8]) -> Result<Performed, Status>
    requires { link_rule link ≡ true }
    ensures { result ≡ remove_port link payload.now }
{
    let port = read_whole(payload, 2)?;
    let held = link.ports.octets();
    let at = find_port(held, port).ok_or(Status::ItemNotFound)?;
    Ok(done(Link {
        ports: close_gap(held, at),
        ..link
    }))
}
