// SET, by the kind of value.
ghost use Rattle.std.specs.Prelude.{true, ◌≡◌, ◌<◌, ◌≤◌};
ghost use Rattle.property.specs.Number.{slot_count};
ghost use Rattle.property.specs.Rule.{row_rule};
ghost use Rattle.device.specs.Rules.{link_rule};
ghost use Rattle.method.specs.Set.{value_in, set_number, set_power, set_name, set_ports, set_kind};

use crate::items::read_whole;
use crate::outcome::{Performed, done};
use device::ports::are_distinct;
use device::text::is_text;
use device::{Effect, Held, Link, stack_keeps};
use octets::find_octet;
use property::{Kind, Number, Row, Status, is_within, number_at, power_state};

// The number that a payload holds, whole.
#[tactic(auto, unfolding(crate::specs::Set::value_in, crate::specs::Items::whole))]
fn read_number(number: Number, payload: &[u8]) -> Result<u32, Status>
    requires { number.width ≤ 4 }
    ensures { result ≡ value_in number payload.now }
{
    let value = read_whole(payload, number.width)?;
    if !is_within(number, value) {
        return Err(number.outside);
    }
    Ok(value)
}

// Any of the nine numbers. Stack and interface are the only two that hang together: the numbers as they would be are tested.
#[tactic(auto, using(crate::proofs::StackAndInterface::conflict_read), unfolding(crate::specs::Set::set_number, crate::specs::Set::number_to))]
fn set_number(link: Link, slot: usize, payload: &[u8]) -> Result<Performed, Status>
    requires { (slot < slot_count) × (link_rule link ≡ true) }
    ensures { result ≡ set_number link slot payload.now }
{
    let value = read_number(number_at(slot), payload)?;
    let mut numbers = link.numbers;
    numbers[slot] = value;
    if !stack_keeps(numbers) {
        return Err(Status::InvalidState);
    }
    Ok(done(Link { numbers, ..link }))
}

// The power state is the whole box's: the link stays as it is.
#[tactic(auto, using(crate::proofs::LawsNumbers::power_most), unfolding(crate::specs::Set::set_power, crate::specs::Set::power_to))]
fn set_power(link: Link, payload: &[u8]) -> Result<Performed, Status>
    ensures { result ≡ set_power link payload.now }
{
    let value = read_number(power_state(), payload)?;
    Ok(Performed {
        effect: Effect::Powered(value as u8),
        link,
    })
}

#[tactic(auto, using(octets::proofs::LawsFinding::before_most, device::proofs::LawsRules::text_told), unfolding(crate::specs::Set::set_name))]
fn set_name(link: Link, payload: &[u8]) -> Result<Performed, Status>
    ensures { result ≡ set_name link payload.now }
{
    let end = find_octet(payload, 0, 0);
    if end + 1 != payload.len() {
        return Err(Status::ParseError);
    }
    let name = &payload[..end];
    if !is_text(name, Link::MAX_NAME) {
        return Err(Status::InvalidArgument);
    }
    Ok(done(Link {
        name: Held::of(name, b""),
        ..link
    }))
}

#[tactic(auto, using(crate::proofs::LawsItems::ports_count, device::proofs::LawsRules::padded_alone), unfolding(crate::specs::Set::set_ports))]
fn set_ports(link: Link, payload: &[u8]) -> Result<Performed, Status>
    ensures { result ≡ set_ports link payload.now }
{
    if payload.len() % 2 != 0 {
        return Err(Status::ParseError);
    }
    if !are_distinct(payload) {
        return Err(Status::InvalidArgument);
    }
    if 2 * Link::MAX_PORTS < payload.len() {
        return Err(Status::NoMem);
    }
    Ok(done(Link {
        ports: Held::of(payload, b""),
        ..link
    }))
}

#[tactic(auto, unfolding(crate::specs::Set::set_kind))]
pub fn set(link: Link, row: Row, payload: &[u8]) -> Result<Performed, Status>
    requires { (row_rule row ≡ true) × (link_rule link ≡ true) }
    ensures { result ≡ set_kind link row.kind payload.now }
{
    match row.kind {
        // Step 5 lets no SET of these through.
        Kind::ReadOnly(_) => Err(Status::InvalidCommandForProp),
        Kind::Power => set_power(link, payload),
        Kind::Number(slot) => set_number(link, slot, payload),
        Kind::Name => set_name(link, payload),
        Kind::Ports => set_ports(link, payload),
    }
}
