// The octets of the value that a property holds.
ghost use Rattle.std.specs.Prelude.{true, [], ◌∷◌, ◌++◌, ◌≡◌, ◌+◌, ◌≤◌, ◌<◌, length};
ghost use Rattle.octets.specs.Writing.{Wrote};
ghost use Rattle.property.specs.Number.{slot_count};
ghost use Rattle.property.specs.Rule.{row_rule};
ghost use Rattle.device.specs.Rules.{settings_rule, link_rule};
ghost use Rattle.reply.specs.Reply.{max_content};
ghost use Rattle.reply.specs.Value.{fixed_value, number_value, value_of};

use device::View;
use octets::{write_le, write_octet, write_octets};
use packed::write_packed;
use property::{Kind, ReadOnly, Row, number_at};

// A text and the zero that ends it. Like all below, it asks for room in a clause: `write_reply` is promised for any space with room.
fn write_text(out: &mut [u8], at: usize, text: &[u8]) -> usize
    requires { at + length text.now < length out.old }
    ensures { Wrote out.old out.new at result (text.now ++ (0 ∷ [])) }
{
    let end = write_octets(out, at, text);
    write_octet(out, end, 0)
}

#[tactic(auto, using(packed::proofs::ReadsBack::packed_size, device::proofs::StateRules::settings_told), unfolding(crate::specs::Value::fixed_value))]
fn write_fixed(out: &mut [u8], at: usize, view: View, fixed: ReadOnly) -> usize
    requires { (settings_rule view.settings ≡ true) × (at + max_content ≤ length out.old) }
    ensures { Wrote out.old out.new at result (fixed_value view fixed) }
{
    match fixed {
        ReadOnly::LastStatus => write_packed(out, at, u32::from(view.link.status)),
        ReadOnly::ProtocolVersion => write_octets(out, at, b"\x04\x03"),
        ReadOnly::VersionText => write_text(out, at, view.settings.text.octets()),
        ReadOnly::InterfaceType => write_octet(out, at, 3),
        ReadOnly::Vendor => write_packed(out, at, view.settings.vendor),
        ReadOnly::Capabilities => write_octets(out, at, b"\x18\x34"),
        ReadOnly::InterfaceCount => write_octet(out, at, view.settings.links as u8),
        ReadOnly::HardwareAddress => write_octets(out, at, &view.settings.address),
    }
}

#[tactic(auto, using(property::proofs::TableRule::width_most), unfolding(crate::specs::Value::number_value))]
fn write_number(out: &mut [u8], at: usize, view: View, slot: usize) -> usize
    requires { (slot < slot_count) × (at + 4 ≤ length out.old) }
    ensures { Wrote out.old out.new at result (number_value view slot) }
{
    write_le(out, at, view.link.numbers[slot], number_at(slot).width)
}

#[tactic(auto, using(device::proofs::StateRules::name_room, device::proofs::StateRules::ports_room, property::proofs::TableRule::slot_below), unfolding(crate::specs::Value::value_of))]
pub fn write_value(out: &mut [u8], at: usize, view: View, row: Row) -> usize
    requires { (settings_rule view.settings ≡ true) × (link_rule view.link ≡ true) × (row_rule row ≡ true) × (at + max_content ≤ length out.old) }
    ensures { Wrote out.old out.new at result (value_of view row.kind) }
{
    match row.kind {
        Kind::ReadOnly(fixed) => write_fixed(out, at, view, fixed),
        Kind::Power => write_octet(out, at, view.power),
        Kind::Number(slot) => write_number(out, at, view, slot),
        Kind::Name => write_text(out, at, view.link.name.octets()),
        Kind::Ports => write_octets(out, at, view.link.ports.octets()),
    }
}
