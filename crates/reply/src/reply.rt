// Reply bodies, from the front of the space lent for them.
ghost use Rattle.std.specs.Prelude.{true, ◌≡◌, ◌+◌, ◌≤◌, length};
ghost use Rattle.octets.specs.Writing.{Wrote};
ghost use Rattle.property.specs.Rule.{row_rule};
ghost use Rattle.device.specs.State.{max_reply};
ghost use Rattle.device.specs.Rules.{settings_rule, link_rule};
ghost use Rattle.reply.specs.Reply.{status_reply, reply_command, content, success_reply, max_content};

use crate::value::write_value;
use device::View;
use octets::{write_octet, write_octets};
use packed::write_packed;
use property::{Command, Row, commands};

// A command on a property, with the header that its reply repeats.
#[derive(Clone, Copy)]
pub struct Asked<'a> {
    pub header: u8,
    pub command: Command,
    pub row: Row,
    pub payload: &'a [u8],
}

// Property 0 and a status below 128, both one octet packed.
#[tactic(auto, unfolding(crate::specs::Reply::status_reply))]
pub fn write_status(out: &mut [u8], header: u8, status: u8) -> usize
    requires { 4 ≤ length out.old }
    ensures { Wrote out.old out.new 0 result (status_reply header status) }
{
    write_octets(out, 0, &[header, commands::VALUE_IS, 0, status])
}

#[tactic(auto, unfolding(crate::specs::Reply::reply_command))]
fn reply_command(command: Command) -> u8
    ensures { result ≡ reply_command command }
{
    match command {
        Command::Get | Command::Set => commands::VALUE_IS,
        Command::Insert => commands::VALUE_INSERTED,
        Command::Remove => commands::VALUE_REMOVED,
    }
}

// The value held, or the item, which is the payload.
#[tactic(auto, unfolding(crate::specs::Reply::content))]
fn write_content(out: &mut [u8], at: usize, view: View, asked: Asked) -> usize
    requires rules { (settings_rule view.settings ≡ true) × (link_rule view.link ≡ true) × (row_rule asked.row ≡ true) }
    requires room { (at + max_content ≤ length out.old) × (at + length (content view asked.command asked.row.kind asked.payload.now) ≤ length out.old) }
    ensures { Wrote out.old out.new at result (content view asked.entry.command asked.entry.row.kind asked.entry.payload.now) }
{
    match asked.command {
        Command::Get | Command::Set => write_value(out, at, view, asked.row),
        Command::Insert | Command::Remove => write_octets(out, at, asked.payload),
    }
}

#[tactic(auto, using(packed::proofs::ReadsBack::packed_size, property::proofs::TableRule::small_id), unfolding(crate::specs::Reply::success_reply))]
pub fn write_reply(out: &mut [u8], view: View, asked: Asked) -> usize
    requires rules { (settings_rule view.settings ≡ true) × (link_rule view.link ≡ true) × (row_rule asked.row ≡ true) }
    requires room { (max_reply ≤ length out.old) × (length (content view asked.command asked.row.kind asked.payload.now) ≤ max_content) }
    ensures { Wrote out.old out.new 0 result (success_reply view asked.entry.header asked.entry.command asked.entry.row asked.entry.payload.now) }
{
    let header_end = write_octet(out, 0, asked.header);
    let command_end = write_octet(out, header_end, reply_command(asked.command));
    let start = write_packed(out, command_end, asked.row.id);
    write_content(out, start, view, asked)
}
