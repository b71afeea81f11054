// What the host sends: commands under a transaction number, and resets. A writer returns how many octets its frame takes, or None where it
// writes nothing.
ghost use Rattle.std.specs.Prelude.{Some, ◌≡◌, ◌≢◌};
ghost use Rattle.octets.specs.Body.{Body as IsBody};
ghost use Rattle.frame.specs.Frame.{written};
ghost use Rattle.transactions.specs.Writing.{count_of, is_sendable, writing_fitting, writing_command, writing_reset};

use crate::table::Table;
use frame::write_frame;
use octets::{Body, write_octet, write_octets};
use packed::{Packed, write_packed};

// A header has two bits for the link.
const MAX_LINK: u8 = 3;

// The longest frame: each octet of a body and of its check escaped, and two flags.
const MAX_FRAME: usize = 2 * Body::MAX_OCTETS + 6;

// Whether the link and the number fit a header, the number is one that is handed out, the command can be packed, and it is no RESET.
#[tactic(auto, unfolding(crate::specs::Writing::is_sendable))]
fn is_sendable(link: u8, number: u8, command: u32) -> bool
    ensures { result ≡ is_sendable link number command }
{
    link <= MAX_LINK
        && (1..=Table::MAX_NUMBER).contains(&number)
        && command <= Packed::MAX
        && command != 1
}

// Writes a body's frame where there is not room for every frame of its length. How long this one is shows when it is made, in a space of its own.
#[tactic(auto, using(frame::proofs::FrameBounds::frame_bounds))]
fn write_tight(body: &[u8], out: &mut [u8]) -> Option<usize>
    requires { IsBody body.now }
    ensures frame { written (count_of result) out.new ≡ writing_fitting body.now out.old }
    ensures some { result ≢ Some 0 }
{
    let mut space = [0u8; MAX_FRAME];
    let count = write_frame(body, &mut space);
    if out.len() < count {
        return None;
    }
    Some(write_octets(out, 0, &space[..count]))
}

// Writes a body's frame from the front of `out` where it fits; else writes nothing.
#[tactic(auto, using(frame::proofs::FrameBounds::frame_bounds, crate::proofs::LawsWriting::fits_written))]
fn write_fitting(body: &[u8], out: &mut [u8]) -> Option<usize>
    requires { IsBody body.now }
    ensures frame { written (count_of result) out.new ≡ writing_fitting body.now out.old }
    ensures some { result ≢ Some 0 }
{
    if out.len() < 2 * body.len() + 6 {
        return write_tight(body, out);
    }
    Some(write_frame(body, out))
}

// Writes the frame of a command on a link, under a number that the table handed out. Writes nothing where the link is above 3, the number
// is not 1 to 15, the command is above 2,097,151 or RESET, the body would be longer than 1,300 octets, or its frame does not fit.
#[tactic(auto, using(crate::proofs::LawsWriting::sendable_told, packed::proofs::ReadsBack::packed_size, crate::proofs::LawsWriting::command_none))]
pub fn write_command(
    link: u8,
    number: u8,
    command: u32,
    payload: &[u8],
    out: &mut [u8],
) -> Option<usize>
    ensures frame { written (count_of result) out.new ≡ writing_command link number command payload.now out.old }
    ensures some { result ≢ Some 0 }
{
    if !is_sendable(link, number, command) {
        return None;
    }
    let mut body = [0u8; Body::MAX_OCTETS];
    let at_command = write_octet(&mut body, 0, 128 + 16 * link + number);
    let at_payload = write_packed(&mut body, at_command, command);
    if Body::MAX_OCTETS - at_payload < payload.len() {
        return None;
    }
    let end = write_octets(&mut body, at_payload, payload);
    write_fitting(&body[..end], out)
}

// Writes the frame of a reset, 80 01, which the table is asked to allow first. Writes nothing where it does not fit.
pub fn write_reset(out: &mut [u8]) -> Option<usize>
    ensures frame { written (count_of result) out.new ≡ writing_reset out.old }
    ensures some { result ≢ Some 0 }
{
    write_fitting(&[0x80, 0x01], out)
}
