// The frame writer.
ghost use Rattle.std.specs.Prelude.{◌≡◌, ◌+◌, ◌≤◌, length};
ghost use Rattle.octets.specs.Body.{Body};
ghost use Rattle.octets.specs.Writing.{Wrote};
ghost use Rattle.frame.specs.Frame.{sent, stuffed, frame, written, writing};

use crate::fcs::fcs16;
use crate::kind::OctetKind;
use octets::write_octet;

// One octet, escaped where it must be.
#[tactic(auto, using(octets::proofs::LawsWriting::wrote_both), unfolding(crate::specs::Frame::sent, crate::specs::Kind::kind_of))]
fn write_escaped(out: &mut [u8], at: usize, octet: u8) -> usize
    requires { at + length (sent octet) ≤ length out.old }
    ensures { Wrote out.old out.new at result (sent octet) }
{
    if OctetKind::from(octet) == OctetKind::Plain {
        return write_octet(out, at, octet);
    }
    let next = write_octet(out, at, 0x7d);
    write_octet(out, next, octet ^ 0x20)
}

// Octets, each escaped where it must be.
#[tactic(auto, using(crate::proofs::LawsFrame::stuffed_next), unfolding(crate::specs::Frame::stuffed))]
fn write_stuffed(out: &mut [u8], at: usize, octets: &[u8]) -> usize
    requires { at + length (stuffed octets.now) ≤ length out.old }
    ensures { Wrote out.old out.new at result (stuffed octets.now) }
{
    let mut next = at;
    for octet in octets {
        next = write_escaped(out, next, *octet);
    }
    next
}

// Writes a body's frame from the front of `out` and returns how many octets it takes. A body is a slice, as whoever has it lends it, and no
// type: that it has 2 to 1,300 octets is asked where it is framed.
pub fn write_frame(body: &[u8], out: &mut [u8]) -> usize
    requires { Body body.now × (length (frame body.now) ≤ length out.old) }
    ensures { written result out.new ≡ writing body.now out.old }
{
    let check = fcs16(body).to_le_bytes();
    let at_body = write_octet(out, 0, 0x7e);
    let at_check = write_stuffed(out, at_body, body);
    let at_flag = write_stuffed(out, at_check, &check);
    write_octet(out, at_flag, 0x7e)
}
