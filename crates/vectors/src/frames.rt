// Frame checks, and frames as they are written.
ghost use Rattle.std.specs.Prelude.{true, ◌≡◌};
ghost use Rattle.octets.specs.Body.{Body};

use crate::show;
use crate::show::{Case, MAX_SHOWN};
use crate::text::{MAX_OCTETS, after_word, octets};
use frame::{fcs16, write_frame};
use hdlc::Reader;

pub fn check(case: Case) -> Option<()> {
    let mut out = [0u8; MAX_OCTETS];
    let octets = octets(case.text, &mut out)?;
    case.show();
    let _ = print!(case.stdout; " = {:04x}", fcs16(octets));
    Some(())
}

#[tactic(auto, using(frame::proofs::FrameBounds::frame_bounds), unfolding(frame::specs::Frame::writing))]
pub fn frame(case: Case) -> Option<()> {
    let mut space = [0u8; MAX_OCTETS];
    let body = octets(after_word(case.text, b"of")?, &mut space)?;
    if !is_body(body) {
        return None;
    }
    let mut out = [0u8; MAX_SHOWN];
    let count = write_frame(body, &mut out);
    case.show();
    let _ = print!(case.stdout; " =");
    show::octets(case.stdout, &out[..count]);
    let _ = print!(case.stdout; ", {count} octets");
    Some(())
}

// Whether octets are as many as a body has.
pub fn is_body(octets: &[u8]) -> bool
    ensures { result ≡ true → Body octets.now }
{
    matches!(octets.len(), 2..=Reader::MAX_BODY)
}
