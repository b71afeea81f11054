// The 16-bit frame check sequence of RFC 1662, an octet at a time by a table.
ghost use Rattle.std.specs.Prelude.{◌≡◌};
ghost use Rattle.frame.specs.Fcs.{fcs_octet, fcs};

use crate::fcs_table::FCS_TABLE;

// The register after one octet, which joins the low end: then the high octet moves down and meets the table's entry of the low one.
#[tactic(auto, using(crate::proofs::FcsTable::looked_up))]
fn fcs_octet(register: u16, octet: u8) -> u16
    ensures { result ≡ fcs_octet register octet }
{
    let x = register ^ u16::from(octet);
    (x / 256) ^ FCS_TABLE[usize::from(x % 256)]
}

// The check that is sent after the octets of a body.
#[tactic(auto, unfolding(crate::specs::Fcs::fcs, crate::specs::Fcs::fcs_from))]
pub fn fcs16(body: &[u8]) -> u16
    ensures { result ≡ fcs body.now }
{
    let mut r: u16 = 0xffff;
    for octet in body {
        r = fcs_octet(r, *octet);
    }
    r ^ 0xffff
}
