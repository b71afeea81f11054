// Assisting ports, as octets: each a little-endian number of two. The loops take two octets off the front, as the definitions do;
// `chunks_exact` was tried, and its clause does not join to them.
ghost use Rattle.std.specs.Prelude.{◌≡◌};
ghost use Rattle.device.specs.Ports.{ports_in, distinct, port_place};

use octets::read_le;

// The place of a port's first octet, if it is there.
#[tactic(auto, using(crate::proofs::LawsPorts::behind_length, crate::proofs::LawsPorts::port_here, crate::proofs::LawsPorts::port_on, crate::proofs::LawsPorts::port_none), unfolding(crate::specs::Ports::port_place))]
pub fn find_port(octets: &[u8], port: u32) -> Option<usize>
    ensures { result ≡ port_place port octets.now }
{
    let mut rest = octets;
    while let [_, _, behind @ ..] = rest {
        if read_le(rest, 0, 2) == port {
            return Some(octets.len() - rest.len());
        }
        rest = behind;
    }
    None
}

// Whether no port stands twice.
#[tactic(auto, using(crate::proofs::LawsPorts::distinct_next, crate::proofs::LawsPorts::distinct_none, crate::proofs::LawsPorts::place_held))]
pub fn are_distinct(octets: &[u8]) -> bool
    ensures { result ≡ distinct (ports_in octets.now) }
{
    let mut rest = octets;
    while let [_, _, behind @ ..] = rest {
        if find_port(behind, read_le(rest, 0, 2)).is_some() {
            return false;
        }
        rest = behind;
    }
    true
}
