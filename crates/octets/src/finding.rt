// Looking for an octet.
ghost use Rattle.std.specs.Prelude.{◌≡◌, ◌+◌, ◌≤◌, length, drop};
ghost use Rattle.octets.specs.Finding.{before};

// The place of the first `octet` from `from` on, or the slice's length: a place in either case, as the promise counts it (`before`).
pub fn find_octet(octets: &[u8], from: usize, octet: u8) -> usize
    requires { from ≤ length octets.now }
    ensures { result ≡ from + before octet (drop from octets.now) }
{
    // A counted place: its step is what the edit `find_skips` turns, and in a chain only a closure that changes a capture could skip.
    let mut at = from;
    while at < octets.len() {
        if octets[at] == octet {
            return at;
        }
        at += 1;
    }
    at
}
