// A test at every octet of a run.
ghost use Rattle.std.specs.Prelude.{◌≡◌, ◌≤◌, length};
ghost use Rattle.octets.specs.Scanning.{zeros_from};

// Whether every octet from `from` on is zero.
pub fn is_zero_from(octets: &[u8], from: usize) -> bool
    requires { from ≤ length octets.now }
    ensures { result ≡ zeros_from from octets.now }
{
    octets[from..].iter().all(|octet| *octet == 0)
}
