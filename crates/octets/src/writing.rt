// A writer puts octets into lent space from a place on and returns the place after them.
// Space and place stay two parameters: `Wrote` tells of both, and the promise of these calls stands as it is (docs/PROMISES.md).
ghost use Rattle.std.specs.Prelude.{[], ◌∷◌, ◌+◌, ◌≤◌, ◌<◌, length};
ghost use Rattle.octets.specs.Writing.{Wrote};

pub fn write_octet(out: &mut [u8], at: usize, octet: u8) -> usize
    requires { at < length out.old }
    ensures { Wrote out.old out.new at result (octet ∷ []) }
{
    out[at] = octet;
    at + 1
}

#[tactic(auto, using(crate::proofs::LawsWriting::put_part))]
pub fn write_octets(out: &mut [u8], at: usize, octets: &[u8]) -> usize
    requires { at + length octets.now ≤ length out.old }
    ensures { Wrote out.old out.new at result octets.now }
{
    out[at..at + octets.len()].copy_from_slice(octets);
    at + octets.len()
}
