// Comparing two runs of octets.
ghost use Rattle.std.specs.Prelude.{◌≡◌};
ghost use Rattle.octets.specs.Comparing.{common_front, is_same};

// How many octets are the same at the two fronts.
pub fn common_front(a: &[u8], b: &[u8]) -> usize
    ensures { result ≡ common_front a.now b.now }
{
    // A counted place, as in `find_octet` and for the same reason.
    let mut at: usize = 0;
    while at < a.len() {
        if b.len() <= at {
            return at;
        }
        if a[at] != b[at] {
            return at;
        }
        at += 1;
    }
    at
}

// The slices' own `==`, for callers whose contracts speak of `is_same`.
#[tactic(auto, using(crate::proofs::LawsComparing::same_is))]
pub fn same_octets(a: &[u8], b: &[u8]) -> bool
    ensures { result ≡ is_same a.now b.now }
{
    a == b
}
