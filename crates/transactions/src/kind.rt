// What a body that comes from the box is to the table.
ghost use Rattle.std.specs.Prelude.{◌≡◌};

use octets::Body;

// Three cases and no Option: 02 has a rule for each, also for what is no Spinel body.
#[derive(Clone, Copy, PartialEq, Eq)]
pub enum BodyKind {
    // The announcement of a reset.
    Announcement,
    // A reply under this number, which may be 0.
    Reply(u8),
    // No Spinel body.
    Other,
}

impl BodyKind {
    ghost use Rattle.transactions.specs.Kind.{kind};

    #[tactic(auto, using(octets::proofs::LawsComparing::same_is), unfolding(crate::specs::Kind::kind))]
    pub fn of(body: &[u8]) -> BodyKind
        ensures { result ≡ kind body.now }
    {
        if body == [0x80, 0x06, 0x00, 0x72].as_slice() {
            return BodyKind::Announcement;
        }
        if !(Body::MIN_OCTETS..=Body::MAX_OCTETS).contains(&body.len()) || body[0] / 64 != 2 {
            return BodyKind::Other;
        }
        BodyKind::Reply(body[0] % 16)
    }
}
