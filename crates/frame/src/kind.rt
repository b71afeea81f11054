// What an octet is on the wire. One classifier serves the writer and the reader.
ghost use Rattle.std.specs.Prelude.{◌≡◌};

#[derive(Clone, Copy, PartialEq, Eq)]
pub enum OctetKind {
    Flag,
    Escape,
    // Flow control and F8: a bare one is skipped, as if never sent.
    Skipped,
    Plain,
}

impl From<u8> for OctetKind {
    ghost use Rattle.frame.specs.Kind.{kind_of};

    ghost from_gives = { λ octet kind. kind ≡ kind_of octet };

    #[tactic(auto, unfolding(crate::specs::Kind::kind_of, crate::specs::Kind::is_flag, crate::specs::Kind::is_escape, crate::specs::Kind::is_skipped))]
    fn from(octet: u8) -> OctetKind {
        match octet {
            0x7e => OctetKind::Flag,
            0x7d => OctetKind::Escape,
            0x11 | 0x13 | 0xf8 => OctetKind::Skipped,
            _ => OctetKind::Plain,
        }
    }
}
