// Well-formed UTF-8: the grammar of RFC 3629, section 4, octet by octet.
#![tactic(auto)]

ghost use Rattle.std.specs.Prelude.{◌≡◌};
ghost use Rattle.utf8.specs.Utf8.{tails, leads, lead_in, step, ends, is_utf8};

// How far a scan has come in a character.
#[derive(Clone, Copy)]
enum Stage {
    // Before a character, or behind the last.
    Between,
    // In one: the next octet must be from the first number to the second, and so many tails must follow it. The numbers have no names, since a
    // row of the grammar would then take five lines below.
    Expecting(u8, u8, usize),
    // Behind an octet that no character has there. What follows changes nothing.
    Wrong,
}

impl Stage {
    // So many tails must follow, octets from 80 to BF.
    #[tactic(auto, unfolding(crate::specs::Utf8::tails))]
    fn tails(count: usize) -> Stage
        ensures { result ≡ tails count }
    {
        match count {
            0 => Stage::Between,
            _ => Stage::Expecting(0x80, 0xBF, count - 1),
        }
    }

    // Behind a lead, the first octet of a character: row by row of the grammar.
    #[tactic(auto, unfolding(crate::specs::Utf8::tails, crate::specs::Utf8::leads, crate::specs::Utf8::lead_in, octets::specs::Ranges::is_between))]
    fn after_lead(octet: u8) -> Stage
        ensures { result ≡ lead_in leads octet }
    {
        match octet {
            0x00..=0x7F => Stage::Between,
            0xC2..=0xDF => Stage::tails(1),
            0xE0 => Stage::Expecting(0xA0, 0xBF, 1),
            0xE1..=0xEC => Stage::tails(2),
            0xED => Stage::Expecting(0x80, 0x9F, 1),
            0xEE..=0xEF => Stage::tails(2),
            0xF0 => Stage::Expecting(0x90, 0xBF, 2),
            0xF1..=0xF3 => Stage::tails(3),
            0xF4 => Stage::Expecting(0x80, 0x8F, 2),
            _ => Stage::Wrong,
        }
    }

    // Behind one octet more.
    #[tactic(auto, unfolding(crate::specs::Utf8::step, octets::specs::Ranges::is_between))]
    fn step(self, octet: u8) -> Stage
        ensures { result ≡ step self octet }
    {
        match self {
            Stage::Between => Stage::after_lead(octet),
            Stage::Expecting(low, high, count) if (low..=high).contains(&octet) => Stage::tails(
                count,
            ),
            Stage::Expecting(..) | Stage::Wrong => Stage::Wrong,
        }
    }

    // Whether the octets may end here.
    #[tactic(auto, unfolding(crate::specs::Utf8::ends))]
    fn ends(self) -> bool
        ensures { result ≡ ends self }
    {
        matches!(self, Stage::Between)
    }
}

// Whether octets are whole characters and nothing else. A zero is one too.
#[tactic(auto, unfolding(crate::specs::Utf8::is_utf8))]
pub fn is_utf8(octets: &[u8]) -> bool
    ensures { result ≡ is_utf8 octets.now }
{
    octets
        .iter()
        .fold(Stage::Between, |stage, octet| stage.step(*octet))
        .ends()
}
