// Setup (01, Setup).
ghost use Rattle.std.specs.Prelude.{◌≡◌, Err};
ghost use Rattle.device.specs.Setup.{number_of, reported, refusal, setup_for};

use crate::state::{Device, Padded, Settings};

// A setup that is refused.
#[derive(Clone, Copy, PartialEq, Eq)]
pub struct BadSetup;

impl BadSetup {
    // 01's number of the refusal.
    pub fn number(self) -> u32
        ensures { result ≡ number_of (Err self) }
    {
        14
    }
}

#[derive(Clone, Copy)]
pub struct Configured {
    pub answer: Result<(), BadSetup>,
    pub device: Device,
}

// A fresh box of one link, vendor 0, empty text, zero address.
#[tactic(auto, unfolding(crate::specs::Setup::refusal, octets::specs::Padding::pad))]
fn refuse() -> Configured
    ensures { reported result ≡ refusal }
{
    Configured {
        answer: Err(BadSetup),
        device: Device::fresh(Settings {
            links: 1,
            vendor: 0,
            text: Padded::empty(),
            address: [0; Device::ADDRESS_SIZE],
        }),
    }
}

#[tactic(auto, using(crate::proofs::LawsRules::padded_alone, crate::proofs::LawsSetup::text_long, crate::proofs::LawsSetup::address_wrong, crate::proofs::LawsSetup::setup_rule), unfolding(crate::specs::Setup::setup_for))]
pub fn setup(links: usize, vendor: u32, text: &[u8], address: &[u8]) -> Configured
    ensures { reported result ≡ setup_for links vendor text.now address.now }
{
    if Device::MAX_TEXT < text.len() {
        return refuse();
    }
    let Ok(address) = <[u8; Device::ADDRESS_SIZE]>::try_from(address) else {
        return refuse();
    };
    let settings = Settings {
        links,
        vendor,
        text: Padded::of(text, b""),
        address,
    };
    if !settings.keep_rules() {
        return refuse();
    }
    Configured {
        answer: Ok(()),
        device: Device::fresh(settings),
    }
}
