// The state of the box, by value. An array that a count goes with is filled from its front and holds zeros past the count.
ghost use Rattle.std.specs.Prelude.{[], ◌≡◌, ◌++◌, ◌+◌, ◌≤◌, length};
ghost use Rattle.property.specs.Number.{power_state};
ghost use Rattle.device.specs.State.{padded_from, octets_of, defaults, fresh_link, fresh};

use octets::write_octets;
use property::{Status, number_at, power_state, slot};

// Octets at the front of an array, and how many they are: there is no heap.
#[derive(Clone, Copy, PartialEq, Eq)]
pub struct Padded<const N: usize> {
    pub octets: [u8; N],
    pub len: usize,
}

// The version text that setup gave.
pub type Text = Padded<{ Device::MAX_TEXT }>;

// Octets that a link holds: its name, or its ports as they travel, two octets each.
pub type Held = Padded<{ Link::MAX_HELD }>;

#[derive(Clone, Copy, PartialEq, Eq)]
pub struct Link {
    // The last status.
    pub status: u8,
    // By the slots of the property table.
    pub numbers: [u32; slot::COUNT],
    pub name: Held,
    pub ports: Held,
}

// What setup gave; `links` is how many are set up.
#[derive(Clone, Copy, PartialEq, Eq)]
pub struct Settings {
    pub links: usize,
    pub vendor: u32,
    pub text: Text,
    pub address: [u8; Device::ADDRESS_SIZE],
}

// A receiving call takes any state and judges it (`keeps_rules`), so neither this nor a part of it has an invariant: what needs the rules
// requires them.
#[derive(Clone, Copy, PartialEq, Eq)]
pub struct Device {
    pub settings: Settings,
    pub power: u8,
    pub links: [Link; Device::MAX_LINKS],
}

// The power state of a fresh box.
pub fn default_power() -> u8
    ensures { result ≡ power_state.default }
{
    power_state().default as u8
}

// The numbers of a fresh link, by slot.
#[tactic(auto, using(crate::proofs::LawsRules::default_at, octets::proofs::LawsWriting::put_next), unfolding(crate::specs::State::defaults, property::specs::Number::numbers))]
fn default_numbers() -> [u32; slot::COUNT]
    ensures { result ≡ defaults }
{
    let mut numbers = [0u32; slot::COUNT];
    for (slot, number) in numbers.iter_mut().enumerate() {
        *number = number_at(slot).default;
    }
    numbers
}

impl<const N: usize> Padded<N> {
    // Two runs of octets, the second right behind the first.
    pub fn of(first: &[u8], second: &[u8]) -> Padded<N>
        requires { length first.now + length second.now ≤ N }
        ensures { result ≡ padded_from N (first.now ++ second.now) }
    {
        let mut octets = [0u8; N];
        let next = write_octets(&mut octets, 0, first);
        let len = write_octets(&mut octets, next, second);
        Padded { octets, len }
    }

    // As many octets as the count says.
    pub fn octets(&self) -> &[u8]
        requires { self.now.len ≤ N }
        ensures { result.now ≡ octets_of self.now }
    {
        &self.octets[..self.len]
    }

    pub(crate) fn empty() -> Padded<N>
        ensures { result ≡ padded_from N [] }
    {
        Padded {
            octets: [0; N],
            len: 0,
        }
    }
}

impl Link {
    // The most octets of a name.
    pub const MAX_NAME: usize = 16;
    // The most assisting ports.
    pub const MAX_PORTS: usize = 8;
    // The octets of either.
    pub const MAX_HELD: usize = 16;

    // A link with every default.
    pub fn fresh() -> Link
        ensures { result ≡ fresh_link }
    {
        Link {
            status: Status::ResetSoftware.number(),
            numbers: default_numbers(),
            name: Padded::empty(),
            ports: Padded::empty(),
        }
    }
}

impl Device {
    pub const MAX_LINKS: usize = 4;

    pub const MAX_VENDOR: u32 = 2097151;
    // The most octets of the version text.
    pub const MAX_TEXT: usize = 32;
    // The octets of the hardware address.
    pub const ADDRESS_SIZE: usize = 8;
    // The most octets of a reply body.
    pub const MAX_REPLY: usize = 61;
    // The least output space of a receiving call: any reply's frame fits.
    pub const MIN_OUTPUT: usize = 128;

    // A box as after a reset.
    #[tactic(auto, unfolding(crate::specs::State::fresh))]
    pub fn fresh(settings: Settings) -> Device
        ensures { result ≡ fresh settings }
    {
        Device {
            settings,
            power: default_power(),
            links: [Link::fresh(); Device::MAX_LINKS],
        }
    }
}
