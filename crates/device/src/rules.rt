// The rules of the state (01, Setup: "State rules for 11").
ghost use Rattle.std.specs.Prelude.{◌≡◌, get_or};
ghost use Rattle.octets.specs.Scanning.{all_below};
ghost use Rattle.device.specs.State.{no_link, max_links};
ghost use Rattle.device.specs.Rules.{padded, text_rule, ports_rule, in_range, stack_rule, link_rule, is_fresh, settings_rule, link_kept, rules};

use crate::ports::are_distinct;
use crate::state::{Device, Link, Padded, Settings};
use crate::text::is_text;
use octets::is_zero_from;
use property::{Status, is_within, number_at, power_state, slot};

impl<const N: usize> Padded<N> {
    // Whether the count is within the array, and zeros stand past it.
    #[tactic(auto, unfolding(crate::specs::Rules::padded))]
    fn is_padded(&self) -> bool
        ensures { result ≡ padded self.now.octets self.now.len }
    {
        self.len <= N && is_zero_from(&self.octets, self.len)
    }

    #[tactic(auto, using(crate::proofs::LawsRules::padded_within), unfolding(crate::specs::Rules::text_rule))]
    fn keeps_text(&self) -> bool
        ensures { result ≡ text_rule self.now.octets self.now.len }
    {
        self.is_padded() && is_text(self.octets(), N)
    }

    #[tactic(auto, using(crate::proofs::LawsRules::padded_within), unfolding(crate::specs::Rules::ports_rule))]
    fn keeps_ports(&self) -> bool
        ensures { result ≡ ports_rule self.now.octets self.now.len }
    {
        self.is_padded() && self.len % 2 == 0 && are_distinct(self.octets())
    }
}

// Stack up only with interface up.
#[tactic(auto, unfolding(crate::specs::Rules::stack_rule))]
pub fn stack_keeps(numbers: [u32; slot::COUNT]) -> bool
    ensures { result ≡ stack_rule numbers }
{
    numbers[slot::STACK_UP] <= numbers[slot::INTERFACE_UP]
}

impl Link {
    // A `for`: `all` was tried, and the check does not join its facts by place to a definition that goes from place to place.
    #[tactic(auto, using(octets::proofs::LawsScanning::scan_on, octets::proofs::LawsScanning::scan_stop, octets::proofs::LawsScanning::scan_end), unfolding(crate::specs::Rules::in_range, octets::specs::Scanning::all_below))]
    fn numbers_keep(&self) -> bool
        ensures { result ≡ in_range self.now.numbers }
    {
        for (slot, number) in self.numbers.iter().enumerate() {
            if !is_within(number_at(slot), *number) {
                return false;
            }
        }
        true
    }

    // Whether it may be a link that is set up.
    #[tactic(auto, unfolding(crate::specs::Rules::link_rule, crate::specs::Rules::sized))]
    fn keeps_rule(&self) -> bool
        ensures { result ≡ link_rule self.now }
    {
        self.status <= Status::MAX
            && self.numbers_keep()
            && stack_keeps(self.numbers)
            && self.name.keeps_text()
            && self.ports.keeps_ports()
    }

    // Whether it may be one that is not, which holds the defaults.
    #[tactic(auto, using(crate::proofs::LawsFresh::same_fresh))]
    fn is_fresh(&self) -> bool
        ensures { result ≡ is_fresh self.now }
    {
        *self == Link::fresh()
    }

    // Link `k` of a box with so many set up.
    #[tactic(auto, unfolding(crate::specs::Rules::link_kept))]
    fn is_kept(&self, k: usize, links: usize) -> bool
        ensures { result ≡ link_kept links self.now k }
    {
        if k < links {
            self.keeps_rule()
        } else {
            self.is_fresh()
        }
    }
}

impl Settings {
    #[tactic(auto, unfolding(crate::specs::Rules::settings_rule))]
    pub fn keep_rules(self) -> bool
        ensures { result ≡ settings_rule self }
    {
        (1..=Device::MAX_LINKS).contains(&self.links)
            && self.vendor <= Device::MAX_VENDOR
            && self.text.keeps_text()
    }
}

impl Device {
    // A `for`, as in `numbers_keep`.
    #[tactic(auto, using(octets::proofs::LawsScanning::scan_on, octets::proofs::LawsScanning::scan_stop, octets::proofs::LawsScanning::scan_end), unfolding(octets::specs::Scanning::all_below))]
    fn links_keep(&self) -> bool
        ensures { result ≡ all_below max_links (λ k. link_kept self.now.settings.links (get_or self.now.links k no_link) k) }
    {
        for (k, link) in self.links.iter().enumerate() {
            if !link.is_kept(k, self.settings.links) {
                return false;
            }
        }
        true
    }

    #[tactic(auto, unfolding(crate::specs::Rules::rules))]
    pub fn keeps_rules(self) -> bool
        ensures { result ≡ rules self }
    {
        self.settings.keep_rules()
            && is_within(power_state(), u32::from(self.power))
            && self.links_keep()
    }
}
