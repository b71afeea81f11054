// What a command on one link can see, and what it can do beyond that link.
ghost use Rattle.std.specs.Prelude.{◌≡◌, ◌<◌};
ghost use Rattle.device.specs.State.{max_links};
ghost use Rattle.device.specs.View.{power_after, after, view_of};

use crate::state::{Device, Link, Settings, default_power};

// One link and the values that all links share; no other link. That they keep their rules is no ghost field: `of` is promised for any box.
#[derive(Clone, Copy, PartialEq, Eq)]
pub struct View {
    pub settings: Settings,
    pub power: u8,
    pub link: Link,
}

// What a body does to the whole box: three things, each by its name, where an Option<Option<u8>> would have none.
#[derive(Clone, Copy, PartialEq, Eq)]
pub enum Effect {
    None,
    Reset,
    Powered(u8),
}

#[tactic(auto, unfolding(crate::specs::View::power_after))]
fn power_after(power: u8, effect: Effect) -> u8
    ensures { result ≡ power_after power effect }
{
    match effect {
        Effect::None => power,
        Effect::Reset => default_power(),
        Effect::Powered(state) => state,
    }
}

impl View {
    // What link `k` sees.
    pub fn of(device: Device, k: usize) -> View
        requires { k < max_links }
        ensures { result ≡ view_of k device }
    {
        View {
            settings: device.settings,
            power: device.power,
            link: device.links[k],
        }
    }

    // The same after an effect, with the link as a command left it.
    pub fn after(self, effect: Effect, link: Link) -> View
        ensures { result ≡ after self effect link }
    {
        View {
            power: power_after(self.power, effect),
            link,
            ..self
        }
    }
}
