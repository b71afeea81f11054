// One body on the box (01, Commands).
ghost use Rattle.std.specs.Prelude.{true, ◌≡◌, ◌≤◌, ◌<◌, length};
ghost use Rattle.octets.specs.Body.{SpinelBody};
ghost use Rattle.octets.specs.Writing.{Wrote};
ghost use Rattle.device.specs.State.{max_links, max_reply};
ghost use Rattle.device.specs.Rules.{rules};
ghost use Rattle.engine.specs.Engine.{affect, engine};

use command::{Decided, decide};
use device::{Device, Effect, View};
use property::Status;
use reply::write_status;

// The box after a body, and how many octets its reply has, from the front of the space lent for it.
#[derive(Clone, Copy, PartialEq, Eq)]
pub struct Answered {
    pub device: Device,
    pub len: usize,
}

#[tactic(auto, unfolding(crate::specs::Engine::affect))]
fn affected(device: Device, k: usize, decided: Decided) -> Device
    requires { k < max_links }
    ensures { result ≡ affect decided.effect device k decided.link }
{
    let mut links = device.links;
    links[k] = decided.link;
    match decided.effect {
        Effect::None => Device { links, ..device },
        Effect::Reset => Device::fresh(device.settings),
        Effect::Powered(power) => Device {
            power,
            links,
            ..device
        },
    }
}

// The space is a slice and no array of 61: it may be longer, and the promise asks for no more than room (docs/PROMISES.md).
#[tactic(auto, using(device::proofs::StateRules::settings_of, device::proofs::StateRules::link_at), unfolding(crate::specs::Engine::engine, crate::specs::Engine::settled, crate::specs::Engine::is_set_up, crate::specs::Engine::link_of))]
pub fn answer(device: Device, body: &[u8], out: &mut [u8]) -> Answered
    requires rules { rules device ≡ true }
    requires body { SpinelBody body.now }
    requires room { max_reply ≤ length out.old }
    ensures device { result.device ≡ (engine device body.now).device }
    ensures reply { Wrote out.old out.new 0 result.len (engine device body.now).reply }
{
    let header = body[0];
    let k = usize::from(header / 16 % 4);
    // Step 1.
    if device.settings.links <= k {
        return Answered {
            device,
            len: write_status(out, header, Status::InvalidInterface.number()),
        };
    }
    let decided = decide(View::of(device, k), body, out);
    Answered {
        device: affected(device, k, decided),
        len: decided.len,
    }
}
