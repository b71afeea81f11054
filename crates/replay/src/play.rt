// A record played to the box, or held against its reply.
ghost use Rattle.std.specs.Prelude.{true, ◌≡◌, ◌≤◌};
ghost use Rattle.octets.specs.Body.{Body};
ghost use Rattle.octets.specs.Comparing.{is_same};
ghost use Rattle.device.specs.State.{max_reply};
ghost use Rattle.device.specs.Rules.{rules};
ghost use Rattle.capture.specs.Records.{entry};

use capture::Direction;
use device::{Device, Padded};
use engine::answer;
use octets::same_octets;

// The box, and its reply to the record just before.
#[derive(Clone, Copy)]
pub struct Playback {
    pub device: Device,
    // There is no heap for one of just its size. It has no octets where that record is from the box, where its body never reached the box, and
    // before the first record.
    pub reply: Padded<{ Device::MAX_REPLY }>,
    ghost keeps: { rules device ≡ true },
    ghost room: { reply.len ≤ max_reply },
}

// The line for a record: yes or no, and none for one to the box. Where there may be no record either, it is an `Option<Line>`,
// so that `?` ends the turn there.
pub type Line = Option<bool>;

impl Playback {
    ghost use Rattle.replay.specs.Play.{yes_or_no, silent, delivered, next, line_for};
    ghost use Rattle.replay.specs.Playback.{state_of};

    // No reply to hold a record against.
    pub fn silent(device: Device) -> Playback
        requires { rules device ≡ true }
        ensures { state_of result ≡ silent device }
    {
        Playback {
            device,
            reply: Padded {
                octets: [0u8; Device::MAX_REPLY],
                len: 0,
            },
        }
    }

    // A body that came to the box. One that is no Spinel body has no reply and changes nothing.
    #[tactic(auto, unfolding(crate::specs::Play::delivered), using(engine::proofs::RulesKept::body_keeps, engine::proofs::ReplyBounds::reply_bounds, octets::proofs::LawsWriting::front_count))]
    fn delivered(device: Device, body: &[u8]) -> Playback
        requires rules { rules device ≡ true }
        requires body { Body body.now }
        ensures { state_of result ≡ delivered device body.now }
    {
        if body[0] / 64 != 2 {
            return Playback::silent(device);
        }
        let mut octets = [0u8; Device::MAX_REPLY];
        let answered = answer(device, body, &mut octets);
        Playback {
            device: answered.device,
            reply: Padded {
                octets,
                len: answered.len,
            },
        }
    }

    // Whether a body from the box is the reply.
    fn is_reply(&self, body: &[u8]) -> bool
        ensures { result ≡ is_same (state_of self.now).reply body.now }
    {
        same_octets(self.reply.octets(), body)
    }

    // One record. Its direction may be any octet: what does not go to the box is from it.
    #[tactic(auto, unfolding(crate::specs::Play::next, crate::specs::Play::line_for))]
    pub fn play(&mut self, direction: u8, body: &[u8]) -> Line
        requires { Body body.now }
        ensures state { state_of self.new ≡ next (state_of self.old) (entry direction body.now) }
        ensures line { yes_or_no result ≡ line_for (state_of self.old) (entry direction body.now) }
    {
        if direction == u8::from(Direction::ToBox) {
            *self = Playback::delivered(self.device, body);
            return None;
        }
        let is_reply = self.is_reply(body);
        *self = Playback::silent(self.device);
        Some(is_reply)
    }
}
