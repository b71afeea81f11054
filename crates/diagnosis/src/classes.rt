// How far a body gets, by its first octets (02, T-02).
ghost use Rattle.std.specs.Prelude.{◌≡◌, ◌≤◌, length};
ghost use Rattle.octets.specs.Body.{min_body};
ghost use Rattle.diagnosis.specs.Classes.{reported, head_class, class_of};

use device::Device;
use octets::Body;
use packed::Fault;
use property::Status;
use request::{Refusal, Request, verdict_of};

// What becomes of a body, with the number, or the step and the status, that the papers have for it, and 0 where they have none (`reported`).
// One flat enum: each case is an answer of its own, and a body that is stopped is no error of the call.
#[derive(Clone, Copy, PartialEq, Eq)]
pub enum Class {
    // 14: the number of links is not 1 to 4.
    BadLinks,
    // 4: over 1,300 octets. No frame with this fate or one of the next two reaches the engine.
    TooLong,
    // 2: under two octets.
    Short,
    // 6: the top two header bits are not 10.
    BadHeader,
    // Stopped by 01's step 1: the link is not set up.
    UnsetLink,
    // Stopped by step 2, 4 or 5.
    Stopped(Refusal),
    // Answered by step 3.
    Noop,
    Reset,
    // Step 6 is reached.
    Reaches,
}

impl Class {
    // How many octets of a body are looked at: a header, and a command and a property number of at most three octets each.
    pub const MAX_HEAD: usize = 7;

    // The number of a refusal or a fate; 0 where the body reaches the engine.
    pub fn number(self) -> u32
        ensures { result ≡ (reported self).number }
    {
        match self {
            Class::BadLinks => 14,
            Class::TooLong => 4,
            Class::Short => 2,
            Class::BadHeader => 6,
            Class::UnsetLink | Class::Stopped(_) | Class::Noop | Class::Reset | Class::Reaches => 0,
        }
    }

    // The step of 01, Commands, that stops the body, answers it or is reached; 0 where the body does not reach the engine.
    pub fn step(self) -> u8
        ensures { result ≡ (reported self).step }
    {
        match self {
            Class::BadLinks | Class::TooLong | Class::Short | Class::BadHeader => 0,
            Class::UnsetLink => 1,
            Class::Stopped(refusal) => refusal.step(),
            Class::Noop | Class::Reset => 3,
            Class::Reaches => 6,
        }
    }

    // The status with which that step stops or answers the body; 0 where step 6 is reached, and where the body does not reach the engine.
    pub fn status(self) -> u8
        ensures { result ≡ (reported self).status }
    {
        match self {
            Class::BadLinks | Class::TooLong | Class::Short | Class::BadHeader | Class::Reaches =>
                0,
            Class::UnsetLink => Status::InvalidInterface.number(),
            Class::Stopped(refusal) => refusal.status().number(),
            Class::Noop => Status::Ok.number(),
            Class::Reset => Status::ResetSoftware.number(),
        }
    }

    // The fault of a packed integer, where that stopped the body.
    pub fn cause(self) -> Option<Fault>
        ensures { result ≡ (reported self).cause }
    {
        match self {
            Class::Stopped(refusal) => refusal.cause(),
            _ => None,
        }
    }
}

// By the top bits, the link, and steps 2 to 5.
#[tactic(auto, unfolding(crate::specs::Classes::head_class, crate::specs::Classes::link_class, engine::specs::Engine::link_of))]
fn head_class(links: usize, head: &[u8]) -> Class
    requires { min_body ≤ length head.now }
    ensures { result ≡ head_class links head.now }
{
    let header = head[0];
    if header / 64 != 2 {
        return Class::BadHeader;
    }
    if links <= usize::from(header / 16 % 4) {
        return Class::UnsetLink;
    }
    match verdict_of(head) {
        Err(refusal) => Class::Stopped(refusal),
        Ok(Request::Noop) => Class::Noop,
        Ok(Request::Reset) => Class::Reset,
        Ok(Request::Reach { .. }) => Class::Reaches,
    }
}

// Takes any number of links and any body.
#[tactic(auto, unfolding(crate::specs::Classes::class_of, octets::specs::Ranges::is_between))]
pub fn classify(links: usize, body: &[u8]) -> Class
    ensures { result ≡ class_of links body.now }
{
    if !(1..=Device::MAX_LINKS).contains(&links) {
        return Class::BadLinks;
    }
    if Body::MAX_OCTETS < body.len() {
        return Class::TooLong;
    }
    if body.len() < Body::MIN_OCTETS {
        return Class::Short;
    }
    head_class(links, &body[..body.len().min(Class::MAX_HEAD)])
}
