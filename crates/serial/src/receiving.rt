// The receiving call (01, Octets on the wire).
ghost use Rattle.std.specs.Prelude.{true, ◌≡◌, ◌≤◌, length};
ghost use Rattle.hdlc.specs.Reader.{max_gathered, assembling, run};
ghost use Rattle.hdlc.specs.Rules.{rules as reader_rules};
ghost use Rattle.device.specs.Rules.{rules};
ghost use Rattle.serial.specs.Receiving.{refusal_number, number_of, result_of, breaks_rules, admit, unrefused, receive, receive_body};

use device::Device;
use engine::answer;
use frame::write_frame;
use hdlc::{Fate, Reader, Reading, read_frame};

// Why a call is refused, with 01's numbers. A refused one reads nothing and writes nothing.
#[derive(Clone, Copy, PartialEq, Eq)]
pub enum Refusal {
    // The box or the reader breaks its own rules.
    BadState = 11,
    // The assembly buffer has under 1,302 octets.
    SmallAssembly = 12,
    // The output has under 128 octets.
    SmallOutput = 13,
}

impl Refusal {
    // 01's number of the refusal.
    pub fn number(self) -> u32
        ensures { result ≡ refusal_number self }
    {
        self as u32
    }
}

#[derive(Clone, Copy)]
pub struct Received {
    // What was read, and what became of a frame: one that is checked was answered.
    pub answer: Result<Fate, Refusal>,
    // How many octets of the input were read, the deciding flag included.
    pub read: usize,
    // How many octets were written for a reply, from the front of the output or, before framing, of the space.
    pub written: usize,
    pub device: Device,
    pub reader: Reader,
}

impl Received {
    // 01's number of the answer: 0 to 6 of a fate, 11 to 13 of a refusal.
    pub fn number(self) -> u32
        ensures { result ≡ number_of self.answer }
    {
        match self.answer {
            Ok(fate) => fate.number(),
            Err(refusal) => refusal.number(),
        }
    }

    // A call that writes no reply. A refused one reads nothing either.
    fn without_reply(
        answer: Result<Fate, Refusal>,
        read: usize,
        device: Device,
        reader: Reader,
    ) -> Received
        ensures { result ≡ record { answer = answer; read = read; written = 0; device = device; reader = reader } }
    {
        Received {
            answer,
            read,
            written: 0,
            device,
            reader,
        }
    }
}

#[tactic(auto, unfolding(crate::specs::Receiving::breaks_rules))]
fn breaks_rules(device: Device, reader: Reader) -> bool
    ensures { result ≡ breaks_rules device reader }
{
    !device.keeps_rules() || !reader.keeps_rules()
}

// Whether a call goes on to read: the refusals that both calls have, in their order.
#[tactic(auto, unfolding(crate::specs::Receiving::admit))]
fn admit(device: Device, reader: Reader, assembly: &[u8]) -> Result<(), Refusal>
    ensures { result ≡ admit device reader assembly.now }
{
    if breaks_rules(device, reader) {
        return Err(Refusal::BadState);
    }
    if assembly.len() < Reader::MAX_GATHERED {
        return Err(Refusal::SmallAssembly);
    }
    Ok(())
}

// Reads to the first fate, and has a checked body answered. The reply goes to the front of the space.
#[tactic(auto, unfolding(crate::specs::Receiving::unrefused))]
fn read_and_answer(
    device: Device,
    reader: Reader,
    input: &[u8],
    assembly: &mut [u8],
    space: &mut [u8; Device::MAX_REPLY],
) -> Received
    requires rules { (rules device ≡ true) × (reader_rules reader ≡ true) }
    requires room { max_gathered ≤ length assembly.old }
    ensures { result_of result assembly.new space.new
        ≡ unrefused (λ b. b) device (run (assembling reader assembly.old) input.now) space.old }
{
    let Reading { fate, read, reader } = read_frame(reader, input, assembly);
    if let Fate::Checked(len) = fate {
        let answered = answer(device, &assembly[..len], space);
        return Received {
            answer: Ok(fate),
            read,
            written: answered.len,
            device: answered.device,
            reader,
        };
    }
    Received::without_reply(Ok(fate), read, device, reader)
}

// Takes any box, any reader, any input and any buffers. A refused call reads nothing, writes nothing and hands both states back.
// Box, reader and buffers come one by one, and the states go out again: this is the form that 01 gives the call.
#[tactic(auto, using(crate::proofs::LawsReceiving::refused_call, crate::proofs::LawsReceiving::admit_ok))]
pub fn receive(
    device: Device,
    reader: Reader,
    input: &[u8],
    assembly: &mut [u8],
    output: &mut [u8],
) -> Received
    ensures { result_of result assembly.new output.new
        ≡ receive device reader input.now assembly.old output.old }
{
    if let Err(refusal) = admit(device, reader, assembly) {
        return Received::without_reply(Err(refusal), 0, device, reader);
    }
    if output.len() < Device::MIN_OUTPUT {
        return Received::without_reply(Err(Refusal::SmallOutput), 0, device, reader);
    }
    let mut reply = [0u8; Device::MAX_REPLY];
    let mut received = read_and_answer(device, reader, input, assembly, &mut reply);
    let len = received.written;
    // A reply has octets: 01 has a call that writes none return 0.
    if 0 < len {
        received.written = write_frame(&reply[..len], output);
    }
    received
}

// As `receive`, before framing: the reply's body stands at the front of the space, which always has room for it.
#[tactic(auto, using(crate::proofs::LawsReceiving::refused_body, crate::proofs::LawsReceiving::admit_ok, crate::proofs::GoesOn::not_refused))]
pub fn receive_body(
    device: Device,
    reader: Reader,
    input: &[u8],
    assembly: &mut [u8],
    space: &mut [u8; Device::MAX_REPLY],
) -> Received
    ensures { result_of result assembly.new space.new
        ≡ receive_body device reader input.now assembly.old space.old }
{
    if let Err(refusal) = admit(device, reader, assembly) {
        return Received::without_reply(Err(refusal), 0, device, reader);
    }
    read_and_answer(device, reader, input, assembly, space)
}
