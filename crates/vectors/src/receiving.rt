// Receiving calls on any state and with any room (01, Octets on the wire): the answer, and what is handed back.
ghost use Rattle.std.specs.Prelude.{◌<◌, ◌≤◌, IfSome};
ghost use Rattle.property.specs.Number.{slot_count};
ghost use Rattle.vectors.specs.declared.text.TheConstants.{MAX_OCTETS};

use crate::show;
use crate::show::Case;
use crate::text::{MAX_OCTETS, bare, cut, first_word, number, octets};
use device::{Device, Link, Padded, setup};
use hdlc::Reader;
use property::slot;
use serial::{Received, receive};
use std::io::Stdout;

// What every octet of the lent buffers is before a call.
const FILLING: u8 = 0x55;

// The state that a call is given, and how many octets of each buffer it is lent.
#[derive(Clone, Copy)]
struct Given {
    device: Device,
    reader: Reader,
    assembly: usize,
    output: usize,
    ghost within: { (assembly ≤ MAX_OCTETS) × (output ≤ MAX_OCTETS) },
}

pub fn received(case: Case) -> Option<()> {
    let mut space = [0u8; MAX_OCTETS];
    let (changes, input) = cut(case.text, b':')?;
    let given = changed(changes)?;
    let input = octets(input, &mut space)?;
    case.show();
    call(case.stdout, given, input);
    Some(())
}

// The state after changes with a comma between two.
fn changed(changes: &[u8]) -> Option<Given> {
    let mut given = Given::unchanged();
    for change in changes.split(|letter| *letter == b',') {
        let (field, value) = first_word(bare(change));
        given.change(field, value)?;
    }
    Some(given)
}

impl Given {
    // The least buffers that 01 takes are written out, so that a limit of the code that moves is noticed.
    fn unchanged() -> Given {
        Given {
            device: setup(2, 0, b"", &[0; Device::ADDRESS_SIZE]).device,
            reader: Reader::fresh(),
            assembly: 1302,
            output: 128,
        }
    }

    // `link 1 status 127` changes a link, `vendor 7` what is no link's.
    fn change(&mut self, field: &[u8], value: &[u8]) -> Option<()> {
        match field {
            b"link" => change_link(&mut self.device.links, value)?,
            b"links" => self.device.settings.links = number(value)?,
            b"vendor" => self.device.settings.vendor = number(value)?,
            b"text" => self.device.settings.text = padded(value)?,
            b"power" => self.device.power = number(value)?,
            b"reader" => self.reader.count = number(value)?,
            b"escaped" => self.reader.escaped = flag(value)?,
            b"discarding" => self.reader.discarding = flag(value)?,
            b"assembly" => self.assembly = room(value)?,
            b"output" => self.output = room(value)?,
            _ => return None,
        }
        Some(())
    }
}

// A word that stands by itself says so.
fn flag(value: &[u8]) -> Option<bool> {
    value.is_empty().then_some(true)
}

fn room(value: &[u8]) -> Option<usize>
    ensures { IfSome result (λ n. n ≤ MAX_OCTETS) }
{
    number(value).filter(|n| *n <= MAX_OCTETS)
}

// `1 status 127`.
fn change_link(links: &mut [Link], text: &[u8]) -> Option<()> {
    let (k, change) = first_word(text);
    let (field, value) = first_word(change);
    let k: usize = number(k)?;
    let link = links.get_mut(k)?;
    match field {
        b"status" => link.status = number(value)?,
        b"name" => link.name = padded(value)?,
        b"ports" => link.ports = padded(value)?,
        _ => link.numbers[slot_of(field)?] = number(value)?,
    }
    Some(())
}

fn slot_of(field: &[u8]) -> Option<usize>
    ensures { IfSome result (λ slot. slot < slot_count) }
{
    match field {
        b"phy" => Some(slot::PHY_ENABLED),
        b"channel" => Some(slot::CHANNEL),
        b"transmit" => Some(slot::TRANSMIT_POWER),
        b"pan" => Some(slot::PAN_ID),
        b"interface" => Some(slot::INTERFACE_UP),
        b"stack" => Some(slot::STACK_UP),
        b"mode" => Some(slot::THREAD_MODE),
        b"timeout" => Some(slot::CHILD_TIMEOUT),
        b"rloc" => Some(slot::RLOC16),
        _ => None,
    }
}

// A count, and octets at the front of their place.
fn padded<const N: usize>(value: &[u8]) -> Option<Padded<N>> {
    let (len, text) = first_word(value);
    let mut space = [0u8; N];
    octets(text, &mut space)?;
    Some(Padded {
        octets: space,
        len: number(len)?,
    })
}

fn call(stdout: Stdout, given: Given, input: &[u8]) {
    let mut assembly = [FILLING; MAX_OCTETS];
    let mut output = [FILLING; MAX_OCTETS];
    let received = receive(
        given.device,
        given.reader,
        input,
        &mut assembly[..given.assembly],
        &mut output[..given.output],
    );
    tell(stdout, given, received);
    let _ = print!(stdout; ", assembly");
    touched(stdout, &assembly);
    let _ = print!(stdout; ", output");
    touched(stdout, &output);
}

fn tell(stdout: Stdout, given: Given, received: Received) {
    let _ = print!(stdout;
        " = {}, read {}, wrote {}",
        received.number(),
        received.read,
        received.written
    );
    let _ = print!(stdout;
        ", box {}",
        if given.device == received.device {
            "as given"
        } else {
            "changed"
        }
    );
    tell_reader(stdout, given.reader, received.reader);
}

// A reader that is another one is told in the words of a change.
fn tell_reader(stdout: Stdout, given: Reader, reader: Reader) {
    if given == reader {
        let _ = print!(stdout; ", reader as given");
        return;
    }
    let _ = print!(stdout; ", reader {}", reader.count);
    if reader.escaped {
        let _ = print!(stdout; ", escaped");
    }
    if reader.discarding {
        let _ = print!(stdout; ", discarding");
    }
}

// The octets of a buffer from the first to the last that is not the filling.
fn touched(stdout: Stdout, buffer: &[u8]) {
    match buffer.iter().position(|octet| *octet != FILLING) {
        None => {
            let _ = print!(stdout; " untouched");
        }
        Some(start) => {
            let rest = &buffer[start..];
            let end = rest
                .iter()
                .rposition(|octet| *octet != FILLING)
                .map_or(0, |last| last + 1);
            let _ = print!(stdout; " from {start}:");
            show::octets(stdout, &rest[..end]);
        }
    }
}
