// Boxes, fresh from setup for each line and sent the bodies of the line one after the other.
use crate::frames::is_body;
use crate::show::Case;
use crate::text::{MAX_OCTETS, after_word, are_calls, bare, cut, number, octets};
use crate::{show, text};
use device::{BadSetup, Configured, Device, setup};
use engine::{Answered, answer};
use std::io::Stdout;

// As `boxed`, and setup's answer is told: a flag for one `if`, where a closure would be no plainer.
pub fn set_up(case: Case) -> Option<()> {
    let text = after_word(case.text, b"links")?;
    boxed(Case { text, ..case }, true)
}

pub fn boxed(case: Case, told: bool) -> Option<()> {
    let (head, calls) = cut(case.text, b':')?;
    if !are_calls(calls) {
        return None;
    }
    let configured = configured(head)?;
    let shown = cut(case.shown, b':').map_or(case.shown, |(head, _)| head);
    show::text(case.stdout, shown);
    let _ = print!(case.stdout; ":");
    tell(case.stdout, configured.answer, told);
    send(case.stdout, configured.device, calls);
    Some(())
}

// What setup makes of a number of links, which stands alone or before a vendor, a text and an address. Where it stands alone, the vendor is
// 0, the text empty and the address zero.
fn configured(head: &[u8]) -> Option<Configured> {
    let Some((links, rest)) = cut(head, b',') else {
        return Some(setup(number(head)?, 0, b"", &[0; Device::ADDRESS_SIZE]));
    };
    let (vendor, rest) = cut(rest, b',')?;
    let (text, address) = cut(rest, b',')?;
    if address.contains(&b',') {
        return None;
    }
    let mut text_space = [0u8; MAX_OCTETS];
    let mut address_space = [0u8; MAX_OCTETS];
    let links = number(links)?;
    let vendor = number(setting(vendor, b"vendor")?)?;
    let text = octets(setting(text, b"text")?, &mut text_space)?;
    let address = octets(setting(address, b"address")?, &mut address_space)?;
    Some(setup(links, vendor, text, address))
}

// What stands after the name of a setting.
fn setting<'a>(text: &'a [u8], name: &[u8]) -> Option<&'a [u8]> {
    after_word(bare(text), name)
}

// The answer of setup. A refusal is always told.
fn tell(stdout: Stdout, answer: Result<(), BadSetup>, told: bool) {
    if let Err(refusal) = answer {
        let _ = print!(stdout; " {}, then", refusal.number());
    } else if told {
        let _ = print!(stdout; " 0, then");
    }
}

fn send(stdout: Stdout, device: Device, bodies: &[u8]) {
    let mut device = device;
    for (k, body) in bodies.split(|letter| *letter == b'|').enumerate() {
        if 0 < k {
            let _ = print!(stdout; ", then");
        }
        device = reply(stdout, device, bare(body));
    }
}

// A body and the reply to it; the box after it.
fn reply(stdout: Stdout, device: Device, text: &[u8]) -> Device {
    let mut space = [0u8; MAX_OCTETS];
    let mut out = [0u8; Device::MAX_REPLY];
    let _ = print!(stdout; " ");
    show::text(stdout, text);
    let body = octets(text, &mut space).unwrap_or(b"");
    let _ = print!(stdout; " =");
    match ask(device, body, &mut out) {
        Some(answered) => {
            show::octets(stdout, out.get(..answered.len).unwrap_or(b""));
            answered.device
        }
        None => {
            let _ = print!(stdout; " none");
            device
        }
    }
}

// The engine's answer, where box and body are such as it takes.
fn ask(device: Device, body: &[u8], out: &mut [u8; Device::MAX_REPLY]) -> Option<Answered> {
    if is_body(body) && body[0] / 64 == 2 && device.keeps_rules() {
        return Some(answer(device, body, out));
    }
    None
}
