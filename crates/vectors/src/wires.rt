// Octets of the wire, read in one or several calls; what a call leaves unread is offered again. Fates are 01's (Octets on the wire).
use crate::show::Case;
use crate::text::{MAX_OCTETS, are_calls, bare};
use crate::{show, text};
use hdlc::{Fate, Reader, read_frame};
use std::io::Stdout;

// A reader, and the buffer in which it gathers.
#[derive(Drop)]
struct Wire {
    reader: Reader,
    assembly: [u8; Reader::MAX_GATHERED],
}

// The calls, of which the first may go untold: a flag for one `if`, where a closure would be no plainer.
pub fn read(case: Case, first_told: bool) -> Option<()> {
    if !are_calls(case.text) {
        return None;
    }
    case.show();
    let _ = print!(case.stdout; ":");
    let mut wire = Wire {
        reader: Reader::fresh(),
        assembly: [0; Reader::MAX_GATHERED],
    };
    for (k, text) in case.text.split(|letter| *letter == b'|').enumerate() {
        wire.call(case.stdout, bare(text), first_told || 0 < k);
    }
    Some(())
}

impl Wire {
    fn call(&mut self, stdout: Stdout, text: &[u8], told: bool) {
        let mut chunk = [0u8; MAX_OCTETS];
        if let Some(octets) = text::call(text, &mut chunk) {
            self.feed(stdout, octets, told);
        }
    }

    // Offers a chunk until it is used up, where the reader is such as a call takes.
    fn feed(&mut self, stdout: Stdout, chunk: &[u8], told: bool) {
        let mut rest = chunk;
        while !rest.is_empty() && self.reader.keeps_rules() {
            let reading = read_frame(self.reader, rest, &mut self.assembly);
            self.reader = reading.reader;
            if reading.read == 0 || rest.len() < reading.read {
                return;
            }
            rest = &rest[reading.read..];
            if told {
                self.tell(stdout, reading.fate, reading.read);
            }
        }
    }

    fn tell(&self, stdout: Stdout, fate: Fate, read: usize) {
        let _ = print!(stdout; " fate {} read {read}", fate.number());
        match fate {
            Fate::Checked(n) if 16 < n => {
                let _ = print!(stdout; " body of {n}");
            }
            Fate::Checked(n) => {
                let _ = print!(stdout; " body");
                show::octets(stdout, &self.assembly[..n]);
            }
            _ => {}
        }
    }
}
