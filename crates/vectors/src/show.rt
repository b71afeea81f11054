// Printing on standard output, here and by `print!`. What cannot be written is lost: whoever compares the output sees it. What is told is of other
// crates' types, and by parts: a Display would need a type of its own for each.
use hdlc::Reader;
use lines::write_line;
use std::io::Stdout;

// The most octets that are printed at once: the longest frame.
pub const MAX_SHOWN: usize = 2 * Reader::MAX_BODY + 6;

// A case: where it is told, the words that are printed of it, and what stands behind the first word of its line.
#[derive(Clone, Copy)]
pub struct Case<'a> {
    pub stdout: Stdout,
    pub shown: &'a [u8],
    pub text: &'a [u8],
}

impl Case<'_> {
    // The words of the case.
    pub fn show(self) {
        text(self.stdout, self.shown);
    }
}

pub fn text(stdout: Stdout, letters: &[u8]) {
    let _ = stdout.write_all(letters);
}

// Octets in hex, each after a space.
pub fn octets(stdout: Stdout, octets: &[u8]) {
    let mut line = [0u8; 3 * MAX_SHOWN];
    if octets.is_empty() || MAX_SHOWN < octets.len() {
        return;
    }
    write_line(octets, &mut line);
    text(stdout, b" ");
    text(stdout, &line[..3 * octets.len() - 1]);
}
