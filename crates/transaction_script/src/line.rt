// A line as it comes in, octet by octet. It may have any length, so that only what its event needs is kept.
ghost use Rattle.std.specs.Prelude.{◌≡◌, ◌≤◌};
ghost use Rattle.lines.specs.Reader.{keeping, answer_of};

use crate::event::{Event, event_of};
use lines::{HexLine, LineReader};
use octets::Body;

#[derive(Clone, Copy)]
pub struct Line {
    // Its first octets: as many as the longest event that is no body has, and one more. An array with a length beside it, since there is no heap;
    // `device` has a type for such, which this program does not stand on.
    pub text: [u8; Line::MAX_TEXT],
    // How many octets it has, or the most that are kept. That bound stands in clauses: as a ghost field of the line it would be a part of every
    // line in the definitions.
    pub len: usize,
    // There were only spaces.
    pub blank: bool,
    // What stands behind `body `, read as octets in hex; they stand in lent space.
    pub hex: LineReader,
}

impl Line {
    ghost use Rattle.transaction_script.specs.Line.{max_text, coming, fresh, hex_after, taking, body_event, event_at};

    // `table 0008 0010 resetting` has 25 octets.
    pub const MAX_TEXT: usize = 26;
    // `body ` has five.
    pub const BODY_AT: usize = 5;
    // One octet more than a body has: a longer one is too long whatever it has.
    pub const MAX_BODY: usize = Body::MAX_OCTETS + 1;

    pub fn fresh() -> Line
        ensures { result ≡ fresh }
    {
        Line {
            text: [0; Line::MAX_TEXT],
            len: 0,
            blank: true,
            hex: LineReader::fresh(),
        }
    }

    // What is read as hex, with an octet more of the line.
    #[tactic(auto, unfolding(crate::specs::Line::hex_after))]
    fn read_hex(self, letter: u8, body: &mut [u8]) -> LineReader
        ensures { keeping result body.new ≡ hex_after (coming self body.old) letter }
    {
        if self.len < Line::BODY_AT {
            return self.hex;
        }
        self.hex.read(&[letter], body)
    }

    // One octet of it.
    #[tactic(auto, unfolding(crate::specs::Line::taking, crate::specs::Line::text_after, crate::specs::Line::len_after, crate::specs::Line::blank_after))]
    pub fn take(mut self, letter: u8, body: &mut [u8]) -> Line
        ensures { coming result body.new ≡ taking (coming self body.old) letter }
    {
        self.hex = self.read_hex(letter, body);
        self.blank = self.blank && letter == b' ';
        if self.len < Line::MAX_TEXT {
            self.text[self.len] = letter;
            self.len += 1;
        }
        self
    }

    // The event of a line that begins with `body `.
    fn body_event(self) -> Option<Event>
        ensures { result ≡ body_event (answer_of self.hex) }
    {
        match self.hex.finish()? {
            HexLine::Octets(0) => None,
            HexLine::Octets(count) | HexLine::More(count) => Some(Event::Body(count)),
        }
    }

    // What the line asks for, when it has ended; none where it is no event.
    #[tactic(auto, using(crate::proofs::LawsEvent::starts_front), unfolding(crate::specs::Line::event_at))]
    pub fn event(self) -> Option<Event>
        requires { self.len ≤ max_text }
        ensures { result ≡ event_at self }
    {
        if self.blank || self.text[0] == b'#' {
            return Some(Event::Nothing);
        }
        let text = &self.text[..self.len];
        if text.starts_with(b"body ") {
            return self.body_event();
        }
        event_of(text)
    }
}
