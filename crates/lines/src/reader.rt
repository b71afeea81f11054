// The reader of a line of hex. Its state goes in and out by value, so that a line of any length is read in pieces; the octets that it keeps
// stand in lent space.
ghost use Rattle.std.specs.Prelude.{◌≡◌};
ghost use Rattle.lines.specs.Reader.{digit_of, fresh, at, keeping, with_octet, first, second, step, reading, good_line, answer_of, outcome, read_line};

// How far a reader has come in a line.
#[derive(Clone, Copy)]
pub enum Stage {
    // Before its first letter.
    Start,
    // Behind the first digit of an octet, which has this value.
    Half(u8),
    // Behind an octet.
    Octet,
    // Behind the space after an octet.
    Space,
    // Behind a letter that has no business there. What follows changes nothing.
    Wrong,
}

#[derive(Clone, Copy)]
pub struct LineReader {
    pub stage: Stage,
    // How many octets are kept, from the front of the lent space.
    pub count: usize,
    // There was no room for all. A flag: the count goes on by itself where a later piece comes with more room, so an enum of the two is no
    // plainer.
    pub more: bool,
}

// What a line that spells octets comes to.
#[derive(Clone, Copy)]
pub enum HexLine {
    // So many octets, and all are kept.
    Octets(usize),
    // So many are kept, and the line spells more.
    More(usize),
}

// The value of a digit in lower or upper case. A match: `to_digit` would go through a `char` and a `u32` and back.
fn digit_of(letter: u8) -> Option<u8>
    ensures { result ≡ digit_of letter }
{
    match letter {
        b'0'..=b'9' => Some(letter - b'0'),
        b'a'..=b'f' => Some(letter - b'a' + 10),
        b'A'..=b'F' => Some(letter - b'A' + 10),
        _ => None,
    }
}

impl LineReader {
    pub fn fresh() -> LineReader
        ensures { result ≡ fresh }
    {
        LineReader {
            stage: Stage::Start,
            count: 0,
            more: false,
        }
    }

    // The same reader at another stage of the line.
    fn at(self, stage: Stage) -> LineReader
        ensures { result ≡ at self stage }
    {
        LineReader { stage, ..self }
    }

    // An octet is kept where there is room for it.
    fn keep(self, octet: u8, out: &mut [u8]) -> LineReader
        ensures { keeping result out.new ≡ with_octet (keeping self out.old) octet }
    {
        let reader = self.at(Stage::Octet);
        if self.count < out.len() {
            out[self.count] = octet;
            LineReader {
                count: self.count + 1,
                ..reader
            }
        } else {
            LineReader {
                more: true,
                ..reader
            }
        }
    }

    // The first digit of an octet.
    fn first_digit(self, letter: u8) -> LineReader
        ensures { result ≡ first self letter }
    {
        match digit_of(letter) {
            Some(high) => self.at(Stage::Half(high)),
            None => self.at(Stage::Wrong),
        }
    }

    // The second digit of an octet, behind the first one.
    fn second_digit(self, high: u8, letter: u8, out: &mut [u8]) -> LineReader
        ensures { keeping result out.new ≡ second (keeping self out.old) high letter }
    {
        match digit_of(letter) {
            Some(low) => self.keep(high % 16 * 16 + low, out),
            None => self.at(Stage::Wrong),
        }
    }

    // One letter.
    fn step(self, letter: u8, out: &mut [u8]) -> LineReader
        ensures { keeping result out.new ≡ step (keeping self out.old) letter }
    {
        match self.stage {
            Stage::Half(high) => self.second_digit(high, letter, out),
            Stage::Octet if letter == b' ' => self.at(Stage::Space),
            Stage::Start | Stage::Octet | Stage::Space => self.first_digit(letter),
            Stage::Wrong => self,
        }
    }

    // One piece of a line.
    pub fn read(self, text: &[u8], out: &mut [u8]) -> LineReader
        ensures { keeping result out.new ≡ reading (keeping self out.old) text.now }
    {
        let mut reader = self;
        for letter in text {
            reader = reader.step(*letter, out);
        }
        reader
    }

    // What the octets of a line that is in order come to.
    fn good_line(self) -> HexLine
        ensures { result ≡ good_line self }
    {
        if self.more {
            HexLine::More(self.count)
        } else {
            HexLine::Octets(self.count)
        }
    }

    // The line has ended. None where the text is no spelling of octets; those before the fault may be kept.
    pub fn finish(self) -> Option<HexLine>
        ensures { result ≡ answer_of self }
    {
        match self.stage {
            Stage::Start | Stage::Octet => Some(self.good_line()),
            _ => None,
        }
    }
}

// A whole line, without its end.
pub fn read_line(text: &[u8], out: &mut [u8]) -> Option<HexLine>
    ensures { outcome result out.new ≡ read_line text.now out.old }
{
    LineReader::fresh().read(text, out).finish()
}
