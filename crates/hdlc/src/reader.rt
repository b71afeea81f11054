// The frame reader. Its state goes in and out by value; the octets that it gathers stand in a lent assembly buffer.
ghost use Rattle.std.specs.Prelude.{true, ◌≡◌, ◌≤◌, length};
ghost use Rattle.frame.specs.Kind.{is_escape, kind_of};
ghost use Rattle.hdlc.specs.Fate.{fate_number, fated, given, told};
ghost use Rattle.hdlc.specs.Reader.{max_gathered, gathering, fresh, assembling, outcome, frame_fate, flag_fate, gather, after_content, after_octet, fate_at, run};
ghost use Rattle.hdlc.specs.Rules.{rules};

use frame::{OctetKind, fcs16};
use octets::{Body, read_le};

// What became of a frame, with 01's number of each fate. It stays a flat enum: 01 lists seven fates, each with its number, and callers match
// that list; an Option of a Result would be no plainer.
#[derive(Clone, Copy, PartialEq, Eq)]
pub enum Fate {
    // 0: the input ended and no frame is finished.
    Unfinished,
    // 1: the check is right and the header Spinel's. The body has so many octets, from the front of the assembly buffer.
    Checked(usize),
    // 2: fewer than four octets gathered.
    Short,
    // 3: the check is not that of the body.
    WrongCheck,
    // 4: more than 1,302 octets gathered.
    TooLong,
    // 5: a flag after a pending escape.
    CutEscape,
    // 6: the top two header bits are not 10.
    BadHeader,
}

impl Fate {
    // 01's number of the fate.
    pub fn number(self) -> u32
        ensures { result ≡ fate_number self }
    {
        match self {
            Fate::Unfinished => 0,
            Fate::Checked(_) => 1,
            Fate::Short => 2,
            Fate::WrongCheck => 3,
            Fate::TooLong => 4,
            Fate::CutEscape => 5,
            Fate::BadHeader => 6,
        }
    }
}

// The two flags stay beside the count, though the rules forbid some of their pairs: 01 gives a reader's state these fields, and a call may be
// lent any of them (refusal 11).
#[derive(Clone, Copy, PartialEq, Eq)]
pub struct Reader {
    // How many octets are gathered, from the front of the assembly buffer.
    pub count: usize,
    // An escape came, and the octet that it is for has not.
    pub escaped: bool,
    // The frame is too long; all is thrown away until the next flag.
    pub discarding: bool,
}

// What one call gives.
#[derive(Clone, Copy, PartialEq, Eq)]
pub struct Reading {
    pub fate: Fate,
    // How many octets of the input were read, the deciding flag included.
    pub read: usize,
    pub reader: Reader,
}

// What one octet gives: a fate, if it decides one.
#[derive(Clone, Copy)]
struct Step {
    fate: Option<Fate>,
    reader: Reader,
}

impl Reader {
    // The most octets of a body.
    pub const MAX_BODY: usize = Body::MAX_OCTETS;
    // The most octets that are gathered: a body and its check.
    pub const MAX_GATHERED: usize = Reader::MAX_BODY + 2;

    // A reader that stands as if a flag had just passed.
    pub fn fresh() -> Reader
        ensures { result ≡ fresh }
    {
        Reader::gathering(0, false)
    }

    // A reader that has gathered so many octets, with an escape pending or not.
    fn gathering(count: usize, escaped: bool) -> Reader
        ensures { result ≡ gathering count escaped }
    {
        Reader {
            count,
            escaped,
            discarding: false,
        }
    }

    // Whether a reader's state is one that reading can leave.
    #[tactic(auto, unfolding(crate::specs::Rules::rules))]
    pub fn keeps_rules(self) -> bool
        ensures { result ≡ rules self }
    {
        self.count <= Reader::MAX_GATHERED
            && (!self.discarding || (!self.escaped && self.count == Reader::MAX_GATHERED))
    }

    // The fate that a flag gives, if a frame ends.
    #[tactic(auto, using(crate::proofs::LawsFates::told_front), unfolding(crate::specs::Reader::flag_fate, crate::specs::Fate::given))]
    fn flag_fate(self, assembly: &[u8]) -> Option<Fate>
        requires { self.count ≤ length assembly.now }
        ensures { told result assembly.now ≡ given (flag_fate (assembling self assembly.now)) }
    {
        if self.discarding {
            return Some(Fate::TooLong);
        }
        if self.escaped {
            return Some(Fate::CutEscape);
        }
        if self.count == 0 {
            return None;
        }
        Some(frame_fate(&assembly[..self.count]))
    }

    // One octet more is gathered; one too many starts the discard. The buffer is a slice with room: who lends a longer one may, as `read_frame`
    // is promised.
    #[tactic(auto, unfolding(crate::specs::Reader::gather))]
    fn gather(self, octet: u8, assembly: &mut [u8]) -> Reader
        requires { max_gathered ≤ length assembly.old }
        ensures { assembling result assembly.new ≡ gather (assembling self assembly.old) octet }
    {
        if self.count < Reader::MAX_GATHERED {
            assembly[self.count] = octet;
            return Reader::gathering(self.count + 1, false);
        }
        Reader {
            count: Reader::MAX_GATHERED,
            escaped: false,
            discarding: true,
        }
    }

    // An octet of a frame's content, of its kind: neither a flag nor skipped.
    #[tactic(auto, unfolding(crate::specs::Reader::after_content, frame::specs::Kind::kind_of, frame::specs::Kind::is_flag, frame::specs::Kind::is_escape, frame::specs::Kind::is_skipped))]
    fn take_content(self, kind: OctetKind, octet: u8, assembly: &mut [u8]) -> Reader
        requires { (kind ≡ kind_of octet) × (max_gathered ≤ length assembly.old) }
        ensures { assembling result assembly.new ≡ after_content (assembling self assembly.old) (is_escape octet) octet }
    {
        if self.discarding {
            return self;
        }
        if self.escaped {
            return self.gather(octet ^ 0x20, assembly);
        }
        if kind == OctetKind::Escape {
            return Reader::gathering(self.count, true);
        }
        self.gather(octet, assembly)
    }

    // One octet: the fate that it decides, and the reader after it.
    #[tactic(auto, unfolding(crate::specs::Reader::fate_at, crate::specs::Reader::after_octet, crate::specs::Fate::given, frame::specs::Kind::kind_of, frame::specs::Kind::is_flag, frame::specs::Kind::is_escape, frame::specs::Kind::is_skipped))]
    fn read_octet(self, octet: u8, assembly: &mut [u8]) -> Step
        requires { (self.count ≤ max_gathered) × (max_gathered ≤ length assembly.old) }
        ensures { (told result.fate assembly.new ≡ given (fate_at (assembling self assembly.old) octet))
            × (assembling result.reader assembly.new ≡ after_octet (assembling self assembly.old) octet) }
    {
        match OctetKind::from(octet) {
            OctetKind::Flag => Step {
                fate: self.flag_fate(assembly),
                reader: Reader::fresh(),
            },
            OctetKind::Skipped => Step {
                fate: None,
                reader: self,
            },
            kind => Step {
                fate: None,
                reader: self.take_content(kind, octet, assembly),
            },
        }
    }
}

// The fate of gathered octets that are not too many and not cut in an escape.
#[tactic(auto, using(crate::proofs::LawsFates::header_gathered), unfolding(crate::specs::Reader::frame_fate, crate::specs::Reader::headed, crate::specs::Reader::check_of, crate::specs::Reader::body_of))]
fn frame_fate(gathered: &[u8]) -> Fate
    ensures { fated result gathered.now ≡ frame_fate gathered.now }
{
    let count = gathered.len();
    if count < 4 {
        return Fate::Short;
    }
    let body = count - 2;
    if read_le(gathered, body, 2) != u32::from(fcs16(&gathered[..body])) {
        return Fate::WrongCheck;
    }
    // The top two bits, written out wherever they are asked: a function for them would be as long.
    if gathered[0] / 64 != 2 {
        return Fate::BadHeader;
    }
    Fate::Checked(body)
}

// Reads the input until the first frame has its fate, or the input ends. The loop gives fate and octets read by `break` at the deciding
// flag, as 01 tells it.
pub fn read_frame(mut reader: Reader, input: &[u8], assembly: &mut [u8]) -> Reading
    requires { (rules reader ≡ true) × (max_gathered ≤ length assembly.old) }
    ensures { outcome result.fate result.read result.reader assembly.new
        ≡ run (assembling reader assembly.old) input.now }
{
    let mut at: usize = 0;
    let (fate, read) = loop {
        if at == input.len() {
            break (Fate::Unfinished, at);
        }
        let step = reader.read_octet(input[at], assembly);
        at += 1;
        reader = step.reader;
        if let Some(fate) = step.fate {
            break (fate, at);
        }
    };
    Reading { fate, read, reader }
}
