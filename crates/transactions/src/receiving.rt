// The host's receiving call: frames from the cable, and the table that is told their bodies.
ghost use Rattle.std.specs.Prelude.{◌≡◌};
ghost use Rattle.transactions.specs.Receiving.{number_of, breaks_rules, reception_of, receive};
ghost use Rattle.transactions.specs.Table.{numbers_of};

use crate::answer::{Answer, Refusal};
use crate::table::Table;
use hdlc::{Fate, Reader, read_frame};

// What a call tells that is not refused, with 01's numbers.
#[derive(Clone, Copy, PartialEq, Eq)]
pub enum Heard {
    // 0 and 2 to 6: no checked frame. The table is told nothing. `receive` never makes it of fate 1: that is `Body`, and an enum of the other six
    // would be `Fate` once more.
    Read(Fate),
    // 1: a checked frame. Its body has so many octets, from the front of the assembly buffer, and the table answered this to it.
    Body(usize, Result<Answer, Refusal>),
}

// Why a call is refused, with 01's number of each reason. Serial's receiving call tests for 11 and 12 in the same frame, but it is no one function
// with this: the two crates know nothing of each other, and each tells its own refusals.
#[derive(Clone, Copy, PartialEq, Eq)]
pub enum ReceiveRefusal {
    // The table or the reader breaks its own rules.
    BadState = 11,
    // The assembly buffer has under 1,302 octets.
    SmallAssembly = 12,
}

#[derive(Clone, Copy, PartialEq, Eq)]
pub struct Received {
    pub heard: Result<Heard, ReceiveRefusal>,
    // How many octets of the input were read, the deciding flag included.
    pub read: usize,
    pub table: Table,
    pub reader: Reader,
}

impl Received {
    // 01's number of what the call tells.
    pub fn number(self) -> u32
        ensures { result ≡ number_of self.heard }
    {
        match self.heard {
            Ok(Heard::Read(fate)) => fate.number(),
            Ok(Heard::Body(_, _)) => 1,
            Err(why) => why as u32,
        }
    }
}

#[tactic(auto, unfolding(crate::specs::Receiving::breaks_rules))]
fn breaks_rules(table: Table, reader: Reader) -> bool
    ensures { result ≡ breaks_rules (numbers_of table) reader }
{
    !(table.keeps_rules() && reader.keeps_rules())
}

// Reads to the first fate, and tells the table a checked body. Takes any table, any reader, any input and any buffer; a refused call reads
// nothing and hands both states back.
#[tactic(auto, unfolding(crate::specs::Receiving::receive, crate::specs::Receiving::unrefused, crate::specs::Receiving::breaks_rules))]
pub fn receive(table: Table, reader: Reader, input: &[u8], assembly: &mut [u8]) -> Received
    ensures { reception_of result assembly.new ≡ receive (numbers_of table) reader input.now assembly.old }
{
    let refused = |why: ReceiveRefusal| Received {
        heard: Err(why),
        read: 0,
        table,
        reader,
    };
    if breaks_rules(table, reader) {
        return refused(ReceiveRefusal::BadState);
    }
    if assembly.len() < Reader::MAX_GATHERED {
        return refused(ReceiveRefusal::SmallAssembly);
    }
    let reading = read_frame(reader, input, assembly);
    match reading.fate {
        Fate::Checked(len) => {
            let step = table.reply(&assembly[..len]);
            Received {
                heard: Ok(Heard::Body(len, step.answer)),
                read: reading.read,
                table: step.table,
                reader: reading.reader,
            }
        }
        fate => Received {
            heard: Ok(Heard::Read(fate)),
            read: reading.read,
            table,
            reader: reading.reader,
        },
    }
}
