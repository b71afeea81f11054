// The program (01, Bodies and their replies): wire octets on standard input, and each reply body as a line of hex on standard output.
#![tactic(auto)]

mod serve;
mod turn;

use crate::serve::serve;
use engine::two_links;
use hdlc::Reader;

fn main(rt: HostRuntime) {
    let mut assembly = [0u8; Reader::MAX_GATHERED];
    // Where a line cannot be written, the program ends and says nothing.
    let _ = serve(two_links(), rt.stdin(), rt.stdout(), &mut assembly);
}
