// The program that replays a capture log (02, T-05): the log on standard input, and for each record from the box a line on standard output,
// whether the box of 01 replies so.
#![tactic(auto)]

mod chunks;
mod play;
mod run;

use crate::run::run;
use capture::Record;
use engine::two_links;

fn main(rt: HostRuntime) {
    let mut space = [0u8; Record::MAX_OCTETS];
    // Where a line cannot be written, the program ends and says nothing.
    let _ = run(two_links(), rt.stdin(), rt.stdout(), &mut space);
}
