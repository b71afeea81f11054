// The program by which the table of transaction numbers is tried by hand (02, T-06): a line an event on standard input, and for each its answer on
// standard output, before the next is taken up.
#![tactic(auto)]

mod event;
mod line;
mod play;
mod run;

use crate::line::Line;
use crate::run::run;

fn main(rt: HostRuntime) {
    let mut body = [0u8; Line::MAX_BODY];
    // An answer that cannot be written ends the program, and nothing more.
    run(rt.stdin(), rt.stdout(), &mut body).ok();
}
