// Published vectors, run through the code. Each line of standard input is a case, and each line that is printed says what went in and what
// came out. The kinds of lines stand at the head of the file stdin, and the source of each case beside it; the file stdout holds what must
// come out, from these sources and from 01's rules, never from this program.
#![tactic(auto)]

mod boxes;
mod classes;
mod frames;
mod integers;
mod receiving;
mod records;
mod show;
mod text;
mod types;
mod wires;

use show::Case;
use std::io::Stdout;
use streams::read_full;
use text::{cut, first_word};

const MAX_INPUT: usize = 131072;

fn main(rt: HostRuntime) {
    let mut stdin = rt.stdin();
    let stdout = rt.stdout();
    let mut input = [0u8; MAX_INPUT];
    let count = read_full(&mut stdin, &mut input);
    // A full buffer may not be all.
    if count < MAX_INPUT {
        for line in input[..count].split(|letter| *letter == b'\n') {
            tell(stdout, line);
        }
    } else {
        let _ = print!(stdout; "not read: more than 131071 octets\n");
    }
}

// What is printed of a case is its line, or the words in quotes before it.
fn tell(stdout: Stdout, line: &[u8]) {
    let told = match line {
        [] | [b'#', ..] => return,
        [b'"', words @ ..] => labelled(stdout, words),
        _ => run(stdout, line, line),
    };
    if told.is_none() {
        let _ = print!(stdout; "not a case: ");
        show::text(stdout, line);
    }
    let _ = print!(stdout; "\n");
}

fn labelled(stdout: Stdout, words: &[u8]) -> Option<()> {
    let (shown, rest) = cut(words, b'"')?;
    let (_, line) = cut(rest, b' ')?;
    run(stdout, shown, line)
}

// Runs a case by the first word of its line. Where the line is no case, nothing is printed and the answer is none; so for each kind.
fn run(stdout: Stdout, shown: &[u8], line: &[u8]) -> Option<()> {
    let (kind, text) = first_word(line);
    let case = Case {
        stdout,
        shown,
        text,
    };
    match kind {
        b"fcs" => frames::check(case),
        b"read" => integers::read(case),
        b"frame" => frames::frame(case),
        b"packed" => integers::packed(case),
        b"wire" => wires::read(case, true),
        b"after" => wires::read(case, false),
        b"type" => types::typed(case),
        b"setup" => boxes::set_up(case),
        b"box" => boxes::boxed(case, false),
        b"receive" => receiving::received(case),
        b"class" => classes::sorted(case),
        b"record" => records::read(case),
        b"write" => records::write(case),
        _ => None,
    }
}
