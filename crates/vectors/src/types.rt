// Payloads read under type strings (01, Type strings).
use crate::show::Case;
use crate::text::{MAX_OCTETS, bare, cut, number, octets};
use crate::{integers, show};
use datatype::{Payload, Refusal, read_typed};
use std::io::Stdout;

// The longest list that is lent: one that is always long enough.
const MAX_LIST: usize = Payload::MAX_NUMBERS;

// What is told of a list, and how many numbers of it are lent.
#[derive(Clone, Copy)]
enum List {
    // Each leaf of one that is always long enough.
    All,
    // `first 6 of 8 sevens`.
    First(usize),
    // `last of 192`.
    Last(usize),
}

pub fn typed(case: Case) -> Option<()> {
    let mut out = [0u8; MAX_OCTETS];
    let (types, rest) = cut(case.text, b',')?;
    let (payload, list) = match cut(rest, b',') {
        Some((payload, list)) => (payload, list_of(bare(list))?),
        None => (rest, List::All),
    };
    let payload = octets(bare(payload), &mut out)?;
    case.show();
    let _ = print!(case.stdout; ": ");
    read(case.stdout, types, payload, list);
    Some(())
}

fn list_of(words: &[u8]) -> Option<List> {
    if let Some(rest) = words.strip_prefix(b"last of ") {
        return number(rest).filter(|n| *n <= MAX_LIST).map(List::Last);
    }
    let lent = words
        .strip_prefix(b"first ")?
        .strip_suffix(b" of 8 sevens")?;
    number(lent).filter(|n| *n <= 8).map(List::First)
}

// A reading into the first numbers of a list of sevens, and what the list is then.
fn read(stdout: Stdout, types: &[u8], payload: &[u8], told: List) {
    let mut list = [7u32; MAX_LIST];
    let lent = match told {
        List::All => MAX_LIST,
        List::First(n) | List::Last(n) => n.min(MAX_LIST),
    };
    let answer = read_typed(types, payload, &mut list[..lent]);
    tell(stdout, answer);
    let count = answer.unwrap_or(0);
    let (leaves, _) = list.as_chunks::<3>();
    let leaves = leaves.iter().take(count);
    match told {
        List::All => {
            for (k, leaf) in leaves.enumerate() {
                tell_leaf(stdout, if k == 0 { b": " } else { b", " }, *leaf);
            }
        }
        List::First(_) => {
            let _ = print!(stdout; ", now");
            numbers(stdout, &list[..8]);
        }
        List::Last(_) => {
            if let Some(leaf) = leaves.last() {
                tell_leaf(stdout, b", last ", *leaf);
            }
        }
    }
}

// The answer's number, and how many leaves there are or why there are none.
fn tell(stdout: Stdout, answer: Result<usize, Refusal>) {
    match answer {
        Ok(count) => {
            let _ = print!(stdout; "0 with {count}");
        }
        Err(refusal) => {
            // Out of the answer itself and not by `cause`, so that a fault that is another than the one reported shows.
            let cause = match refusal {
                Refusal::Misfit(cause) => cause,
                Refusal::Malformed | Refusal::ShortList => None,
            };
            let _ = print!(stdout; "{}{}", refusal.number(), integers::cause(cause));
        }
    }
}

// A leaf after a word: its letter, its start and its length.
fn tell_leaf(stdout: Stdout, word: &[u8], leaf: [u32; 3]) {
    let [letter, start, size] = leaf;
    show::text(stdout, word);
    show::text(stdout, &[(letter % 256) as u8]);
    numbers(stdout, &[start, size]);
}

// Each number after a space.
fn numbers(stdout: Stdout, list: &[u32]) {
    for n in list {
        let _ = print!(stdout; " {n}");
    }
}
