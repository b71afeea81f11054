// What a line asks for.
ghost use Rattle.std.specs.Prelude.{◌≡◌};
ghost use Rattle.transaction_script.specs.Event.{with_digit, decimal_in, bits_in, resetting_in, table_event, word_event, longer_event, event_of};

use lines::{HexLine, read_line};
use transactions::Table;

#[derive(Clone, Copy, PartialEq, Eq)]
pub enum Event {
    // A blank line or a comment: a line in order, which asks for nothing. None is for a line that is no event, and is told so.
    Nothing,
    Open,
    Reset,
    GiveUp(u8),
    // A body of so many octets, at the front of the space lent for it.
    Body(usize),
    // A fresh table.
    Fresh,
    // Another table in place of the one that there was.
    Put(Table),
}

// A number with a digit more, if it is still at most 255.
#[tactic(auto, unfolding(crate::specs::Event::with_digit, octets::specs::Ranges::is_between))]
fn with_digit(number: u8, letter: u8) -> Option<u8>
    ensures { result ≡ with_digit number letter }
{
    match letter {
        b'0'..=b'9' => number.checked_mul(10)?.checked_add(letter - b'0'),
        _ => None,
    }
}

// A decimal of 0 to 255 without leading zeros, which `vectors` allows: so each has its own.
#[tactic(auto, unfolding(crate::specs::Event::decimal_in))]
fn decimal(text: &[u8]) -> Option<u8>
    ensures { result ≡ decimal_in text.now }
{
    if text.is_empty() || (text[0] == b'0' && 1 < text.len()) {
        return None;
    }
    let mut number = 0;
    for letter in text {
        number = with_digit(number, *letter)?;
    }
    Some(number)
}

// Two octets in hex, the high one first.
#[tactic(auto, unfolding(crate::specs::Event::bits_in))]
fn bits(text: &[u8]) -> Option<u16>
    ensures { result ≡ bits_in text.now }
{
    let mut octets = [0u8; 2];
    match read_line(text, &mut octets) {
        Some(HexLine::Octets(2)) => Some(u16::from_be_bytes(octets)),
        _ => None,
    }
}

// Whether a reset is under way.
#[tactic(auto, using(crate::proofs::LawsEvent::resetting_short, crate::proofs::LawsEvent::resetting_long))]
fn resetting(word: &[u8]) -> Option<bool>
    ensures { result ≡ resetting_in word.now }
{
    match word {
        b"steady" => Some(false),
        b"resetting" => Some(true),
        _ => None,
    }
}

// What stands behind `table `: four digits, a space, four digits, a space, and a word.
#[tactic(auto, unfolding(crate::specs::Event::table_event))]
fn table_event(text: &[u8]) -> Option<Event>
    ensures { result ≡ table_event text.now }
{
    if text.len() < 10 || text[4] != b' ' || text[9] != b' ' {
        return None;
    }
    Some(Event::Put(Table {
        waiting: bits(&text[..4])?,
        given_up: bits(&text[5..9])?,
        resetting: resetting(&text[10..])?,
    }))
}

// The event of a line that is one word, if it is one.
#[tactic(auto, using(crate::proofs::LawsEvent::word_short, crate::proofs::LawsEvent::word_long))]
fn word_event(text: &[u8]) -> Option<Event>
    ensures { result ≡ word_event text.now }
{
    match text {
        b"open" => Some(Event::Open),
        b"reset" => Some(Event::Reset),
        b"fresh" => Some(Event::Fresh),
        _ => None,
    }
}

// The event of a line whose first words have something behind them, if it is one.
#[tactic(auto, using(crate::proofs::LawsEvent::starts_is), unfolding(crate::specs::Event::longer_event, crate::specs::Event::give_up_event))]
fn longer_event(text: &[u8]) -> Option<Event>
    ensures { result ≡ longer_event text.now }
{
    if let Some(number) = text.strip_prefix(b"give up ") {
        return Some(Event::GiveUp(decimal(number)?));
    }
    table_event(text.strip_prefix(b"table ")?)
}

// The event of a line that is neither blank nor a comment nor a body, if it is one.
#[tactic(auto, unfolding(crate::specs::Event::event_of))]
pub fn event_of(text: &[u8]) -> Option<Event>
    ensures { result ≡ event_of text.now }
{
    word_event(text).or_else(|| longer_event(text))
}
