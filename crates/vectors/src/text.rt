// Reading a line: pieces with a mark between two, numbers, and octets.
use lines::{HexLine, read_line};

// The most octets of one call.
pub const MAX_OCTETS: usize = 2048;

// What stands before the first mark, and what after it.
pub fn cut(text: &[u8], mark: u8) -> Option<(&[u8], &[u8])> {
    let at = text.iter().position(|letter| *letter == mark)?;
    Some((&text[..at], &text[at + 1..]))
}

// The first word, and what stands after the space behind it; nothing where there is no space.
pub fn first_word(text: &[u8]) -> (&[u8], &[u8]) {
    cut(text, b' ').unwrap_or((text, b""))
}

// A text without a space before it and one behind it.
pub fn bare(text: &[u8]) -> &[u8] {
    let text = text.strip_suffix(b" ").unwrap_or(text);
    text.strip_prefix(b" ").unwrap_or(text)
}

// What stands after a word.
pub fn after_word<'a>(text: &'a [u8], word: &[u8]) -> Option<&'a [u8]> {
    let (first, rest) = first_word(text);
    (first == word).then_some(rest)
}

// The number that a text spells, where its type has room for it.
pub fn number<T: TryFrom<usize>>(text: &[u8]) -> Option<T>
where
    T::Error: Drop,
{
    T::try_from(decimal(text)?).ok()
}

fn decimal(text: &[u8]) -> Option<usize> {
    if text.is_empty() {
        return None;
    }
    text.iter().try_fold(
        0usize,
        |n, letter| n.checked_mul(10)?.checked_add(digit(*letter)?),
    )
}

fn digit(letter: u8) -> Option<usize> {
    match letter {
        b'0'..=b'9' => Some(usize::from(letter - b'0')),
        _ => None,
    }
}

// The octets that a text spells, at the front of `out`. No text spells none.
pub fn octets<'a>(text: &[u8], out: &'a mut [u8]) -> Option<&'a [u8]> {
    if text.is_empty() {
        return Some(b"");
    }
    call(text, out)
}

// The octets of all parts of a text, at least one: parts have a comma between two.
pub fn call<'a>(text: &[u8], out: &'a mut [u8]) -> Option<&'a [u8]> {
    let mut count: usize = 0;
    for part in text.split(|letter| *letter == b',') {
        let room = out.get_mut(count..)?;
        count = count.checked_add(read_part(bare(part), room)?)?;
    }
    out.get(..count)
}

// A part: octets in hex, or `1300 times 61`. How many octets it put at the front of `out`, at least one.
fn read_part(text: &[u8], out: &mut [u8]) -> Option<usize> {
    let (count, rest) = first_word(text);
    match after_word(rest, b"times") {
        Some(octet) => repeated(number(count)?, octet, out),
        None => spelled(text, out),
    }
}

fn spelled(text: &[u8], out: &mut [u8]) -> Option<usize> {
    match read_line(text, out) {
        Some(HexLine::Octets(n)) if 0 < n => Some(n),
        _ => None,
    }
}

fn repeated(count: usize, text: &[u8], out: &mut [u8]) -> Option<usize> {
    let mut octet = [0u8; 1];
    spelled(text, &mut octet)?;
    out.get_mut(..count)?.fill(octet[0]);
    (0 < count).then_some(count)
}

// Whether a text spells calls, a bar between two. All are read before one is run, which reads it again: there may be any number of them, and
// a buffer has room for one.
pub fn are_calls(text: &[u8]) -> bool {
    text.split(|letter| *letter == b'|')
        .all(|text| is_call(bare(text)))
}

fn is_call(text: &[u8]) -> bool {
    let mut out = [0u8; MAX_OCTETS];
    call(text, &mut out).is_some()
}
