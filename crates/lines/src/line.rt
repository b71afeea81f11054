// A body as a line of text (01, Bodies and their replies).
ghost use Rattle.std.specs.Prelude.{◌≡◌, ◌*◌, ◌≤◌, length};
ghost use Rattle.octets.specs.Writing.{Wrote};
ghost use Rattle.lines.specs.Line.{shown, line_of};

use octets::write_octets;

static DIGITS: [u8; 16] = *b"0123456789abcdef";

// An octet's digits, and what stands behind it where so many octets are left.
fn shown(octet: u8, left: usize) -> [u8; 3]
    ensures { result ≡ shown octet left }
{
    let high = DIGITS[usize::from(octet / 16)];
    let low = DIGITS[usize::from(octet % 16)];
    if left == 0 {
        [high, low, b'\n']
    } else {
        [high, low, b' ']
    }
}

// Writes a body's line from the front of `out` and returns how many letters it has.
pub fn write_line(body: &[u8], out: &mut [u8]) -> usize
    requires { 3 * length body.now ≤ length out.old }
    ensures { Wrote out.old out.new 0 result (line_of body.now) }
{
    let mut next = 0;
    for (i, octet) in body.iter().enumerate() {
        next = write_octets(out, next, &shown(*octet, body.len() - i - 1));
    }
    next
}
