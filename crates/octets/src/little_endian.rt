// Numbers of up to four octets, the least significant first (000, section 3).
ghost use Rattle.std.specs.Prelude.{◌≡◌, ◌+◌, ◌≤◌, length};
ghost use Rattle.octets.specs.LittleEndian.{le_at, le_octets};
ghost use Rattle.octets.specs.Writing.{Wrote};

// The number in the `width` octets from `at` on.
pub fn read_le(octets: &[u8], at: usize, width: usize) -> u32
    requires { (width ≤ 4) × (at + width ≤ length octets.now) }
    ensures { result ≡ le_at octets.now at width }
{
    let mut n: u32 = 0;
    for octet in octets[at..at + width].iter().rev() {
        n = n * 256 + u32::from(*octet);
    }
    n
}

// The `width` low octets of `n`.
pub fn write_le(out: &mut [u8], at: usize, n: u32, width: usize) -> usize
    requires { at + width ≤ length out.old }
    ensures { Wrote out.old out.new at result (le_octets width n) }
{
    let mut rest = n;
    for place in out[at..at + width].iter_mut() {
        *place = (rest % 256) as u8;
        rest /= 256;
    }
    at + width
}
