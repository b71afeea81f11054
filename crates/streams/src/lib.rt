// Reading a stream where a failed read counts as the end of the input.
#![tactic(auto)]

ghost use Rattle.std.specs.Prelude.{◌≡◌, ◌≤◌, length, take};
ghost use Rattle.std.specs.Io.KnownBytes.{Consumes};

use std::io::Read;

// Reads once. Returns how many octets came, at the front of the space: 0 at the end of the input, as std's `read`, and where the read failed
// or was interrupted.
pub fn read_some<R: Read>(reader: &mut R, space: &mut [u8]) -> usize
    ensures in_bounds { result ≤ length space.new }
    ensures count { result ≡ length (take result space.new) }
    ensures octets { Consumes (R.remaining reader.old) (R.remaining reader.new) (take result space.new) }
{
    reader.read(space).unwrap_or(0)
}

// Reads until the space is full, the input ends or a read fails, and no octet that the space has no room for. Returns how many octets came, at
// the front of the space. With no room it does not read.
pub fn read_full<R: Read>(reader: &mut R, space: &mut [u8]) -> usize
    ensures in_bounds { result ≤ length space.new }
    ensures count { result ≡ length (take result space.new) }
    ensures octets { Consumes (R.remaining reader.old) (R.remaining reader.new) (take result space.new) }
{
    // A loop of its own: `read_exact` would not say how many octets came, and would read again where a read was interrupted.
    let mut done = 0;
    while done < space.len() {
        let count = read_some(reader, &mut space[done..]);
        if count == 0 {
            return done;
        }
        done += count;
    }
    done
}

#[cfg(test)]
mod tests {
    use super::*;
    use std::io::{Error, ErrorKind, Result};

    // Gives its octets one a read, and then fails.
    #[derive(Drop)]
    struct Failing<'a>(&'a [u8]);

    impl Read for Failing<'_> {
        fn read(&mut self, buf: &mut [u8]) -> Result<usize> {
            let Some((first, rest)) = self.0.split_first() else {
                return Err(Error::from(ErrorKind::Interrupted));
            };
            if buf.is_empty() {
                return Ok(0);
            }
            buf[0] = *first;
            self.0 = rest;
            Ok(1)
        }
    }

    #[test]
    fn reads_what_there_is(rt: HostRuntime) {
        let mut reader: &[u8] = b"octets";
        let mut space = [0u8; 4];
        assert_eq!(rt; read_full(&mut reader, &mut space), 4);
        assert!(rt; space == *b"octe");
        assert_eq!(rt; read_some(&mut reader, &mut space), 2);
        assert!(rt; space == *b"tste");
        assert_eq!(rt; read_some(&mut reader, &mut space), 0);
    }

    #[test]
    fn ends_where_a_read_fails(rt: HostRuntime) {
        let mut reader = Failing(b"abc");
        let mut space = [0u8; 4];
        assert_eq!(rt; read_some(&mut reader, &mut space), 1);
        assert_eq!(rt; read_full(&mut reader, &mut space), 2);
        assert!(rt; space == *b"bc\0\0");
        assert_eq!(rt; read_some(&mut reader, &mut space), 0);
    }
}
