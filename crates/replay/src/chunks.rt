// A log's octets from standard input, a record at a time. What a read gives is the operating system's part: no contract can say it, and it is
// run and compared.
ghost use Rattle.std.specs.Prelude.{◌≡◌, ◌≤◌, length, take};
ghost use Rattle.replay.specs.Chunks.{body_left, IsChunk};

use capture::{ReadError, Record, read_record};
use octets::read_le;
use std::io::Stdin;
use streams::read_full;

// How many octets of a body are to come, where these are five and a good head; else none.
fn body_left(octets: &[u8]) -> usize
    ensures { result ≡ body_left octets.now }
{
    match read_record(octets, 0) {
        Err(ReadError::CutOff) if octets.len() == Record::HEAD_SIZE => {
            read_le(octets, 3, 2) as usize
        }
        _ => 0,
    }
}

// Reads the next record to the front of the space, and no octet of the one behind it. Returns how many octets came: fewer where the input ends
// or a read fails, and only five where they are no good head.
#[tactic(auto, using(crate::proofs::LawsChunks::left_most, crate::proofs::LawsChunks::read_is_chunk))]
pub fn read_chunk(stdin: &mut Stdin, space: &mut [u8; Record::MAX_OCTETS]) -> usize
    ensures room { result ≤ length space.new }
    ensures chunk { IsChunk (take result space.new) }
{
    let head = read_full(stdin, &mut space[..Record::HEAD_SIZE]);
    let end = head + body_left(&space[..head]);
    head + read_full(stdin, &mut space[head..end])
}
