// Records one after the other, and their lines.
ghost use Rattle.std.specs.Prelude.{true, ◌≡◌};
ghost use Rattle.device.specs.Rules.{rules};
ghost use Rattle.replay.specs.Play.{silent};
ghost use Rattle.replay.specs.Playback.{state_of};
ghost use Rattle.replay.specs.Run.{Turned, Took, Ended};

use crate::chunks::read_chunk;
use crate::play::{Line, Playback};
use capture::{Record, read_record};
use device::Device;
use std::io;
use std::io::{Stdin, Stdout};

// A chunk of the log, played.
#[derive(Clone, Copy)]
pub struct Turn {
    // How many octets the chunk has.
    pub read: usize,
    // None where the chunk is no record: the log ends there, or is at fault.
    pub line: Option<Line>,
}

// A log, played.
#[derive(Drop)]
pub struct Replayed {
    pub playback: Playback,
    // How many octets the chunk has that is no record and ended the program, or that a line could not be written, which ends it too. After
    // 2^64 - 1 chunks, 0.
    pub last: io::Result<usize>,
}

// The record at the front of a chunk, played. None where there is none: the log ends there, or is at fault.
fn play_chunk(playback: &mut Playback, chunk: &[u8]) -> Option<Line>
    ensures { Turned (state_of playback.old) (state_of playback.new) result chunk.now }
{
    let record = read_record(chunk, 0).ok().flatten()?;
    Some(playback.play(
        u8::from(record.direction),
        &chunk[record.start..record.next],
    ))
}

// The next chunk of the log, played.
fn play_next(
    playback: &mut Playback,
    stdin: &mut Stdin,
    space: &mut [u8; Record::MAX_OCTETS],
) -> Turn
    ensures { Took (state_of playback.old) (state_of playback.new) result space.new }
{
    let read = read_chunk(stdin, space);
    Turn {
        read,
        line: play_chunk(playback, &space[..read]),
    }
}

// By a match: an `Option<bool>` is displayed by nobody else.
fn print(stdout: Stdout, line: Line) -> io::Result<()> {
    match line {
        None => Ok(()),
        Some(true) => stdout.write_all(b"yes\n"),
        Some(false) => stdout.write_all(b"no\n"),
    }
}

// Each line is written before more is read. A proved loop has to end, and nothing says that the input does. So there are 2^64 - 1 chunks at
// most.
fn play_log(
    playback: &mut Playback,
    mut stdin: Stdin,
    stdout: Stdout,
    space: &mut [u8; Record::MAX_OCTETS],
) -> io::Result<usize>
    ensures { Ended (state_of playback.old) (state_of playback.new) result space.new }
{
    for _ in 0..u64::MAX {
        let turn = play_next(playback, &mut stdin, space);
        let Some(line) = turn.line else {
            return Ok(turn.read);
        };
        print(stdout, line)?;
    }
    Ok(0)
}

// Plays a log to a box, with nothing before the first record.
pub fn run(
    device: Device,
    stdin: Stdin,
    stdout: Stdout,
    space: &mut [u8; Record::MAX_OCTETS],
) -> Replayed
    requires { rules device ≡ true }
    ensures { Ended (silent device) (state_of result.playback) result.last space.new }
{
    let mut playback = Playback::silent(device);
    let last = play_log(&mut playback, stdin, stdout, space);
    Replayed { playback, last }
}
