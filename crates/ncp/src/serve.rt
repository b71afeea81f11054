// Standard input and output around the box. What a read gives, and that a line goes out, is the operating system's part: no contract can say
// it, and it is run and compared.
ghost use Rattle.std.specs.Prelude.{true, ◌≡◌, ◌≤◌, length, take, IfOk, OnOk};
ghost use Rattle.hdlc.specs.Reader.{max_gathered};
ghost use Rattle.device.specs.Rules.{rules};
ghost use Rattle.ncp.specs.Serve.{state_of, KeepsState, start, gives, next, chunk_leaves, Ended};

use crate::turn::{Session, Turn};
use device::Device;
use hdlc::Reader;
use std::io;
use std::io::{Stdin, Stdout};
use streams::read_some;

// A session after some octets of its input.
#[derive(Clone, Copy)]
pub struct Progress {
    pub session: Session,
    // How many octets were read last.
    pub read: usize,
}

// A call, which counts what it read whether or not its line could be written.
#[derive(Drop)]
struct Call {
    read: usize,
    line: io::Result<()>,
}

// An error is that a line could not be written. It ends the program, and the session stands where the calls until then leave it.
impl Session {
    // One call, and its line.
    fn serve_call(&mut self, stdout: Stdout, input: &[u8], assembly: &mut [u8]) -> Call
        ensures read { result.read ≡ (gives (state_of self.old assembly.old) input.now).read }
        ensures state { state_of self.new assembly.new ≡ next (state_of self.old assembly.old) input.now }
    {
        let mut line = [0u8; Turn::MAX_LINE];
        let turn = self.receive_line(input, assembly, &mut line);
        Call {
            read: turn.read,
            line: stdout.write_all(&line[..turn.len]),
        }
    }

    // Calls until the chunk is used up. Reader and assembly buffer go on into the next chunk.
    fn serve_chunk(&mut self, stdout: Stdout, chunk: &[u8], assembly: &mut [u8]) -> io::Result<()>
        requires { KeepsState (state_of self.old assembly.old) }
        ensures keeps { KeepsState (state_of self.new assembly.new) }
        ensures state { OnOk result (state_of self.new assembly.new ≡ chunk_leaves (state_of self.old assembly.old) chunk.now) }
    {
        let mut rest = chunk;
        while !rest.is_empty() {
            let Call { read, line } = self.serve_call(stdout, rest, assembly);
            line?;
            rest = &rest[read..];
        }
        Ok(())
    }

    // Takes what one read gives, so that no reply waits for more input. Returns how many octets that is: 0 at the end of the input, and where
    // the read failed.
    fn serve_read(
        &mut self,
        stdin: &mut Stdin,
        stdout: Stdout,
        chunk: &mut [u8],
        assembly: &mut [u8],
    ) -> io::Result<usize>
        requires { KeepsState (state_of self.old assembly.old) }
        ensures keeps { KeepsState (state_of self.new assembly.new) }
        ensures state { IfOk result (λ n. state_of self.new assembly.new ≡ chunk_leaves (state_of self.old assembly.old) (take n chunk.new)) }
    {
        let read = read_some(stdin, chunk);
        self.serve_chunk(stdout, &chunk[..read], assembly)?;
        Ok(read)
    }
}

// A proved loop has to end, and nothing says that the input does. So there are 2^64 - 1 reads at most, which takes 584 years at one each
// nanosecond.
pub fn serve(
    device: Device,
    mut stdin: Stdin,
    stdout: Stdout,
    assembly: &mut [u8],
) -> io::Result<Progress>
    requires rules { rules device ≡ true }
    requires room { max_gathered ≤ length assembly.old }
    ensures { Ended (start device assembly.old) result assembly.new }
{
    let mut session = Session {
        device,
        reader: Reader::fresh(),
    };
    let mut chunk = [0u8; 4096];
    let mut read = 0;
    for _ in 0..u64::MAX {
        read = session.serve_read(&mut stdin, stdout, &mut chunk, assembly)?;
        if read == 0 {
            return Ok(Progress { session, read });
        }
    }
    Ok(Progress { session, read })
}
