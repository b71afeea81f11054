// Lines from standard input, one after the other, and their answers. What a read gives, and that a line goes out, is the operating system's part:
// no contract can say it, and it is run and compared.
ghost use Rattle.std.specs.Prelude.{◌≡◌, ◌≤◌, OnOk};
ghost use Rattle.transaction_script.specs.Line.{max_text};
ghost use Rattle.transaction_script.specs.Run.{state_of, after_line, after_octet, after_octets};

use crate::line::Line;
use crate::play::{Said, play};
use std::io;
use std::io::{Stdin, Stdout};
use streams::read_some;
use transactions::Table;

// The table, and the line that is coming in.
#[derive(Clone, Copy)]
pub struct Script {
    pub table: Table,
    pub line: Line,
}

impl Script {
    // The line has ended. An answer that could not be written is an error, and the line is played all the same.
    #[tactic(auto, unfolding(crate::specs::Run::after_line, crate::specs::Run::ends))]
    fn end_line(&mut self, stdout: Stdout, body: &[u8]) -> io::Result<()>
        requires { self.old.line.len ≤ max_text }
        ensures { state_of self.new body.now ≡ after_line (state_of self.old body.now) }
    {
        let played = play(self.table, self.line.event(), body);
        *self = Script {
            table: played.table,
            line: Line::fresh(),
        };
        match played.said {
            // A line that asks for nothing is not displayed, since even no letters would go through a buffer.
            Said::Nothing => Ok(()),
            said => stdout.print(said),
        }
    }

    #[tactic(auto, unfolding(crate::specs::Run::after_octet))]
    fn take_octet(&mut self, stdout: Stdout, octet: u8, body: &mut [u8]) -> io::Result<()>
        requires { self.old.line.len ≤ max_text }
        ensures { state_of self.new body.new ≡ after_octet (state_of self.old body.old) octet }
    {
        if octet == b'\n' {
            return self.end_line(stdout, body);
        }
        self.line = self.line.take(octet, body);
        Ok(())
    }

    // Octets one after the other, until an answer cannot be written.
    #[tactic(auto, unfolding(crate::specs::Run::after_octets))]
    fn take_chunk(&mut self, stdout: Stdout, chunk: &[u8], body: &mut [u8]) -> io::Result<()>
        requires { self.old.line.len ≤ max_text }
        ensures room { self.new.line.len ≤ max_text }
        ensures state { OnOk result (state_of self.new body.new ≡ after_octets (state_of self.old body.old) chunk.now) }
    {
        for octet in chunk {
            self.take_octet(stdout, *octet, body)?;
        }
        Ok(())
    }
}

// A proved loop has to end, and nothing says that the input does. So it makes 2^64 - 1 reads at most.
pub fn run(mut stdin: Stdin, stdout: Stdout, body: &mut [u8; Line::MAX_BODY]) -> io::Result<()> {
    let mut script = Script {
        table: Table::fresh(),
        line: Line::fresh(),
    };
    let mut chunk = [0u8; 4096];
    for _ in 0..u64::MAX {
        // 0 at the end of the input, and where the read failed. What came of a last line counts.
        let read = read_some(&mut stdin, &mut chunk);
        if read == 0 {
            return script.end_line(stdout, &body[..]);
        }
        script.take_chunk(stdout, &chunk[..read], &mut body[..])?;
    }
    Ok(())
}
