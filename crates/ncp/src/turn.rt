// One call of the box, and its reply as a line.
ghost use Rattle.ncp.specs.Turn.{received, Took};

use device::Device;
use hdlc::Reader;
use lines::write_line;
use serial::receive_body;

// The box and its reader between two calls. The assembly buffer goes beside them: buffers are lent.
#[derive(Clone, Copy)]
pub struct Session {
    pub device: Device,
    pub reader: Reader,
}

#[derive(Clone, Copy)]
pub struct Turn {
    // How many octets of the input were read.
    pub read: usize,
    // How many letters the line has, from the front of the space lent for it.
    pub len: usize,
}

impl Turn {
    // The longest line: three letters for each octet of a reply.
    pub const MAX_LINE: usize = 3 * Device::MAX_REPLY;
}

impl Session {
    // The receiving call before framing. The line is that of the reply, if there is one.
    pub fn receive_line(
        &mut self,
        input: &[u8],
        assembly: &mut [u8],
        line: &mut [u8; Turn::MAX_LINE],
    ) -> Turn
        ensures { Took self.old.device (received self.old.device self.old.reader input.now assembly.old)
            result self.new assembly.new line.old line.new }
    {
        let mut reply = [0u8; Device::MAX_REPLY];
        let received = receive_body(self.device, self.reader, input, assembly, &mut reply);
        self.device = received.device;
        self.reader = received.reader;
        Turn {
            read: received.read,
            len: write_line(&reply[..received.written], line),
        }
    }
}
