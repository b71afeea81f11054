// The box of 01's program, which is the one that its marked bodies are told for.
ghost use Rattle.std.specs.Prelude.{true, ◌≡◌};
ghost use Rattle.device.specs.Rules.{rules};
ghost use Rattle.engine.specs.Marked.{fresh_box};

use device::{Device, setup};

// A box of two links, vendor 0, zero address, empty version text.
pub fn two_links() -> Device
    ensures device { result ≡ fresh_box }
    ensures keeps { rules result ≡ true }
{
    setup(2, 0, b"", &[0; Device::ADDRESS_SIZE]).device
}
