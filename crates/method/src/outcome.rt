// What a command on one property comes to, where it is not refused.
ghost use Rattle.std.specs.Prelude.{◌≡◌, Ok};
ghost use Rattle.method.specs.Outcome.{done};

use device::{Effect, Link};

// What a command does to the whole box, and the link that it leaves.
#[derive(Clone, Copy, PartialEq, Eq)]
pub struct Performed {
    pub effect: Effect,
    pub link: Link,
}

// A command that changes its link alone.
pub fn done(link: Link) -> Performed
    ensures { Ok result ≡ done link }
{
    Performed {
        effect: Effect::None,
        link,
    }
}
