// Texts: the version text and a link's name.
ghost use Rattle.std.specs.Prelude.{◌≡◌};
ghost use Rattle.device.specs.Text.{is_text};

use octets::find_octet;
use utf8::is_utf8;

// Whether octets are a text of at most so many.
#[tactic(auto, unfolding(crate::specs::Text::is_text, crate::specs::Text::good_text))]
pub fn is_text(octets: &[u8], most: usize) -> bool
    ensures { result ≡ is_text most octets.now }
{
    octets.len() <= most && is_utf8(octets) && find_octet(octets, 0, 0) == octets.len()
}
