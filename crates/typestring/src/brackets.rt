// Where the items of a well-formed type string end.
ghost use Rattle.std.specs.Prelude.{ℕ, drop};
ghost use Rattle.typestring.specs.Grammar.{Item, Items};
ghost use Rattle.typestring.specs.Calls.{ItemFrom, InBrackets, EndsItem, EndsBrackets};

// The place behind the item at a place: behind its letter, or behind the bracket that closes it.
pub fn item_end(types: &[u8], at: usize) -> usize
    requires { (i : Item) × (depth : ℕ) × ItemFrom (drop at types.now) depth i }
    ensures { EndsItem (drop at types.now) at result }
{
    match types[at] {
        b't' | b'A' => at + 2 + bracket_end(&types[at + 2..]),
        _ => at + 1,
    }
}

// How many octets there are up to the bracket that closes the one before them, with it.
fn bracket_end(octets: &[u8]) -> usize
    requires { (t : Items) × InBrackets octets.now t }
    ensures { EndsBrackets octets.now 0 result }
{
    let mut unclosed: usize = 1;
    for (index, octet) in octets.iter().enumerate() {
        match *octet {
            b'(' => unclosed += 1,
            b')' => unclosed -= 1,
            _ => {}
        }
        if unclosed == 0 {
            return index + 1;
        }
    }
    unreachable!()
}
