// The letters of type strings.
ghost use Rattle.std.specs.Prelude.{◌≡◌};
ghost use Rattle.typestring.specs.Kind.{kind_of};

// How a value that other items may follow stands in a payload.
#[derive(Clone, Copy)]
pub enum Value {
    // b: one octet, 00 or 01.
    Bool,
    // C c S s L l e E 6: so many octets.
    Fixed(usize),
    // i: a packed integer.
    Packed,
    // U: text up to its first zero.
    Text,
    // d: octets behind their count.
    Counted,
}

#[derive(Clone, Copy)]
pub enum ItemKind {
    Value(Value),
    // D: the octets up to the end of the part.
    Rest,
    // t: items in brackets, behind the count of their octets.
    Struct,
    // A: items in brackets, again and again up to the end of the part.
    Array,
}

// What a letter stands for. A bracket is no letter. A function and no TryFrom: none is no error, and docs/PROMISES.md has it by this name.
#[tactic(auto, unfolding(crate::specs::Kind::kind_of))]
pub fn kind_of(octet: u8) -> Option<ItemKind>
    ensures { result ≡ kind_of octet }
{
    Some(match octet {
        b'b' => ItemKind::Value(Value::Bool),
        b'C' | b'c' => ItemKind::Value(Value::Fixed(1)),
        b'S' | b's' => ItemKind::Value(Value::Fixed(2)),
        b'L' | b'l' => ItemKind::Value(Value::Fixed(4)),
        b'e' => ItemKind::Value(Value::Fixed(6)),
        b'E' => ItemKind::Value(Value::Fixed(8)),
        b'6' => ItemKind::Value(Value::Fixed(16)),
        b'i' => ItemKind::Value(Value::Packed),
        b'U' => ItemKind::Value(Value::Text),
        b'd' => ItemKind::Value(Value::Counted),
        b'D' => ItemKind::Rest,
        b't' => ItemKind::Struct,
        b'A' => ItemKind::Array,
        _ => return None,
    })
}
