// Where one value stands in a payload.
ghost use Rattle.std.specs.Prelude.{◌≡◌, ◌-◌, ◌≤◌, length, drop, Some};
ghost use Rattle.octets.specs.Finding.{before};
ghost use Rattle.packed.specs.Packed.{packed_at};

use octets::{find_octet, read_le};
use packed::{Fault, read_packed};
use typestring::Value;
use utf8::is_utf8;

// Where a value stands, and the place after it.
#[derive(Clone, Copy)]
pub struct Span {
    pub start: usize,
    pub size: usize,
    pub next: usize,
}

// That a value does not fit; and the fault, if it is a packed integer.
#[derive(Clone, Copy)]
pub struct Misfit {
    pub cause: Option<Fault>,
}

impl From<Fault> for Misfit {
    ghost from_gives = { λ f m. m ≡ record { cause = Some f } };

    fn from(fault: Fault) -> Misfit {
        Misfit { cause: Some(fault) }
    }
}

// The payload up to the end of the part that is read, and a place in it.
#[derive(Clone, Copy)]
pub struct Part<'a> {
    pub octets: &'a [u8],
    pub from: usize,
    ghost inside: { from ≤ length octets.now },
}

impl Part<'_> {
    ghost use Rattle.datatype.specs.Leaf.{fixed_at, bool_at, number_span, text_at, counted_at, span_of, rest_of};

    #[tactic(auto, unfolding(crate::specs::Leaf::span_of))]
    pub fn span_of(&self, value: Value) -> Result<Span, Misfit>
        ensures { result ≡ span_of value self.now.octets.now self.now.from }
    {
        match value {
            Value::Bool => self.bool(),
            Value::Fixed(width) => self.fixed(width),
            Value::Packed => self.packed(),
            Value::Text => self.text(),
            Value::Counted => self.counted(),
        }
    }

    // How many octets are left in the part.
    fn left(&self) -> usize
        ensures { result ≡ length self.now.octets.now - self.now.from }
    {
        self.octets.len() - self.from
    }

    #[tactic(auto, unfolding(crate::specs::Leaf::fixed_at))]
    fn fixed(&self, width: usize) -> Result<Span, Misfit>
        ensures { result ≡ fixed_at width self.now.octets.now self.now.from }
    {
        if self.left() < width {
            return Err(Misfit { cause: None });
        }
        Ok(Span {
            start: self.from,
            size: width,
            next: self.from + width,
        })
    }

    #[tactic(auto, unfolding(crate::specs::Leaf::bool_at))]
    fn bool(&self) -> Result<Span, Misfit>
        ensures { result ≡ bool_at self.now.octets.now self.now.from }
    {
        if self.from < self.octets.len() && 1 < self.octets[self.from] {
            return Err(Misfit { cause: None });
        }
        self.fixed(1)
    }

    #[tactic(auto, unfolding(crate::specs::Leaf::number_span))]
    fn packed(&self) -> Result<Span, Misfit>
        ensures { result ≡ number_span self.now.from (packed_at self.now.octets.now self.now.from) }
    {
        let integer = read_packed(self.octets, self.from)?;
        Ok(Span {
            start: self.from,
            size: integer.next - self.from,
            next: integer.next,
        })
    }

    fn text(&self) -> Result<Span, Misfit>
        ensures { result ≡ text_at (before 0 (drop self.now.from self.now.octets.now)) self.now.octets.now self.now.from }
    {
        let zero = find_octet(self.octets, self.from, 0);
        if self.octets.len() <= zero || !is_utf8(&self.octets[self.from..zero]) {
            return Err(Misfit { cause: None });
        }
        Ok(Span {
            start: self.from,
            size: zero - self.from,
            next: zero + 1,
        })
    }

    // The octets behind a 16-bit count of them.
    #[tactic(auto, unfolding(crate::specs::Leaf::counted_at))]
    pub fn counted(&self) -> Result<Span, Misfit>
        ensures { result ≡ counted_at self.now.octets.now self.now.from }
    {
        if self.left() < 2 {
            return Err(Misfit { cause: None });
        }
        let start = self.from + 2;
        let size = read_le(self.octets, self.from, 2) as usize;
        if self.octets.len() - start < size {
            return Err(Misfit { cause: None });
        }
        Ok(Span {
            start,
            size,
            next: start + size,
        })
    }

    // The octets up to the end of the part.
    pub fn rest(&self) -> Span
        ensures { result ≡ rest_of self.now.octets.now self.now.from }
    {
        Span {
            start: self.from,
            size: self.left(),
            next: self.octets.len(),
        }
    }
}
