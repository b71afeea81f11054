// Sets of transaction numbers as the bits of a u16: number n is in a set where the bit of weight 2^n is 1. They are functions of the u16 itself,
// which is the form of the table's public fields.
ghost use Rattle.std.specs.Prelude.{◌≡◌, ◌<◌, eqb, get_or, set};
ghost use Rattle.transactions.specs.NumberSet.{digits};

#[tactic(auto, using(crate::proofs::LawsDigits::digit_at))]
pub fn has(bits: u16, number: u8) -> bool
    requires { number < 16 }
    ensures { result ≡ eqb (get_or (digits 16 bits) number 0) 1 }
{
    (bits >> number) % 2 == 1
}

#[tactic(auto, using(crate::proofs::LawsDigits::bit_is, crate::proofs::LawsDigits::digits_set))]
pub fn with(bits: u16, number: u8) -> u16
    requires { number < 16 }
    ensures { digits 16 result ≡ set (digits 16 bits) number 1 }
{
    bits | (1 << number)
}

#[tactic(auto, using(crate::proofs::LawsDigits::bit_is, crate::proofs::LawsDigits::digits_clear))]
pub fn without(bits: u16, number: u8) -> u16
    requires { number < 16 }
    ensures { digits 16 result ≡ set (digits 16 bits) number 0 }
{
    bits & !(1 << number)
}
