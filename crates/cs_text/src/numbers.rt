// Decimal numbers: digits with no sign and no leading zero.
ghost use Rattle.std.specs.Prelude.{◌≡◌, ◌<◌, ◌^◌, ◌++◌, ℕ, List, true, decimal, OnOk, OnErr};
ghost use Rattle.std.specs.Char.{is_ascii_digit};
ghost use Rattle.std.specs.List.{list_all};
ghost use Rattle.cs_text.specs.Decimal.{is_decimal, value, dec_of};

use cs_ids::{Bytes, Memory};
use itoa::Buffer;
use std::str;

/// What some bytes are as a decimal number.
#[derive(Clone, Copy, PartialEq, Eq, Debug)]
pub enum Dec {
    /// The number that the digits spell.
    Value(u64),
    /// The bytes aren't digits alone, or have a leading zero, or there are none.
    Shape,
    /// The digits spell a number above the greatest u64.
    Big,
}

/// Reads a decimal number: digits with no sign, and no leading zero but in `0` itself. The shape is
/// tested before the size, so digits of any length are `Big` and not `Shape`.
pub fn read_dec(b: &[u8]) -> Dec
    ensures { result ≡ dec_of b.now }
{
    if !is_decimal(b) {
        return Dec::Shape;
    }
    let Ok(digits) = str::from_utf8(b) else {
        return Dec::Shape;
    };
    match digits.parse::<u64>() {
        Ok(value) => Dec::Value(value),
        Err(_) => Dec::Big,
    }
}

/// Adds the number in decimal digits, with no leading zero. After `Memory` the bytes are as before.
pub fn put_dec(out: &mut Bytes, v: u64) -> Result<(), Memory>
    ensures ok { OnOk result (out.new ≡ out.old ++ decimal v) }
    ensures err { OnErr result (out.new ≡ out.old) }
{
    out.append(Buffer::new().format(v).as_bytes())
}

/// What `put_dec` writes of a number is read as that number, and no other digits are.
pub fn each_number_is_read()
    ensures read { (n : ℕ) → n < 2 ^ 64 → dec_of (decimal n) ≡ Dec.Value n }
    ensures alone { (w : List ℕ) (n : ℕ) → dec_of w ≡ Dec.Value n → decimal n ≡ w }
{}

#[tactic(auto, using(crate::proofs::Decimals::list_all_digits))]
fn is_decimal(b: &[u8]) -> bool
    ensures { result ≡ is_decimal b.now }
{
    match b {
        [] => false,
        [digit] => digit.is_ascii_digit(),
        [first, rest @ ..] => first.is_ascii_digit() && *first != b'0' && are_digits(rest),
    }
}

fn are_digits(b: &[u8]) -> bool
    ensures { result ≡ list_all is_ascii_digit b.now }
{
    b.iter().all(|c| c.is_ascii_digit())
}
