// Bytes as pairs of lower-case hex digits.
ghost use Rattle.std.specs.Prelude.{◌≡◌, ◌<◌, ◌≤◌, ◌++◌, ℕ, List, length, Some, All, OnOk, OnErr, IfOk};
ghost use Rattle.std.specs.Fmt.{DisplaysOnOk};
ghost use Rattle.std.specs.List.{list_all};
ghost use Rattle.cs_text.specs.Hex.{hex_text, bytes_of_hex, is_hex_digit};

use cs_ids::{Bytes, Memory};
use hex::FromHexError;
use std::alloc::Global;
use std::{fmt, str};

/// Bytes that print as two lower-case hex digits each, without memory: the `hex` crate writes up to
/// 256 bytes at once into an array on the stack, and the writer gets each piece in one call.
#[derive(Clone, Copy)]
pub struct HexText<'a>(pub &'a [u8]);

impl fmt::Display for HexText<'_> {
    ghost output = { λ t. Some (hex_text t.0.now) };

    fn fmt<W: fmt::Write>(&self, f: &mut fmt::Formatter<W>) -> fmt::Result {
        for piece in self.0.chunks(256) {
            write_piece(piece, f)?;
        }
        Ok(())
    }
}

fn write_piece<W: fmt::Write>(piece: &[u8], f: &mut fmt::Formatter<W>) -> fmt::Result
    requires { length piece.now ≤ 256 }
    ensures { DisplaysOnOk W.write_str_gives f.old result (Some (hex_text piece.now)) f.new }
{
    let mut room = [0u8; 512];
    let digits = &mut room[..2 * piece.len()];
    let Ok(()) = hex::encode_to_slice(piece, digits) else {
        unreachable!()
    };
    let Ok(text) = str::from_utf8(digits) else {
        unreachable!()
    };
    f.write_str(text)
}

/// Adds two lower-case hex digits for each byte. After `Memory` the bytes of `out` are as before.
pub fn put_hex(out: &mut Bytes, b: &[u8]) -> Result<(), Memory>
    ensures ok { OnOk result (out.new ≡ out.old ++ hex_text b.now) }
    ensures err { OnErr result (out.new ≡ out.old) }
{
    let text = hex::encode(out.allocator(), b)?;
    out.append(text.as_bytes())
}

/// The bytes that pairs of lower-case hex digits spell, or None exactly where `b` isn't such pairs.
pub fn read_hex(alloc: Global, b: &[u8]) -> Result<Option<Bytes>, Memory>
    ensures { IfOk result (λ r. r ≡ bytes_of_hex b.now) }
{
    if !are_hex_digits(b) {
        return Ok(None);
    }
    match hex::decode(alloc, b) {
        Ok(bytes) => Ok(Some(Bytes::from_vec(bytes))),
        Err(fault) => match fault {
            FromHexError::OutOfMemory => Err(Memory),
            _ => Ok(None),
        },
    }
}

/// What `put_hex` writes of some bytes is read as these bytes, and no other text is.
pub fn each_hex_text_is_read()
    ensures read { (bs : List ℕ) → All (λ b. b < 256) bs → bytes_of_hex (hex_text bs) ≡ Some bs }
    ensures alone { (w bs : List ℕ) → bytes_of_hex w ≡ Some bs → hex_text bs ≡ w }
{}

fn are_hex_digits(b: &[u8]) -> bool
    ensures { result ≡ list_all is_hex_digit b.now }
{
    b.iter().all(|c| is_hex_digit(*c))
}

fn is_hex_digit(c: u8) -> bool
    ensures { result ≡ is_hex_digit c }
{
    matches!(c, b'0'..=b'9' | b'a'..=b'f')
}
