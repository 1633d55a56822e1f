// Names of directory entries and of snapshots.
ghost use Rattle.std.specs.Prelude.{◌≡◌, IfOk, true};
ghost use Rattle.std.specs.List.{list_all};
ghost use Rattle.cs_ids.specs.Names.{is_name, is_name_byte, is_letter_or_digit};

use crate::Memory;
use std::alloc::Global;
use std::marker::Model;

/// The name of a directory entry or of a snapshot: 1 to 32 of `a-z`, `0-9`, `_`, `-` and `.`, of
/// which the first is a letter or a digit.
#[derive(Drop)]
pub struct Name {
    items: Vec<u8>,
}

impl Model for Name {
    ghost use Rattle.std.specs.Prelude.{List, ℕ, ◌≡◌, true};
    ghost use Rattle.cs_ids.specs.Names.{is_name};

    ghost Value = { List ℕ };

    ghost view = { λ n. n.items.items };

    ghost invariant = { λ n. is_name n.items.items ≡ true };
}

impl Name {
    /// A copy of the bytes, which `is_name` must accept.
    pub fn from_slice(alloc: Global, s: &[u8]) -> Result<Self, Memory>
        requires { is_name s.now ≡ true }
        ensures { IfOk result (λ n. n ≡ s.now) }
    {
        Ok(Name {
            items: Vec::from_slice(alloc, s)?,
        })
    }

    /// The bytes of the name.
    pub fn as_slice(&self) -> &[u8]
        ensures bytes { result.now ≡ self.now }
        ensures name { is_name result.now ≡ true }
    {
        self.items.as_slice()
    }
}

/// Whether the bytes are a name.
pub fn is_name(s: &[u8]) -> bool
    ensures { result ≡ is_name s.now }
{
    match s {
        [] => false,
        [first, rest @ ..] => {
            is_letter_or_digit(*first) && rest.len() <= 31 && are_name_bytes(rest)
        }
    }
}

fn are_name_bytes(s: &[u8]) -> bool
    ensures { result ≡ list_all is_name_byte s.now }
{
    s.iter().all(|c| is_name_byte(*c))
}

fn is_letter_or_digit(c: u8) -> bool
    ensures { result ≡ is_letter_or_digit c }
{
    c.is_ascii_lowercase() || c.is_ascii_digit()
}

fn is_name_byte(c: u8) -> bool
    ensures { result ≡ is_name_byte c }
{
    is_letter_or_digit(c) || c == b'_' || c == b'-' || c == b'.'
}
