//! The one text of a set, written and read.

ghost use Rattle.std.specs.Prelude.{◌≡◌, ◌≢◌, ◌+◌, ◌≤◌, ◌++◌, [], ◌∷◌, Some, IfSome, IfNone, true, length, take, drop, option_copied};
ghost use Rattle.cs_bits.specs.declared.Caps.{Caps};
ghost use Rattle.cs_bits.specs.Bits.{
  caps_text,
  caps_of,
  letters_of,
  group_text,
  group_of,
  cap_of,
  named,
  fits,
  pin_letters,
};

use crate::Caps;
use bitflags::Flags;
use std::{fmt, str};

const PIN: [(u8, Caps); 1] = [(b'p', Caps::PIN)];

const AUTH: [(u8, Caps); 2] = [(b's', Caps::AUTH_SHARED), (b'x', Caps::AUTH_EXCL)];

const LINK: [(u8, Caps); 2] = [(b's', Caps::LINK_SHARED), (b'x', Caps::LINK_EXCL)];

const XATTR: [(u8, Caps); 2] = [(b's', Caps::XATTR_SHARED), (b'x', Caps::XATTR_EXCL)];

const FILE: [(u8, Caps); 8] = [
    (b's', Caps::FILE_SHARED),
    (b'x', Caps::FILE_EXCL),
    (b'c', Caps::FILE_CACHE),
    (b'r', Caps::FILE_READ),
    (b'w', Caps::FILE_WRITE),
    (b'b', Caps::FILE_BUFFER),
    (b'a', Caps::FILE_WREXTEND),
    (b'l', Caps::FILE_LAZYIO),
];

impl Caps {
    /// Writes the set's one text at the front of `out` and gives its length. The bytes behind it stay as they were.
    /// A bit that is no capability is left out of the text.
    pub fn to_text(&self, out: &mut [u8; 24]) -> usize
        ensures text { take result out.new ≡ caps_text self.now }
        ensures len { result ≡ length (caps_text self.now) }
        ensures rest { drop result out.new ≡ drop result out.old }
    {
        let pin = self.put_letters(&PIN, out, 0);
        let auth = self.put_group(b'A', &AUTH, out, pin);
        let link = self.put_group(b'L', &LINK, out, auth);
        let xattr = self.put_group(b'X', &XATTR, out, link);
        let end = self.put_group(b'F', &FILE, out, xattr);
        if end > 0 {
            return end;
        }
        out[0] = b'-';
        1
    }

    /// The set that the text spells; `None` exactly where the text is not the one text of a set.
    pub fn read(text: &[u8]) -> Option<Caps>
        ensures value { result ≡ caps_of text.now }
        ensures found { IfSome result (λ c. (caps_text c ≡ text.now) × (fits c ≡ true)) }
        ensures none { IfNone result ((c : Caps) → fits c ≡ true → caps_text c ≢ text.now) }
    {
        let set = Caps::named(text);
        let mut own = [0; 24];
        let end = set.to_text(&mut own);
        if &own[..end] == text { Some(set) } else { None }
    }

    /// The capabilities that the text's letters name, in whatever order they stand.
    fn named(text: &[u8]) -> Caps
        ensures { result ≡ named pin_letters text.now }
    {
        let mut set = Caps::none();
        let mut letters: &[(u8, Caps)] = &PIN;
        for byte in text {
            match group_of(*byte) {
                Some(group) => letters = group,
                None => set = Caps::union(set, cap_of(letters, *byte)),
            }
        }
        set
    }

    /// Writes the letters of the set's capabilities from `end` on, and gives the place behind them.
    fn put_letters(&self, letters: &[(u8, Caps)], out: &mut [u8; 24], end: usize) -> usize
        requires { end + length letters.now ≤ 24 }
        ensures text { take result out.new ≡ take end out.old ++ letters_of self.now letters.now }
        ensures len { result ≡ end + length (letters_of self.now letters.now) }
        ensures within { result ≤ end + length letters.now }
        ensures rest { drop result out.new ≡ drop result out.old }
    {
        let mut end = end;
        for (letter, cap) in letters {
            if self.contains(*cap) {
                out[end] = *letter;
                end += 1;
            }
        }
        end
    }

    /// Writes a group's capital and letters from `end` on, or nothing where the set has none of its letters, and
    /// gives the place behind them.
    fn put_group(
        &self,
        capital: u8,
        letters: &[(u8, Caps)],
        out: &mut [u8; 24],
        end: usize,
    ) -> usize
        requires { end + 1 + length letters.now ≤ 24 }
        ensures text { take result out.new
            ≡ take end out.old ++ group_text self.now (capital ∷ []) letters.now }
        ensures len { result ≡ end + length (group_text self.now (capital ∷ []) letters.now) }
        ensures within { result ≤ end + 1 + length letters.now }
        ensures rest { drop result out.new ≡ drop result out.old }
    {
        let behind = self.put_letters(letters, out, end + 1);
        if behind == end + 1 {
            return end;
        }
        out[end] = capital;
        behind
    }
}

/// The letters of the group that a capital begins.
fn group_of(byte: u8) -> Option<&'static [(u8, Caps)]>
    ensures { option_copied result ≡ group_of byte }
{
    match byte {
        b'A' => Some(&AUTH),
        b'L' => Some(&LINK),
        b'X' => Some(&XATTR),
        b'F' => Some(&FILE),
        _ => None,
    }
}

/// The capability of a letter in its group, or none.
fn cap_of(letters: &[(u8, Caps)], byte: u8) -> Caps
    ensures { result ≡ cap_of letters.now byte }
{
    for (letter, cap) in letters {
        if *letter == byte {
            return *cap;
        }
    }
    Caps::none()
}

impl fmt::Display for Caps {
    ghost output = { λ c. Some (caps_text c) };

    fn fmt<W: fmt::Write>(&self, f: &mut fmt::Formatter<W>) -> fmt::Result {
        let mut out = [0; 24];
        let end = self.to_text(&mut out);
        match str::from_utf8(&out[..end]) {
            Ok(text) => f.write_str(text),
            Err(_) => unreachable!(),
        }
    }
}
