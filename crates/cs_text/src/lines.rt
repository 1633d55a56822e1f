// The lines of a text.
ghost use Rattle.std.specs.Prelude.{◌≡◌, ◌∷◌, ◌<◌, ◌==◌, length, position};
ghost use Rattle.cs_text.specs.Lines.{lines_in};
ghost use Rattle.cs_text.specs.NextLine.{Takes};

use std::marker::Model;

/// The greatest number of bytes in a line, without its newline.
pub const MAX_LINE: usize = 4096;

/// Goes over the lines of a text. Each ends with a newline, which the last may lack. Contracts see
/// the lines that are still to come.
#[derive(Drop)]
pub struct Lines<'a> {
    rest: &'a [u8],
}

impl<'a> Model for Lines<'a> {
    ghost use Rattle.std.specs.Prelude.{List, ℕ};
    ghost use Rattle.cs_text.specs.Lines.{lines_in};

    ghost Value = { List (List ℕ) };

    ghost view = { λ l. lines_in l.rest.now };
}

/// The next line of a text.
#[derive(Clone, Copy, PartialEq, Eq, Debug)]
pub enum Line<'a> {
    /// The bytes of the line, without its newline.
    Text(&'a [u8]),
    /// There is no line left.
    End,
    /// The line has more than `MAX_LINE` bytes. It was passed over.
    TooLong,
}

impl<'a> Lines<'a> {
    /// The lines of the bytes, none where there are no bytes.
    pub fn new(b: &'a [u8]) -> Self
        ensures { result ≡ lines_in b.now }
    {
        Lines { rest: b }
    }

    /// Takes the next line. Each byte of the text is looked at once over all calls.
    pub fn next_line(&mut self) -> Line<'a>
        ensures { Takes self.old self.new result }
    {
        if self.rest.is_empty() {
            return Line::End;
        }
        let (line, rest) = first_line(self.rest);
        self.rest = rest;
        if line.len() <= MAX_LINE {
            Line::Text(line)
        } else {
            Line::TooLong
        }
    }
}

// The first line, without its newline, and what comes behind it.
fn first_line(b: &[u8]) -> (&[u8], &[u8])
    requires { 0 < length b.now }
    ensures { lines_in b.now ≡ result.0.now ∷ lines_in result.1.now }
{
    match first_newline(b) {
        Some(end) => (&b[..end], &b[end + 1..]),
        None => b.split_at(b.len()),
    }
}

fn first_newline(b: &[u8]) -> Option<usize>
    ensures { result ≡ position (λ c. c == 10) b.now }
{
    b.iter().position(|c| *c == b'\n')
}
