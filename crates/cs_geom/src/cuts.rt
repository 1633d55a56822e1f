// A range of a file's bytes cut into pieces.

ghost use Rattle.std.specs.Prelude.{◌≡◌, ◌+◌, ◌<◌, ◌≤◌, length};
ghost use Rattle.cs_geom.specs.Cuts.{CutsRange, pieces_of};

use crate::places::{MAX_FILE_SIZE, OBJECT_SIZE, PAGE_SIZE, Piece};
use std::marker::Model;

/// The pieces of a range that are left, from the lowest offset on. Contracts see the list of them.
#[derive(Debug, Drop)]
pub struct PieceIter {
    unit: u64,
    off: u64,
    end: u64,
}

impl Model for PieceIter {
    ghost use Rattle.std.specs.Prelude.{List, ◌-◌, ◌<◌, ◌≤◌};
    ghost use Rattle.cs_geom.specs.declared.places.Piece.{Piece};
    ghost use Rattle.cs_geom.specs.declared.places.TheConstants.{MAX_FILE_SIZE};
    ghost use Rattle.cs_geom.specs.Cuts.{pieces_of};

    ghost Value = { List Piece };

    ghost view = { λ s. pieces_of s.unit s.off (s.end - s.off) };

    ghost invariant = { λ s. (0 < s.unit) × (s.off ≤ s.end) × (s.end ≤ MAX_FILE_SIZE) };
}

impl PieceIter {
    // The pieces of a range that lie within one unit of `unit` bytes each.
    #[tactic(auto, using(crate::proofs::Cutting::cuts))]
    fn new(unit: u64, off: u64, len: u64) -> Self
        requires some_unit { 0 < unit }
        requires in_file { off + len ≤ MAX_FILE_SIZE }
        ensures cuts { CutsRange unit off len result }
        ensures pieces { result ≡ pieces_of unit off len }
        ensures at_most_two { len ≤ unit → length result ≤ 2 }
    {
        PieceIter {
            unit,
            off,
            end: off + len,
        }
    }
}

impl Iterator for PieceIter {
    ghost use Rattle.std.specs.Iterator.{YieldsFirst, item_count};

    type Item = Piece;

    ghost next_gives = { YieldsFirst (λ pieces. pieces) };

    ghost remaining = { item_count (λ pieces. pieces) };

    #[tactic(auto, using(crate::proofs::Cutting::next_pieces))]
    fn next(&mut self) -> Option<Piece> {
        if self.off == self.end {
            return None;
        }
        let to_unit_end = self.unit - self.off % self.unit;
        let len = to_unit_end.min(self.end - self.off);
        let piece = Piece::at(self.off, len);
        self.off += len;
        Some(piece)
    }
}

/// Cuts the `len` bytes at the offset `off` of a file into pieces that lie within one page each.
///
/// The pieces come in order, cover the range once, and are as long as they can be: all but the last
/// end with their page. A range of no bytes has no pieces.
pub fn split(off: u64, len: u64) -> PieceIter
    requires { off + len ≤ MAX_FILE_SIZE }
    ensures cuts { CutsRange PAGE_SIZE off len result }
    ensures pieces { result ≡ pieces_of PAGE_SIZE off len }
    ensures at_most_two { len ≤ PAGE_SIZE → length result ≤ 2 }
{
    PieceIter::new(PAGE_SIZE, off, len)
}

/// Cuts the `len` bytes at the offset `off` of a file into pieces that lie within one object each.
///
/// The pieces come in order, cover the range once, and are as long as they can be: all but the last
/// end with their object. A range of no bytes has no pieces. A piece's page and its place there are
/// those of its first byte.
pub fn split_objects(off: u64, len: u64) -> PieceIter
    requires { off + len ≤ MAX_FILE_SIZE }
    ensures cuts { CutsRange OBJECT_SIZE off len result }
    ensures pieces { result ≡ pieces_of OBJECT_SIZE off len }
    ensures at_most_two { len ≤ OBJECT_SIZE → length result ≤ 2 }
{
    PieceIter::new(OBJECT_SIZE, off, len)
}
