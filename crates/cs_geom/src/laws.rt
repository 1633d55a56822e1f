// What holds of every way to cut a range. Each function here does nothing when it runs: its contract
// is a law, which holds for all lists of pieces.

ghost use Rattle.std.specs.Prelude.{◌≡◌, ℕ, List, [], ◌∷◌, length, map};
ghost use Rattle.std.specs.List.{flat_map};
ghost use Rattle.cs_geom.specs.declared.places.Piece.{Piece};
ghost use Rattle.cs_geom.specs.declared.places.TheConstants.{OBJECT_SIZE, PAGE_SIZE};
ghost use Rattle.cs_geom.specs.Places.{piece_at};
ghost use Rattle.cs_geom.specs.Cuts.{CutsRange, part_of, pieces_of};

/// A range is cut in one way: two lists of pieces that cut it at the ends of units, and nowhere
/// else, are equal.
pub fn ranges_are_cut_in_one_way()
    ensures equal { (unit off len : ℕ) (pieces others : List Piece) →
        CutsRange unit off len pieces → CutsRange unit off len others → pieces ≡ others }
    ensures known { (unit off len : ℕ) (pieces : List Piece) →
        CutsRange unit off len pieces → pieces ≡ pieces_of unit off len }
{}

/// The pieces of a range have each of its bytes once, in order: their parts of the bytes, joined end
/// to end, are the bytes.
pub fn parts_join_to_the_whole()
    ensures { (unit off : ℕ) (bytes : List ℕ) (pieces : List Piece) →
        CutsRange unit off (length bytes) pieces → flat_map (part_of off bytes) pieces ≡ bytes }
{}

/// Two bytes on both sides of the end of page 15, where object 0 ends too, and 12 bytes over the end of
/// page 0. A range of no bytes has no pieces.
pub fn cuts_by_example()
    ensures both { pieces_of PAGE_SIZE 65535 2 ≡ pieces_of OBJECT_SIZE 65535 2 }
    ensures last { piece_at 65535 1
        ≡ record { page = 15; page_off = 4095; index = 0; obj_off = 65535; len = 1 } }
    ensures first { pieces_of OBJECT_SIZE 65535 2
        ≡ piece_at 65535 1 ∷ record { page = 16; page_off = 0; index = 1; obj_off = 0; len = 1 } ∷ [] }
    ensures pages { map (λ p. p.len) (pieces_of PAGE_SIZE 4090 12) ≡ 6 ∷ 6 ∷ [] }
    ensures object { pieces_of OBJECT_SIZE 4090 12 ≡ piece_at 4090 12 ∷ [] }
    ensures none { (off : ℕ) → pieces_of PAGE_SIZE off 0 ≡ [] }
{}
