//! What holds of every set and of every text. These functions do nothing: each is there for its contract.

ghost use Rattle.std.specs.Prelude.{◌≡◌, ◌<◌, ◌^◌, ◌↔◌, ◌⊎◌, ℕ, List, codes, true, Some, None};
ghost use Rattle.cs_bits.specs.declared.Caps.{Caps};
ghost use Rattle.cs_bits.specs.Bits.{Has, caps_text, caps_of, fits, no_caps, union, meet, minus, covers};
ghost use denote.Param.Send.{IsSend};
ghost use Rattle.cs_bits.specs.contracts.Caps as caps_row;

/// A set is its bits: the operations and the test are those of sets, and sets with the same bits are equal.
pub fn sets_are_their_bits()
    ensures union { (a b : Caps) (k : ℕ) → Has (union a b) k ↔ (Has a k ⊎ Has b k) }
    ensures meet { (a b : Caps) (k : ℕ) → Has (meet a b) k ↔ (Has a k × Has b k) }
    ensures minus { (a b : Caps) (k : ℕ) → a.0 < 2 ^ 16 → b.0 < 2 ^ 16
        → Has (minus a b) k ↔ (Has a k × ¬ (Has b k)) }
    ensures covers { (a b : Caps) → (covers a b ≡ true) ↔ ((k : ℕ) → Has b k → Has a k) }
    ensures same { (a b : Caps) → ((k : ℕ) → Has a k ↔ Has b k) → a ≡ b }
{}

/// Each set of capabilities is read from its text.
pub fn each_text_is_read()
    ensures { (c : Caps) → fits c ≡ true → caps_of (caps_text c) ≡ Some c }
{}

/// A text from which a set is read is that set's one text, and each bit of the set is a capability.
pub fn only_texts_are_read()
    ensures { (text : List ℕ) (c : Caps) → caps_of text ≡ Some c → (caps_text c ≡ text) × (fits c ≡ true) }
{}

/// A set with letters of every group, the empty set, and four texts of no set: letters out of order, a
/// capital without letters, no byte at all, and a capital twice.
pub fn examples()
    ensures written { caps_text (record { 0 = 3421 }) ≡ codes "pAsxLsXsFscr" }
    ensures read { caps_of (codes "pAsxLsXsFscr") ≡ Some (record { 0 = 3421 }) }
    ensures empty { caps_text no_caps ≡ codes "-" }
    ensures dash { caps_of (codes "-") ≡ Some no_caps }
    ensures out_of_order { caps_of (codes "Fws") ≡ None }
    ensures bare { caps_of (codes "A") ≡ None }
    ensures nothing { caps_of (codes "") ≡ None }
    ensures twice { caps_of (codes "FrFw") ≡ None }
{}

/// Values of this crate's types may go to other threads.
pub fn values_may_cross_threads()
    ensures caps { IsSend caps_row.the_row }
{}
