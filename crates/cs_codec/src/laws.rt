// What holds of the spellings, the readings and the reader. The functions do nothing: they are there for their
// contracts.
ghost use Rattle.std.specs.Prelude.{◌≡◌, ◌≤◌, ◌<◌, ◌^◌, ◌++◌, ◌&&◌, ℕ, List, [], ◌∷◌, Option, Some, Bool, true, codes, length, take};
ghost use Rattle.byteorder.specs.Endian.{little_bytes, little_number};
ghost use Rattle.cs_ids.specs.Names.{is_name};
ghost use Rattle.cs_codec.specs.Codecs.{Codec, IsBytes, IsOfKind, IsSpelled, IsUnspelled};
ghost use Rattle.cs_codec.specs.Fields.{Reading, both, flag_at, flag_bytes, is_in, list_at, list_bytes, list_fits, made, name_at, name_bytes, number_at, number_bytes, optional_at, optional_bytes, optional_fits, tagged, tested, whole};
ghost use denote.Param.Send.{IsSend};
ghost use denote.Ref.{NamedLft};
ghost use Rattle.cs_codec.specs.contracts.reader.Reader as reader_row;

/// A number is read from its own bytes alone: those in front of any bytes are the bytes of the number
/// that they spell, the lowest first.
pub fn own_bytes()
    ensures { (n : ℕ) (xs : List ℕ) → n ≤ length xs → IsBytes xs → little_bytes n (little_number n xs) ≡ take n xs }
{}

/// Each field is read back from what is written of it, with the bytes behind it left, and it is read
/// from nothing else.
pub fn fields_are_read_back()
    ensures numbers { (width low high : ℕ) → high < 256 ^ width → Codec (number_bytes width) (is_in low high) (number_at width low high) }
    ensures flags { Codec flag_bytes (λ _. true) flag_at }
    ensures optional { Codec optional_bytes optional_fits optional_at }
    ensures names { Codec name_bytes is_name name_at }
{}

/// What is put together of fields that are read back so is read back so: two of them one behind the
/// other, a value that is made of one, those that pass a test, and counted lists of them.
pub fn fields_are_put_together<T, U>()
    ensures pairs { (a : T → List ℕ) (f : T → Bool) (r : Reading T) (b : U → List ℕ) (g : U → Bool) (s : Reading U)
        → Codec a f r → Codec b g s → Codec (λ p. a p.0 ++ b p.1) (λ p. f p.0 && g p.1) (both r s) }
    ensures made { (a : T → List ℕ) (f : T → Bool) (r : Reading T) (b : U → List ℕ) (g : U → Bool) (make : T → U)
        → Codec a f r → ((y : U) → g y ≡ true → (x : T) × (f x ≡ true) × (b y ≡ a x) × (make x ≡ y))
        → ((x : T) → f x ≡ true → (b (make x) ≡ a x) × (g (make x) ≡ true)) → Codec b g (λ xs. made make (r xs)) }
    ensures tested { (a : T → List ℕ) (f : T → Bool) (r : Reading T) (test : T → Bool)
        → Codec a f r → Codec a (λ x. f x && test x) (tested test r) }
    ensures lists { (a : T → List ℕ) (f : T → Bool) (r : Reading T)
        → Codec a f r → Codec (list_bytes a) (list_fits f) (list_at r) }
{}

/// One of several kinds is spelled by a byte that tells which, with the fields of that kind behind it.
/// A kind whose fields are read back is read back (`read`), and from nothing else (`alone`). Where this
/// is so of each kind, any is read back, and from nothing else (`all`).
pub fn kinds_are_told_apart<T, U>()
    ensures read { (b : U → List ℕ) (g : U → Bool) (s : Reading U) (low high k : ℕ) (choose : ℕ → Reading T) (make : U → T)
        → Codec b g s → high < 256 → is_in low high k ≡ true → ((xs : List ℕ) → choose k xs ≡ made make (s xs))
        → (y : U) (rest : List ℕ) → g y ≡ true → tagged low high choose ((number_bytes 1 k ++ b y) ++ rest) ≡ Some (make y, rest) }
    ensures alone { (b : U → List ℕ) (g : U → Bool) (s : Reading U) (k : ℕ) (a : T → List ℕ) (f : T → Bool) (make : U → T)
        → Codec b g s → ((y : U) → a (make y) ≡ number_bytes 1 k ++ b y) → ((y : U) → f (make y) ≡ g y)
        → (xs : List ℕ) (x : T) (rest : List ℕ) → IsBytes xs → made make (s xs) ≡ Some (x, rest) → IsOfKind a f xs x rest k }
    ensures all { (a : T → List ℕ) (f : T → Bool) (low high : ℕ) (choose : ℕ → Reading T) → high < 256
        → ((x : T) (rest : List ℕ) → f x ≡ true → tagged low high choose (a x ++ rest) ≡ Some (x, rest))
        → ((k : ℕ) (xs : List ℕ) (x : T) (rest : List ℕ) → IsBytes xs → choose k xs ≡ Some (x, rest) → IsOfKind a f xs x rest k)
        → Codec a f (tagged low high choose) }
{}

/// What is read of all bytes together is the value that they spell, and None exactly where they spell
/// none.
pub fn whole_bytes_are_read<T>()
    ensures some { (a : T → List ℕ) (f : T → Bool) (r : Reading T) → Codec a f r
        → (b : List ℕ) → IsBytes b → IsSpelled a f b (whole (r b)) }
    ensures none { (a : T → List ℕ) (f : T → Bool) (r : Reading T) → Codec a f r
        → (b : List ℕ) → IsUnspelled a f b (whole (r b)) }
{}

/// Equal bytes spell equal values.
pub fn each_has_one_spelling<T>()
    ensures { (a : T → List ℕ) (f : T → Bool) (r : Reading T) → Codec a f r
        → (x y : T) → f x ≡ true → f y ≡ true → a x ≡ a y → x ≡ y }
{}

/// The bytes of a number, of a name and of a list of numbers.
pub fn bytes_by_example()
    ensures number { number_bytes 4 258 ≡ 2 ∷ 1 ∷ 0 ∷ 0 ∷ [] }
    ensures name { name_bytes (codes "ab") ≡ 2 ∷ 97 ∷ 98 ∷ [] }
    ensures list { list_bytes (number_bytes 2) (7 ∷ 256 ∷ []) ≡ 2 ∷ 0 ∷ 7 ∷ 0 ∷ 0 ∷ 1 ∷ [] }
{}

/// Values of this crate's types may go to other threads.
pub fn values_may_cross_threads()
    ensures { (a : NamedLft) → IsSend (reader_row.the_row a) }
{}
