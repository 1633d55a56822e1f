// What holds of the types, and of the bytes of records. The functions do nothing: they are there for their
// contracts.
ghost use Rattle.std.specs.Prelude.{◌≡◌, [], ◌∷◌, codes, true, Option, Some};
ghost use denote.Param.Send.{IsSend};
ghost use Rattle.cs_codec.specs.Codecs.{IsSpelled, IsUnspelled};
ghost use Rattle.cs_laws.specs.declared.records.Record.{Record};
ghost use Rattle.cs_laws.specs.declared.records.RecordBody.TheVariants as bodies;
ghost use Rattle.cs_laws.specs.declared.requests.OpAnswer.TheVariants as replies;
ghost use Rattle.cs_laws.specs.declared.requests.ReqOp.TheVariants as ops;
ghost use Rattle.cs_laws.specs.Spellings.{record_bytes, record_fits, record_spelled};
ghost use Rattle.cs_mdslog.specs.contracts.memory.MemLog as mem_log_row;
ghost use Rattle.cs_mdslog.specs.contracts.faulty.FaultyLog as faulty_log_row;

/// Records with equal bytes are equal.
pub fn one_spelling()
    ensures { (r s : Record) → record_spelled r ≡ true → record_spelled s ≡ true → record_bytes r ≡ record_bytes s → r ≡ s }
{}

/// What `decode_record` gives of the bytes of a record is that record.
pub fn each_record_is_read()
    ensures { (r : Record) (read : Option Record) → record_spelled r ≡ true → IsSpelled record_bytes record_spelled (record_bytes r) read
        → IsUnspelled record_bytes record_spelled (record_bytes r) read → read ≡ Some r }
{}

/// A record whose numbers and names are in their ranges fits.
pub fn spelled_records_fit()
    ensures { (r : Record) → record_spelled r ≡ true → record_fits r ≡ true }
{}

/// The bytes of a record of each kind.
pub fn records_by_example()
    ensures request { record_bytes (record { body = bodies.Request 1 (ops.Mkdir 1 (codes "ab")) (replies.Made 2) }) ≡
        1 ∷ 1 ∷ 1 ∷ 0 ∷ 0 ∷ 0 ∷ 0 ∷ 0 ∷ 0 ∷ 0
        ∷ 1 ∷ 1 ∷ 0 ∷ 0 ∷ 0 ∷ 0 ∷ 0 ∷ 0 ∷ 0 ∷ 2 ∷ 97 ∷ 98
        ∷ 1 ∷ 2 ∷ 0 ∷ 0 ∷ 0 ∷ 0 ∷ 0 ∷ 0 ∷ 0 ∷ [] }
    ensures flush { record_bytes (record { body = bodies.Flush true 2 3 4 (record { size = 300; mtime = 5; mode = 420 }) }) ≡
        1 ∷ 2 ∷ 1 ∷ 2 ∷ 0 ∷ 0 ∷ 0 ∷ 0 ∷ 0 ∷ 0 ∷ 0 ∷ 3 ∷ 0 ∷ 0 ∷ 0 ∷ 0 ∷ 0 ∷ 0 ∷ 0 ∷ 4 ∷ 0 ∷ 0 ∷ 0 ∷ 0 ∷ 0 ∷ 0 ∷ 0
        ∷ 44 ∷ 1 ∷ 0 ∷ 0 ∷ 0 ∷ 0 ∷ 0 ∷ 0 ∷ 5 ∷ 0 ∷ 0 ∷ 0 ∷ 0 ∷ 0 ∷ 0 ∷ 0 ∷ 164 ∷ 1 ∷ [] }
    ensures snap { record_bytes (record { body = bodies.Snap 4 1 (codes "ab") }) ≡
        1 ∷ 3 ∷ 4 ∷ 0 ∷ 0 ∷ 0 ∷ 0 ∷ 0 ∷ 0 ∷ 0 ∷ 1 ∷ 0 ∷ 0 ∷ 0 ∷ 0 ∷ 0 ∷ 0 ∷ 0 ∷ 2 ∷ 97 ∷ 98 ∷ [] }
    ensures removal { record_bytes (record { body = bodies.Removal 4 5 }) ≡
        1 ∷ 4 ∷ 4 ∷ 0 ∷ 0 ∷ 0 ∷ 0 ∷ 0 ∷ 0 ∷ 0 ∷ 5 ∷ 0 ∷ 0 ∷ 0 ∷ 0 ∷ 0 ∷ 0 ∷ 0 ∷ [] }
{}

/// Values of this crate's types may go to other threads.
pub fn values_may_cross_threads()
    ensures { IsSend mem_log_row.the_row × IsSend faulty_log_row.the_row }
{}
