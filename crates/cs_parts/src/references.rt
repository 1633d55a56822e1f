// A live reference of a caller to a file.
use cs_bits::Caps;
use cs_ids::{Caller, Ino, RefNo, Seq};

/// A live reference: a caller's right to use a file's bits until it ends.
#[derive(Clone, Copy)]
pub struct Live {
    /// Who began it.
    pub caller: Caller,
    /// Its number among its caller's references, from 1.
    pub number: RefNo,
    /// The file that it is to.
    pub file: Ino,
    /// The bits that it may use, all of them issued when it began.
    pub bits: Caps,
    /// The end in bytes up to which it may write, where it has the right to.
    pub end: u32,
    /// The `seq` of the file's snapshot context when it began.
    pub tag: Seq,
}
