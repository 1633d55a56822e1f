// What a command ends with.

/// How a command ended, with the store and the log that were handed in.
pub struct Finished<O, L> {
    /// 0: done. 1: faulty words. 2: the input is no script. 3: a limit is exceeded. 4: the source
    /// failed. 5: the sink failed. 6: the object store failed. 7: the metadata log failed. 8: want of
    /// memory.
    pub status: u8,
    pub store: O,
    pub log: L,
}
