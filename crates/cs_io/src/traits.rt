// What a program reads from and writes to.
ghost use Rattle.std.specs.Prelude.{◌<◌, List, ℕ, length, Option, IfOk};
ghost use Rattle.std.specs.Io.{ReadsAtMost, WritesAtMost};
ghost use Rattle.std.specs.Io.KnownBytes.{ReadConsumes, WriteAppends};
ghost use Rattle.cs_ids.specs.Devices.{HasCause};

use cs_ids::Failed;

/// Where bytes come from.
pub trait Source: Drop {
    // The bytes left, where told.
    ghost left: { Self → Option (List ℕ) };

    // How often the source has failed.
    ghost faults: { Self → ℕ };

    /// Puts the first bytes left at the front of `buf`, answers how many these are, and leaves the
    /// rest. It answers 0 for a `buf` with room exactly where no byte is left. `Failed` comes only
    /// where the count of faults rose in this call, and then the bytes left are as before.
    fn read(&mut self, buf: &mut [u8]) -> Result<usize, Failed>
        ensures bound { ReadsAtMost result buf.new }
        ensures bytes { ReadConsumes (left self.old) (left self.new) result buf.new }
        ensures cause { HasCause (faults self.old) (faults self.new) result };
}

/// Where bytes go.
pub trait Sink: Drop {
    // The bytes taken, where told.
    ghost taken: { Self → Option (List ℕ) };

    // How often the sink has failed.
    ghost faults: { Self → ℕ };

    /// Takes the first bytes of `buf` and answers how many these are, at least 1 where `buf` isn't
    /// empty. `Failed` comes only where the count of faults rose in this call, and then nothing was
    /// taken.
    fn write(&mut self, buf: &[u8]) -> Result<usize, Failed>
        ensures bound { WritesAtMost result buf.now }
        ensures some { 0 < length buf.now → IfOk result (λ n. 0 < n) }
        ensures bytes { WriteAppends (taken self.old) (taken self.new) result buf.now }
        ensures cause { HasCause (faults self.old) (faults self.new) result };
}
