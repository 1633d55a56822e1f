// What a list has one behind the other.
ghost use Rattle.std.specs.Prelude.{◌≡◌, ◌++◌, ℕ, List, OnOk};
ghost use Rattle.cs_codec.specs.Fields.{GivesField, Reading, number_at, number_bytes};

use crate::{Reader, put_snap};
use cs_ids::{Bytes, Memory, Snap};
use std::alloc::Global;

/// A value that a list may have as an item.
pub trait Field: Drop {
    // How a value is spelled.
    ghost bytes: { Self → List ℕ };

    // What reading one gives.
    ghost read: { Reading Self };

    /// Adds the value. After `Memory` nothing is said of the bytes.
    fn put(&self, out: &mut Bytes) -> Result<(), Memory>
        ensures { OnOk result (out.new ≡ out.old ++ bytes self.now) };

    /// The value in the next bytes, or None exactly where none is spelled there. After None and after
    /// `Memory` nothing is said of the bytes that are left.
    fn read_from(reader: &mut Reader<'_>, alloc: Global) -> Result<Option<Self>, Memory>
    where
        Self: Sized,
        ensures { GivesField result reader.new (read reader.old) };
}

impl Field for Snap {
    ghost bytes = { number_bytes 8 };

    ghost read = { number_at 8 0 99999 };

    fn put(&self, out: &mut Bytes) -> Result<(), Memory>
        ensures { OnOk result (out.new ≡ out.old ++ number_bytes 8 self.now) }
    {
        put_snap(out, *self)
    }

    fn read_from(reader: &mut Reader<'_>, _alloc: Global) -> Result<Option<Self>, Memory>
        ensures { GivesField result reader.new (number_at 8 0 99999 reader.old) }
    {
        Ok(reader.snap())
    }
}
