// The places of a byte: its page and its object, and where it lies in each.

ghost use Rattle.std.specs.Prelude.{◌≡◌, ◌+◌, ◌≤◌};
ghost use Rattle.cs_geom.specs.Places.{offset_of, piece_at};

/// The bytes of a page. A file is cached by pages.
pub const PAGE_SIZE: u64 = 4096;

/// The bytes of an object. A file is stored in objects.
pub const OBJECT_SIZE: u64 = 65_536;

/// The most bytes that a file has.
pub const MAX_FILE_SIZE: u64 = 1_048_576;

/// A run of bytes of a file, with the places of its first byte.
#[derive(Clone, Copy, PartialEq, Eq, Debug)]
pub struct Piece {
    /// The page of the first byte, counted from 0.
    pub page: u32,
    /// Where the first byte lies in its page, below [`PAGE_SIZE`].
    pub page_off: u32,
    /// The object of the first byte, counted from 0.
    pub index: u32,
    /// Where the first byte lies in its object, below [`OBJECT_SIZE`].
    pub obj_off: u32,
    /// How many bytes the piece has.
    pub len: u32,
}

impl Piece {
    /// The offset in the file of the first byte.
    pub fn offset(&self) -> u64
        ensures { result ≡ offset_of self.now }
    {
        PAGE_SIZE * u64::from(self.page) + u64::from(self.page_off)
    }

    // The piece of `len` bytes at the offset `off` of a file.
    pub(crate) fn at(off: u64, len: u64) -> Self
        requires { off + len ≤ MAX_FILE_SIZE }
        ensures { result ≡ piece_at off len }
    {
        Piece {
            page: (off / PAGE_SIZE) as u32,
            page_off: (off % PAGE_SIZE) as u32,
            index: (off / OBJECT_SIZE) as u32,
            obj_off: (off % OBJECT_SIZE) as u32,
            len: len as u32,
        }
    }
}
