// Fields read from bytes.
ghost use Rattle.std.specs.Prelude.{◌≡◌, ◌≤◌, ◌==◌, length, IfNone, IfOk, IfSome, OnErr};
ghost use Rattle.cs_ids.specs.Ranges.{IsIn};
ghost use Rattle.cs_codec.specs.Fields.{flag_at, GivesField, is_in, items_at, list_at, name_at, number_at, optional_at, Reads, text_at};

use crate::Field;
use byteorder::{ByteOrder, LittleEndian};
use cs_ids::{Ino, Items, Memory, Name, Seq, Snap, Tid, is_name};
use std::alloc::Global;
use std::marker::Model;

/// Bytes that are read from the left, field by field. Contracts see the bytes that are left. A number
/// has its lowest byte first, and is read only where it is in the range of its kind. A call that answers
/// None or `Memory`, which is want of memory for what it would hand out, leaves the bytes as they were.
#[derive(Drop)]
pub struct Reader<'a> {
    left: &'a [u8],
}

impl<'a> Model for Reader<'a> {
    ghost use Rattle.std.specs.Prelude.{List, ℕ};

    ghost Value = { List ℕ };

    ghost view = { λ r. r.left.now };
}

impl<'a> Reader<'a> {
    /// All of the bytes are left.
    pub fn new(bytes: &'a [u8]) -> Self
        ensures { result ≡ bytes.now }
    {
        Reader { left: bytes }
    }

    /// Whether no byte is left.
    pub fn is_done(&self) -> bool
        ensures { result ≡ (length self.now == 0) }
    {
        self.left.is_empty()
    }

    /// The number in the next `width` bytes, 1 to 8, the lowest first, or None exactly where fewer are
    /// left or the number isn't from `low` to `high`.
    #[tactic(auto, using(crate::proofs::Own::number_of_front))]
    pub fn number(&mut self, width: usize, low: u64, high: u64) -> Option<u64>
        requires least { 1 ≤ width }
        requires most { width ≤ 8 }
        ensures read { Reads result self.new (number_at width low high self.old) }
        ensures range { IfSome result (λ n. IsIn low high n) }
        ensures none { IfNone result (self.new ≡ self.old) }
    {
        if self.left.len() < width {
            return None;
        }
        let (front, rest) = self.left.split_at(width);
        let value = LittleEndian::read_uint(front, width);
        if !is_in(low, high, value) {
            return None;
        }
        self.left = rest;
        Some(value)
    }

    /// The inode in the next eight bytes, 1 to 99,999, or None exactly where none is spelled there.
    pub fn ino(&mut self) -> Option<Ino>
        ensures read { Reads result self.new (number_at 8 1 99999 self.old) }
        ensures none { IfNone result (self.new ≡ self.old) }
    {
        let value = self.number(8, 1, 99_999)?;
        Ino::new(value)
    }

    /// The inode in the next eight bytes, or that there is none, spelled as 0; None exactly where
    /// neither is spelled there.
    pub fn optional_ino(&mut self) -> Option<Option<Ino>>
        ensures read { Reads result self.new (optional_at self.old) }
        ensures none { IfNone result (self.new ≡ self.old) }
    {
        let value = self.number(8, 0, 99_999)?;
        Some(Ino::new(value))
    }

    /// The number of an operation, a flush or a request in the next eight bytes, 1 to 99,999, or None
    /// exactly where none is spelled there.
    pub fn tid(&mut self) -> Option<Tid>
        ensures read { Reads result self.new (number_at 8 1 99999 self.old) }
        ensures none { IfNone result (self.new ≡ self.old) }
    {
        let value = self.number(8, 1, 99_999)?;
        Tid::new(value)
    }

    /// The number of a snapshot or of a removal in the next eight bytes, 0 to 99,999, or None exactly
    /// where none is spelled there.
    pub fn snap(&mut self) -> Option<Snap>
        ensures read { Reads result self.new (number_at 8 0 99999 self.old) }
        ensures none { IfNone result (self.new ≡ self.old) }
    {
        let value = self.number(8, 0, 99_999)?;
        Snap::new(value)
    }

    /// The number of a snapshot context in the next eight bytes, 0 to 99,999, or None exactly where none
    /// is spelled there.
    pub fn seq(&mut self) -> Option<Seq>
        ensures read { Reads result self.new (number_at 8 0 99999 self.old) }
        ensures none { IfNone result (self.new ≡ self.old) }
    {
        let value = self.number(8, 0, 99_999)?;
        Seq::new(value)
    }

    /// The flag in the next byte, spelled as 0 or 1, or None exactly where neither is there.
    pub fn flag(&mut self) -> Option<bool>
        ensures read { Reads result self.new (flag_at self.old) }
        ensures none { IfNone result (self.new ≡ self.old) }
    {
        let value = self.number(1, 0, 1)?;
        Some(value == 1)
    }

    /// The name whose length, 1 to 32, is in the next byte, with its bytes behind that, or None exactly
    /// where none is spelled there.
    #[tactic(auto, unfolding(crate::specs::Fields::name_at))]
    pub fn name(&mut self, alloc: Global) -> Result<Option<Name>, Memory>
        ensures read { GivesField result self.new (name_at self.old) }
        ensures none { IfOk result (λ name. IfNone name (self.new ≡ self.old)) }
        ensures err { OnErr result (self.new ≡ self.old) }
    {
        let mut ahead = Reader::new(self.left);
        let Some(length) = ahead.number(1, 1, 32) else {
            return Ok(None);
        };
        let Some(name) = ahead.text(alloc, length as usize)? else {
            return Ok(None);
        };
        self.left = ahead.left;
        Ok(Some(name))
    }

    /// The list whose count, 0 to 65,535, is in the next two bytes, with its items behind that, or None
    /// exactly where none is spelled there.
    #[tactic(auto, unfolding(crate::specs::Fields::list_at))]
    pub fn list<T: Field>(&mut self, alloc: Global) -> Result<Option<Items<T>>, Memory>
        ensures read { GivesField result self.new (list_at T.read self.old) }
        ensures none { IfOk result (λ items. IfNone items (self.new ≡ self.old)) }
        ensures err { OnErr result (self.new ≡ self.old) }
    {
        let mut ahead = Reader::new(self.left);
        let Some(count) = ahead.number(2, 0, 65_535) else {
            return Ok(None);
        };
        let Some(items) = ahead.items(alloc, count)? else {
            return Ok(None);
        };
        self.left = ahead.left;
        Ok(Some(items))
    }

    // So many items one behind the other.
    fn items<T: Field>(&mut self, alloc: Global, count: u64) -> Result<Option<Items<T>>, Memory>
        ensures { GivesField result self.new (items_at T.read count self.old) }
    {
        let mut items = Items::new(alloc);
        for _i in 0..count {
            let Some(item) = T::read_from(self, alloc)? else {
                return Ok(None);
            };
            items.push(item)?;
        }
        Ok(Some(items))
    }

    // The name in the next `length` bytes.
    fn text(&mut self, alloc: Global, length: usize) -> Result<Option<Name>, Memory>
        ensures { GivesField result self.new (text_at length self.old) }
    {
        if self.left.len() < length {
            return Ok(None);
        }
        let (front, rest) = self.left.split_at(length);
        if !is_name(front) {
            return Ok(None);
        }
        self.left = rest;
        Ok(Some(Name::from_slice(alloc, front)?))
    }
}

fn is_in(low: u64, high: u64, value: u64) -> bool
    ensures { result ≡ is_in low high value }
{
    low <= value && value <= high
}
