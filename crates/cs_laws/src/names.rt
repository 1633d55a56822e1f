// Lists of names, as a directory has them.
ghost use Rattle.std.specs.Prelude.{◌≡◌, IfOk};

use crate::requests::copy_name;
use cs_ids::{Ino, Items, Memory, Name};
use std::alloc::Global;

/// A name in a directory, and the inode that it stands for.
#[derive(Drop)]
pub struct NameItem {
    pub name: Name,
    pub ino: Ino,
}

impl NameItem {
    /// A copy, equal to the item.
    pub fn copy(&self, alloc: Global) -> Result<NameItem, Memory>
        ensures { IfOk result (λ i. i ≡ self.now) }
    {
        Ok(NameItem {
            name: copy_name(alloc, &self.name)?,
            ino: self.ino,
        })
    }
}

/// Names in an order.
pub type NameList = Items<NameItem>;

// The same names once more.
pub(crate) fn copy_names(alloc: Global, names: &NameList) -> Result<NameList, Memory>
    ensures { IfOk result (λ n. n ≡ names.now) }
{
    let mut copy = NameList::new(alloc);
    for item in names.as_slice() {
        copy.push(item.copy(alloc)?)?;
    }
    Ok(copy)
}
