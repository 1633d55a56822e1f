// The namespace by its tables.
ghost use Rattle.std.specs.Prelude.{◌≡◌, ◌+◌, ◌<◌, ◌≤◌, None, Some, if◌then◌else◌, IfOk, OnOk, OnErr};
ghost use Rattle.cs_laws.specs.Namespace.{after, after_answer, answer_on, entry_at, found, has_dir, made_at, no_names, renamed, unlinked, within};
ghost use Rattle.cs_laws.specs.Names.{listed};
ghost use Rattle.cs_names.specs.Setup.{IsSetUp, after_setup, is_in_use, setup_step};
ghost use Rattle.cs_laws.specs.declared.requests.ReqOp.TheVariants as ops;
ghost use Rattle.cs_names.specs.Table.{making, refusal};

use crate::setup::{SetupStep, setup_name};
use crate::table::{Entry, EntryKey, enter, entries_of, is_filled, leave};
use cs_ids::{Ino, Memory, Name};
use cs_laws::{NameItem, NameList, OpAnswer, ReqOp};
use indexmap::IndexSet;
use std::alloc::Global;
use std::collections::BTreeMap;
use std::marker::Model;

// The inode of the root directory.
const ROOT: u64 = 1;

// The inode of the first directory or file that an operation makes.
const FIRST_MADE: u64 = 10_000;

/// The names that stand in directories. The root directory is inode 1.
#[derive(Drop)]
pub struct Names {
    alloc: Global,
    entries: BTreeMap<EntryKey, Entry>,
    // The standing directories: the root, and those that have a name.
    dirs: IndexSet<Ino>,
    // Each file that was made, whether it still has a name or not.
    files: IndexSet<Ino>,
    // How many directories and files operations have made.
    made: u64,
}

impl Model for Names {
    ghost use Rattle.cs_laws.specs.Namespace.{Names as Namespace};
    ghost use Rattle.cs_names.specs.Table.{IsTable, named_all};

    ghost Value = { Namespace };

    ghost view = { λ n. record { entries = named_all n.entries.entries; files = n.files.keys; made = n.made } };

    ghost invariant = { λ n. IsTable n.entries.entries n.dirs.keys n.files.keys n.made };
}

impl Names {
    /// The root directory alone, with no entries.
    pub fn new(alloc: Global) -> Result<Names, Memory>
        ensures { IfOk result (λ n. n ≡ no_names) }
    {
        let Some(root) = Ino::new(ROOT) else {
            unreachable!()
        };
        let mut dirs = IndexSet::new(alloc);
        dirs.insert(root)?;
        Ok(Names {
            alloc,
            entries: BTreeMap::new(alloc),
            dirs,
            files: IndexSet::new(alloc),
            made: 0,
        })
    }

    /// What an operation would be answered with: what `apply` answers to it. It changes nothing.
    pub fn answer(&self, op: &ReqOp) -> Result<OpAnswer, Memory>
        requires { self.now.made < 89999 }
        ensures { IfOk result (λ a. a ≡ answer_on self.now op.now) }
    {
        match op {
            ReqOp::Mkdir { dir, name } | ReqOp::Create { dir, name } => {
                self.answer_made(*dir, name)
            }
            ReqOp::Unlink { dir, name } => self.answer_unlinked(*dir, name),
            ReqOp::Rename {
                dir,
                name,
                new_name,
            } => self.answer_renamed(*dir, name, new_name),
            ReqOp::Lookup { dir, name } => self.look_up(*dir, name),
        }
    }

    /// Does an operation, and tells its answer. A directory or a file that it makes has inode 10,000
    /// plus the number of those that operations made before. A request that is sent again may carry the
    /// inode of an earlier answer to it, which doesn't change the answer. After `Memory` the names are
    /// as before.
    pub fn apply(&mut self, op: &ReqOp, _carried: Option<Ino>) -> Result<OpAnswer, Memory>
        requires { self.old.made < 89999 }
        ensures answer { IfOk result (λ a. a ≡ answer_on self.old op.now) }
        ensures names { OnOk result (self.new ≡ after self.old op.now) }
        ensures made { OnOk result (self.new.made ≤ self.old.made + 1) }
        ensures err { OnErr result (self.new ≡ self.old) }
    {
        match op {
            ReqOp::Mkdir { dir, name } => self.make(*dir, name, true),
            ReqOp::Create { dir, name } => self.make(*dir, name, false),
            ReqOp::Unlink { dir, name } => self.unlink(*dir, name),
            ReqOp::Rename {
                dir,
                name,
                new_name,
            } => self.rename(*dir, name, new_name),
            ReqOp::Lookup { dir, name } => self.look_up(*dir, name),
        }
    }

    /// Whether this is a standing directory: the root, or one that has a name.
    pub fn has_dir(&self, dir: Ino) -> bool
        ensures { result ≡ has_dir self.now dir }
    {
        self.dirs.contains(&dir)
    }

    /// The names in a directory with their inodes, in the order of the names' bytes, or None exactly
    /// where it is no standing directory.
    pub fn list(&self, dir: Ino) -> Result<Option<NameList>, Memory>
        ensures { IfOk result (λ l. l ≡ (if has_dir self.now dir then Some (listed dir self.now) else None)) }
    {
        if !self.has_dir(dir) {
            return Ok(None);
        }
        let mut list = NameList::new(self.alloc);
        for (key, entry) in entries_of(&self.entries, self.alloc, dir) {
            list.push(NameItem {
                name: Name::from_slice(self.alloc, &key.name)?,
                ino: entry.ino,
            })?;
        }
        Ok(Some(list))
    }

    /// Makes a directory or a file before the run begins, as an entry whose name is the letter d or f
    /// and the inode's number. The inode is 2 to 9,999, and no operation came before. `Exists` where a
    /// standing directory or a file has the inode, and else `NoDir` where `dir` is no standing directory;
    /// these change nothing. After `Memory` the names are as before.
    pub fn setup(&mut self, ino: Ino, dir: Ino, is_dir: bool) -> Result<SetupStep, Memory>
        requires least { 2 ≤ ino }
        requires greatest { ino ≤ 9999 }
        requires first { IsSetUp self.old }
        ensures step { IfOk result (λ s. s ≡ setup_step ino dir self.old) }
        ensures names { OnOk result (self.new ≡ after_setup is_dir ino dir self.old) }
        ensures first { OnOk result (IsSetUp self.new) }
        ensures err { OnErr result (self.new ≡ self.old) }
    {
        if self.is_in_use(ino) {
            return Ok(SetupStep::Exists);
        }
        if !self.has_dir(dir) {
            return Ok(SetupStep::NoDir);
        }
        let key = EntryKey {
            dir: dir.get(),
            name: setup_name(self.alloc, ino, is_dir)?,
        };
        enter(
            &mut self.entries,
            &mut self.dirs,
            &mut self.files,
            key,
            Entry { ino, is_dir },
        )?;
        Ok(SetupStep::Made)
    }

    // Whether a standing directory or a file has the inode.
    fn is_in_use(&self, ino: Ino) -> bool
        ensures { result ≡ is_in_use ino self.now }
    {
        self.dirs.contains(&ino) || self.files.contains(&ino)
    }

    // Makes a directory or a file under a name.
    fn make(&mut self, dir: Ino, name: &Name, is_dir: bool) -> Result<OpAnswer, Memory>
        requires { self.old.made < 89999 }
        ensures answer { IfOk result (λ a. a ≡ within self.old dir (made_at self.old dir name.now)) }
        ensures names { IfOk result (λ a. self.new ≡ after_answer (making is_dir dir name.now) a self.old) }
        ensures err { OnErr result (self.new ≡ self.old) }
    {
        let answer = self.answer_made(dir, name)?;
        let OpAnswer::Made(ino) = answer else {
            return Ok(answer);
        };
        let key = EntryKey::new(self.alloc, dir, name)?;
        enter(
            &mut self.entries,
            &mut self.dirs,
            &mut self.files,
            key,
            Entry { ino, is_dir },
        )?;
        self.made += 1;
        Ok(OpAnswer::Made(ino))
    }

    // What is answered where a directory or a file is to be made under a name.
    fn answer_made(&self, dir: Ino, name: &Name) -> Result<OpAnswer, Memory>
        requires { self.now.made < 89999 }
        ensures { IfOk result (λ a. a ≡ within self.now dir (made_at self.now dir name.now)) }
    {
        if let Some(refusal) = self.refusal(dir) {
            return Ok(refusal);
        }
        let key = EntryKey::new(self.alloc, dir, name)?;
        if self.entries.contains_key(&key) {
            return Ok(OpAnswer::Exists);
        }
        let Some(ino) = Ino::new(FIRST_MADE + self.made) else {
            unreachable!()
        };
        Ok(OpAnswer::Made(ino))
    }

    // Takes the entry of a name out.
    fn unlink(&mut self, dir: Ino, name: &Name) -> Result<OpAnswer, Memory>
        ensures answer { IfOk result (λ a. a ≡ within self.old dir (unlinked self.old (entry_at self.old dir name.now))) }
        ensures names { IfOk result (λ a. self.new ≡ after_answer (ops.Unlink dir name.now) a self.old) }
        ensures err { OnErr result (self.new ≡ self.old) }
    {
        let answer = self.answer_unlinked(dir, name)?;
        let OpAnswer::Gone = answer else {
            return Ok(answer);
        };
        let key = EntryKey::new(self.alloc, dir, name)?;
        let Some(entry) = self.entries.get(&key).copied() else {
            unreachable!()
        };
        leave(&mut self.entries, &mut self.dirs, &key, entry);
        Ok(OpAnswer::Gone)
    }

    // What is answered where the entry of a name is to be taken out.
    fn answer_unlinked(&self, dir: Ino, name: &Name) -> Result<OpAnswer, Memory>
        ensures { IfOk result (λ a. a ≡ within self.now dir (unlinked self.now (entry_at self.now dir name.now))) }
    {
        if let Some(refusal) = self.refusal(dir) {
            return Ok(refusal);
        }
        let key = EntryKey::new(self.alloc, dir, name)?;
        let Some(entry) = self.entries.get(&key).copied() else {
            return Ok(OpAnswer::Missing);
        };
        if is_filled(&self.entries, self.alloc, &entry) {
            return Ok(OpAnswer::NotEmpty);
        }
        Ok(OpAnswer::Gone)
    }

    // Gives the entry of a name another name.
    fn rename(&mut self, dir: Ino, name: &Name, new_name: &Name) -> Result<OpAnswer, Memory>
        ensures answer { IfOk result (λ a. a ≡ within self.old dir (renamed self.old dir name.now new_name.now)) }
        ensures names { IfOk result (λ a. self.new ≡ after_answer (ops.Rename dir name.now new_name.now) a self.old) }
        ensures err { OnErr result (self.new ≡ self.old) }
    {
        let answer = self.answer_renamed(dir, name, new_name)?;
        let OpAnswer::Moved = answer else {
            return Ok(answer);
        };
        let key = EntryKey::new(self.alloc, dir, name)?;
        let new_key = EntryKey::new(self.alloc, dir, new_name)?;
        let Some(entry) = self.entries.get(&key).copied() else {
            unreachable!()
        };
        self.entries.insert(new_key, entry)?;
        self.entries.remove(&key);
        Ok(OpAnswer::Moved)
    }

    // What is answered where the entry of a name is to have another name.
    fn answer_renamed(&self, dir: Ino, name: &Name, new_name: &Name) -> Result<OpAnswer, Memory>
        ensures { IfOk result (λ a. a ≡ within self.now dir (renamed self.now dir name.now new_name.now)) }
    {
        if let Some(refusal) = self.refusal(dir) {
            return Ok(refusal);
        }
        let key = EntryKey::new(self.alloc, dir, name)?;
        let Some(entry) = self.entries.get(&key).copied() else {
            return Ok(OpAnswer::Missing);
        };
        let new_key = EntryKey::new(self.alloc, dir, new_name)?;
        if self.entries.contains_key(&new_key) {
            return Ok(OpAnswer::Exists);
        }
        Ok(OpAnswer::Moved)
    }

    // Looks the entry of a name up.
    fn look_up(&self, dir: Ino, name: &Name) -> Result<OpAnswer, Memory>
        ensures { IfOk result (λ a. a ≡ within self.now dir (found (entry_at self.now dir name.now))) }
    {
        if let Some(refusal) = self.refusal(dir) {
            return Ok(refusal);
        }
        let key = EntryKey::new(self.alloc, dir, name)?;
        Ok(match self.entries.get(&key) {
            Some(entry) => OpAnswer::Found(entry.ino),
            None => OpAnswer::Missing,
        })
    }

    // Why nothing can be done in a directory, or None exactly where it stands.
    fn refusal(&self, dir: Ino) -> Option<OpAnswer>
        ensures { result ≡ refusal self.now dir }
    {
        if self.dirs.contains(&dir) {
            None
        } else if self.files.contains(&dir) {
            Some(OpAnswer::NotDir)
        } else {
            Some(OpAnswer::Missing)
        }
    }
}
