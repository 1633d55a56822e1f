// The cached pages of a file, after the CephFS documentation of snapshots and capabilities and the
// comments of Linux's fs/ceph/addr.c.
ghost use Rattle.std.specs.Prelude.{◌≡◌, ◌≢◌, ℕ, ◌+◌, ◌==◌, ◌<◌, ◌≤◌, ◌↔◌, false, true, None, [], Some, length, IfOk, OnErr, OnOk, IfSome, IsNone, IsTrue};
ghost use Rattle.std.specs.Option.{option_map, option_copied};
ghost use Rattle.cs_states.specs.declared.page.PageState.TheVariants as page_states;
ghost use Rattle.cs_states.specs.declared.page.PageWrite.TheVariants as writes;
ghost use Rattle.cs_states.specs.declared.page.Pick.TheVariants as picks;
ghost use Rattle.cs_states.specs.PageLists.{clean_count, first_waiting, least, listed, oldest, owed_to, owed_under, pick};
ghost use Rattle.cs_states.specs.PageState.{is_in, write_answer};
ghost use Rattle.cs_pages.specs.declared.page.Filled.TheVariants as fills;
ghost use Rattle.cs_pages.specs.Page.{after_ack, after_drop, cleaned, context_of, dirtied, fill_answer, filled, sent_as};
ghost use Rattle.cs_pages.specs.Pages.{ChangesEach, ChangesPage, page_at, page_in, state_at, states};

use crate::block::PAGE_SIZE;
use crate::{Block, Filled, Owed, Page};
use cs_ids::{Memory, Seq, Tid};
use cs_snapctx::SnapContext;
use cs_states::{PageState, PageWrite, Pick};
use std::alloc::Global;
use std::collections::BTreeMap;
use std::marker::Model;

/// The cached pages of a file. Contracts see them as a list of pairs, a number and a page, in the order
/// of the numbers. A page's number is the place of its first byte in the file over 4,096, so a file of
/// 1,048,576 bytes has pages 0 to 255. No two pages are sent in the same operation.
#[derive(Drop)]
pub struct Pages {
    pages: BTreeMap<u32, Page>,
    alloc: Global,
}

impl Model for Pages {
    ghost use Rattle.std.specs.Prelude.{List, ℕ};
    ghost use Rattle.cs_pages.specs.Pages.{IsKept};
    ghost use Rattle.cs_pages.specs.declared.page.Page.{Page};

    ghost Value = { List (ℕ × Page) };

    ghost view = { λ s. s.pages.entries };

    ghost invariant = { λ s. IsKept s.pages.entries };
}

impl Pages {
    /// No pages. It takes no memory.
    pub fn new(alloc: Global) -> Self
        ensures { result ≡ [] }
    {
        Pages {
            pages: BTreeMap::new(alloc),
            alloc,
        }
    }

    /// What the page of this number is to the client.
    pub fn state(&self, page: u32) -> PageState
        ensures { result ≡ state_at self.now page }
    {
        match self.pages.get(&page) {
            None => PageState::Absent,
            Some(held) => held.state(),
        }
    }

    /// The 4,096 bytes of a page, or None exactly where it isn't cached.
    pub fn read(&self, page: u32) -> Option<&[u8]>
        ensures bytes { option_copied result ≡ option_map (λ x. x.bytes) (page_at self.now page) }
        ensures size { IfSome result (λ b. length b.now ≡ 4096) }
        ensures none { IsNone result ↔ (state_at self.now page ≡ page_states.Absent) }
    {
        let held = self.pages.get(&page)?;
        Some(held.bytes.as_slice())
    }

    /// The context under which a page is owed, or None exactly where it isn't owed.
    pub fn context_of(&self, page: u32) -> Option<&SnapContext>
        ensures { option_copied result ≡ context_of (page_at self.now page) }
    {
        let held = self.pages.get(&page)?;
        let owed = held.owed.as_ref()?;
        Some(&owed.context)
    }

    /// How many pages are cached, at most 256.
    #[tactic(auto, using(crate::proofs::Ordered::listed_states, crate::proofs::Ordered::few))]
    pub fn cached(&self) -> u32
        ensures value { result ≡ length self.now }
        ensures listed { listed 256 0 (state_at self.now) ≡ states self.now }
        ensures few { result ≤ 256 }
    {
        self.pages.len() as u32
    }

    /// Puts a page of the store's head into the cache, where `free` more pages may be cached: `Room`
    /// exactly where that is 0. After `Memory` the pages are as before.
    pub fn fill(&mut self, page: u32, bytes: &[u8; 4096], free: u32) -> Result<Filled, Memory>
        requires absent { state_at self.old page ≡ page_states.Absent }
        requires number { page < 256 }
        ensures answer { IfOk result (λ a. a ≡ fill_answer free) }
        ensures filled { result ≡ Ok fills.Filled → ChangesPage self.old self.new page (Some (filled bytes.now)) }
        ensures refused { result ≡ Ok fills.Room → self.new ≡ self.old }
        ensures err { OnErr result (self.new ≡ self.old) }
    {
        if free == 0 {
            return Ok(Filled::Room);
        }
        let bytes = Block::new(self.alloc, bytes)?;
        self.pages.insert(page, Page { bytes, owed: None })?;
        Ok(Filled::Filled)
    }

    /// What a buffered write into a page would answer, under the context of number `seq`, where it covers
    /// the page whole or not, and `free` more pages may be cached.
    pub fn write_answer(&self, page: u32, seq: Seq, whole: bool, free: u32) -> PageWrite
        ensures { result ≡ write_answer seq whole free (state_at self.now page) }
    {
        match self.state(page) {
            PageState::Absent => {
                if free == 0 {
                    PageWrite::Room
                } else if whole {
                    PageWrite::Written
                } else {
                    PageWrite::NeedFill
                }
            }
            PageState::Clean => PageWrite::Written,
            PageState::Dirty { seq: owed } => {
                if owed < seq {
                    PageWrite::Older { seq: owed }
                } else {
                    PageWrite::Written
                }
            }
            PageState::Sent { seq: owed, tid } => {
                if owed < seq {
                    PageWrite::Older { seq: owed }
                } else {
                    PageWrite::InFlight { tid }
                }
            }
        }
    }

    /// A buffered write into one page, from the place `at` in it on, under a snapshot context, where
    /// `free` more pages may be cached. The page is owed under that context from then on. A refusal
    /// changes nothing. After `Memory` the pages are as before.
    pub fn write(
        &mut self,
        page: u32,
        at: u32,
        bytes: &[u8],
        ctx: &SnapContext,
        free: u32,
    ) -> Result<PageWrite, Memory>
        requires some { 0 < length bytes.now }
        requires within { at + length bytes.now ≤ 4096 }
        requires number { page < 256 }
        ensures answer { let whole = length bytes.now == 4096 in
            IfOk result (λ a. a ≡ write_answer ctx.now.seq whole free (state_at self.old page)) }
        ensures written { let page_after = dirtied ctx.now at bytes.now (page_at self.old page) in
            result ≡ Ok writes.Written → ChangesPage self.old self.new page (Some page_after) }
        ensures refused { IfOk result (λ a. a ≢ writes.Written → self.new ≡ self.old) }
        ensures err { OnErr result (self.new ≡ self.old) }
    {
        let answer = self.write_answer(page, ctx.seq(), bytes.len() == PAGE_SIZE, free);
        let PageWrite::Written = answer else {
            return Ok(answer);
        };
        let context = ctx.copy()?;
        self.put(page, at as usize, bytes, Owed { context, tid: None })?;
        Ok(PageWrite::Written)
    }

    // The bytes are written into the page, which is owed so from then on.
    fn put(&mut self, page: u32, at: usize, bytes: &[u8], owed: Owed) -> Result<(), Memory>
        requires within { at + length bytes.now ≤ 4096 }
        requires number { page < 256 }
        requires whole { IsNone (page_at self.old page) → length bytes.now ≡ 4096 }
        requires unsent { owed.tid ≡ None }
        ensures ok { let page_after = dirtied owed.context at bytes.now (page_at self.old page) in
            OnOk result (ChangesPage self.old self.new page (Some page_after)) }
        ensures err { OnErr result (self.new ≡ self.old) }
    {
        if let Some(held) = self.pages.get_mut(&page) {
            held.bytes.write(at, bytes);
            held.owed = Some(owed);
            return Ok(());
        }
        let bytes = Block::from_slice(self.alloc, bytes)?;
        self.pages.insert(
            page,
            Page {
                bytes,
                owed: Some(owed),
            },
        )?;
        Ok(())
    }

    /// The number of the oldest context under which a page is owed, or None exactly where no page is.
    pub fn oldest(&self) -> Option<Seq>
        ensures { result ≡ oldest (states self.now) }
    {
        let mut oldest: Option<Seq> = None;
        for (_, page) in self.pages.iter() {
            oldest = least(oldest, page.state().owed_seq());
        }
        oldest
    }

    /// How many pages are owed under contexts of at most this number.
    pub fn owed_to(&self, follows: Seq) -> u32
        ensures { result ≡ owed_to follows (states self.now) }
    {
        // No more are counted than are cached, so that the count has room.
        let most = self.cached();
        let mut count: u32 = 0;
        for (_, page) in self.pages.iter() {
            if page.state().is_up_to(follows) {
                count += 1;
            }
        }
        count
    }

    /// The page to be written back next: of those owed under the oldest context, the lowest that isn't
    /// sent.
    pub fn pick(&self) -> Pick
        ensures { result ≡ pick (states self.now) }
    {
        let Some(seq) = self.oldest() else {
            return Pick::Clean;
        };
        match self.first_waiting(seq) {
            Some(page) => Pick::Page(page),
            None => Pick::Waiting(self.owed_under(seq)),
        }
    }

    // How many pages are owed under the context of this number.
    fn owed_under(&self, seq: Seq) -> u32
        ensures { result ≡ owed_under seq (states self.now) }
    {
        // No more are counted than are cached, so that the count has room.
        let most = self.cached();
        let mut count: u32 = 0;
        for (_, page) in self.pages.iter() {
            if page.state().is_under(seq) {
                count += 1;
            }
        }
        count
    }

    // The lowest page that is owed under the context of this number and isn't sent.
    fn first_waiting(&self, seq: Seq) -> Option<u32>
        ensures { result ≡ option_map (λ e. e.0) (first_waiting seq (states self.now)) }
    {
        for (number, page) in self.pages.iter() {
            if page.state().is_waiting(seq) {
                return Some(*number);
            }
        }
        None
    }

    /// The page that `pick` names is sent, in an operation in which no other page is.
    pub fn mark_sent(&mut self, page: u32, tid: Tid)
        requires picked { pick (states self.old) ≡ picks.Page page }
        requires new { (p : ℕ) → is_in tid (state_at self.old p) ≡ false }
        ensures { ChangesPage self.old self.new page (option_map (sent_as tid) (page_at self.old page)) }
    {
        if let Some(held) = self.pages.get_mut(&page) {
            if let Some(owed) = &mut held.owed {
                owed.tid = Some(tid);
            }
        }
    }

    /// The operation of this number is acknowledged. The page that is sent in it is clean from then on,
    /// or dropped where it isn't to be kept. False exactly where no page is; then nothing changes. Like
    /// `pick`, it looks at the cached pages in turn.
    pub fn mark_done(&mut self, tid: Tid, keep: bool) -> bool
        ensures found { IsTrue result ↔ (p : ℕ) × (is_in tid (state_at self.old p) ≡ true) }
        ensures pages { ChangesEach self.old self.new (after_ack keep tid) }
        ensures none { result ≡ false → self.new ≡ self.old }
    {
        let Some(page) = self.page_in(tid) else {
            return false;
        };
        if keep {
            self.clean(page);
        } else {
            self.remove(page);
        }
        true
    }

    // The page that is sent in this operation.
    #[tactic(auto, using(crate::proofs::Sent::found_in, crate::proofs::Sent::alone_in, crate::proofs::Sent::none_in))]
    fn page_in(&self, tid: Tid) -> Option<u32>
        ensures found { IfSome result (λ p. is_in tid (state_at self.now p) ≡ true) }
        ensures alone { IfSome result (λ p. (q : ℕ) → is_in tid (state_at self.now q) ≡ true → q ≡ p) }
        ensures none { IsNone result → (q : ℕ) → is_in tid (state_at self.now q) ≡ false }
    {
        for (number, page) in self.pages.iter() {
            if page.state().is_in(tid) {
                return Some(*number);
            }
        }
        None
    }

    // Nothing of the page is owed from then on.
    fn clean(&mut self, page: u32)
        ensures { ChangesPage self.old self.new page (option_map cleaned (page_at self.old page)) }
    {
        if let Some(held) = self.pages.get_mut(&page) {
            held.owed = None;
        }
    }

    // The page isn't cached from then on.
    fn remove(&mut self, page: u32)
        ensures { ChangesPage self.old self.new page None }
    {
        let _ = self.pages.remove(&page);
    }

    /// Drops the page where it is clean.
    pub fn drop_clean(&mut self, page: u32)
        ensures { ChangesPage self.old self.new page (after_drop (page_at self.old page)) }
    {
        if let Some(held) = self.pages.get(&page) {
            if held.owed.is_none() {
                self.remove(page);
            }
        }
    }

    /// Drops all clean pages, and tells how many these were.
    pub fn invalidate(&mut self) -> u32
        ensures count { result ≡ clean_count (states self.old) }
        ensures fewer { result + length self.new ≡ length self.old }
        ensures pages { ChangesEach self.old self.new after_drop }
    {
        let before = self.cached();
        self.pages.retain(|_, page| page.owed.is_some());
        before - self.cached()
    }
}

// The lesser number, where there are two.
fn least(a: Option<Seq>, b: Option<Seq>) -> Option<Seq>
    ensures { result ≡ least a b }
{
    match (a, b) {
        (Some(a), Some(b)) => Some(a.min(b)),
        (Some(a), None) => Some(a),
        (None, b) => b,
    }
}
