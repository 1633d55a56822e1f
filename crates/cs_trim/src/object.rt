// An object: its head, and the clones that serve its snapshots.
ghost use Rattle.std.specs.Prelude.{◌≡◌, ◌+◌, ◌<◌, ◌≤◌, length, slice_index, vec_len, vec_capacity, EachIndex, IfOk, OnOk, OnErr};
ghost use Rattle.cs_geom.specs.declared.places.TheConstants.{OBJECT_SIZE};
ghost use Rattle.cs_trim.specs.Blocks.{byte_in, Writes};
ghost use Rattle.cs_trim.specs.Clones.{has};
ghost use Rattle.cs_trim.specs.Held.{clone_image, clones_after, dropped, head_image, image_at, image_in, last_seq, no_object, seq_after, trimmed_object, IsWritten};

use crate::image::Image;
use crate::numbers::Numbers;
use cs_ids::{Memory, Seq};
use cs_laws::At;
use std::alloc::Global;
use std::marker::Model;

/// The numbers above `above` up to `upto`.
#[derive(Clone, Copy)]
pub struct Span {
    pub above: Seq,
    pub upto: Seq,
}

impl Span {
    // Whether the number is in the span.
    fn has(&self, number: u64) -> bool
        ensures { result ≡ has number self.now }
    {
        self.above.get() < number && number <= self.upto.get()
    }
}

/// What an object has at present.
#[derive(Drop)]
pub struct Head {
    // The seq of the last write.
    seq: Seq,
    image: Image,
}

/// What an object had at the snapshots of a span.
#[derive(Drop)]
pub struct KeptClone {
    span: Span,
    image: Image,
}

/// An object. There is no head where it wasn't written. The clones have the oldest first.
#[derive(Drop)]
pub struct Object {
    head: Option<Head>,
    clones: Vec<KeptClone>,
}

impl Model for Object {
    ghost use Rattle.std.specs.Prelude.{◌≤◌, length};
    ghost use Rattle.cs_trim.specs.Held.{last_seq, ObjectState};

    ghost Value = { ObjectState };

    ghost view = { λ o. record { head = o.head; clones = o.clones.items } };

    ghost invariant = { λ o. length o.clones.items ≤ last_seq o.head };
}

impl Object {
    /// An object that wasn't written. It takes no memory.
    pub fn new(alloc: Global) -> Self
        ensures { result ≡ no_object }
    {
        Object {
            head: None,
            clones: Vec::new(alloc),
        }
    }

    /// How many clones it has.
    pub fn clones(&self) -> u32
        ensures count { result ≡ length self.now.clones }
        ensures few { result ≤ 99999 }
    {
        let Some(head) = &self.head else {
            return 0;
        };
        let count = self.clones.len();
        let last = head.seq.get();
        prove!(count as u64 <= last);
        count as u32
    }

    // What it has in a state, or had.
    fn image(&self, at: &At) -> Option<&Image>
        ensures { image_in result ≡ image_at at.now self.now }
    {
        let head = self.head.as_ref()?;
        match at {
            At::Head => Some(&head.image),
            At::Snap(snap) if head.seq.get() < snap.get() => Some(&head.image),
            At::Snap(snap) => clone_image(self.clones.as_slice(), snap.get()),
        }
    }

    /// Fills `out` with the bytes of a state from `off` on.
    pub fn read(&self, at: &At, off: u32, out: &mut [u8])
        ensures { EachIndex out.new (λ k. slice_index out.new k ≡ byte_in (image_at at.now self.now) (off + k)) }
    {
        match self.image(at) {
            Some(image) => image.read(off, out),
            None => out.fill(0),
        }
    }

    // The present image once bytes are written from `off` on.
    fn written(&self, alloc: Global, off: u32, bytes: &[u8]) -> Result<Image, Memory>
        requires { off + length bytes.now ≤ OBJECT_SIZE }
        ensures { IfOk result (Writes off bytes.now (head_image self.now.head)) }
    {
        match &self.head {
            Some(head) => head.image.written(alloc, off, bytes),
            None => Image::new(alloc).written(alloc, off, bytes),
        }
    }

    /// Writes bytes from `off` on. Where numbers were drawn since the last write the head becomes a clone.
    #[tactic(auto, using(crate::proofs::Fitting::clones_fit))]
    pub fn write(&mut self, alloc: Global, seq: &Seq, off: u32, bytes: &[u8]) -> Result<(), Memory>
        requires { off + length bytes.now ≤ OBJECT_SIZE }
        ensures ok { OnOk result (IsWritten seq.now off bytes.now self.old self.new) }
        ensures err { OnErr result (self.new ≡ self.old) }
    {
        let image = self.written(alloc, off, bytes)?;
        self.clones.reserve(1)?;
        let old = self.head.take();
        self.head = Some(next_head(&mut self.clones, old, seq, image));
        Ok(())
    }

    /// Drops the clones that serve no standing snapshot, and answers how many.
    pub fn trim(&mut self, numbers: &Numbers) -> u32
        ensures trimmed { self.new ≡ trimmed_object numbers.now self.old }
        ensures count { result ≡ dropped numbers.now self.old }
        ensures few { result ≤ 99999 }
    {
        let before = self.clones();
        self.clones
            .retain(|clone| numbers.any_standing(&clone.span));
        before - self.clones()
    }
}

// The image of the clone in whose span a number lies.
fn clone_image(clones: &[KeptClone], number: u64) -> Option<&Image>
    ensures { image_in result ≡ clone_image number clones.now }
{
    for clone in clones {
        if clone.span.has(number) {
            return Some(&clone.image);
        }
    }
    None
}

// The head behind a write. The old one becomes a clone, for which there is room, where numbers were
// drawn since its last write.
fn next_head(clones: &mut Vec<KeptClone>, old: Option<Head>, seq: &Seq, image: Image) -> Head
    requires { vec_len clones.old < vec_capacity clones.old }
    ensures head { result ≡ record { seq = seq_after seq.now old; image = image } }
    ensures clones { clones.new.items ≡ clones_after seq.now old clones.old.items }
{
    let Some(old) = old else {
        return Head { seq: *seq, image };
    };
    if old.seq.get() < seq.get() {
        let span = Span {
            above: old.seq,
            upto: *seq,
        };
        let clone = KeptClone {
            span,
            image: old.image,
        };
        let Ok(()) = clones.push(clone) else {
            unreachable!()
        };
        Head { seq: *seq, image }
    } else {
        Head {
            seq: old.seq,
            image,
        }
    }
}
