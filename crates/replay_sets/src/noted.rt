// A set, with notes of what it should hold.
ghost use Rattle.std.specs.Prelude.{◌≡◌, take, length, slice_index, IfOk, IfSome};
ghost use Rattle.replay_numbers.specs.Alike.{AlikeFrom};

use crate::numbers::{copy, fill, put_three};
use crate::places::{DEFINED_AT, FACE_AT, FACE_STORE, FRAME, SPHERE_AT, SPHERE_STORE};
use replay::record::Record;
use replay_numbers::unlike;
use set::sizes::{FACE_SLOTS, FACE_WIDTH, SPHERE_SLOTS, SPHERE_WIDTH};
use std::alloc::{AllocError, Global};

// Each buffer has one number more than a set has. The notes say what the set should hold, and what else a program's records
// put there.
#[derive(Drop)]
pub struct Set {
    pub frame: [f64; FRAME],
    pub face: [f64; FACE_STORE],
    pub sphere: [f64; SPHERE_STORE],
    pub notes: Vec<f64>,
}

// What open is lent of a set: it writes the frame too.
#[derive(Drop)]
pub struct Lent<'a> {
    pub frame: &'a mut [f64],
    pub face: &'a mut [f64],
    pub sphere: &'a mut [f64],
}

// The slots of a store: how many it has, of how many numbers, and where the first of them is noted. All three are fixed.
#[derive(Clone, Copy)]
struct Slots {
    count: usize,
    width: usize,
    at: usize,
}

const FACES: Slots = Slots {
    count: FACE_SLOTS,
    width: FACE_WIDTH,
    at: FACE_AT,
};

const SPHERES: Slots = Slots {
    count: SPHERE_SLOTS,
    width: SPHERE_WIDTH,
    at: SPHERE_AT,
};

impl Set {
    // A set of zeros, with so many notes.
    pub fn new(alloc: Global, notes: usize) -> Result<Set, AllocError>
        ensures { IfOk result (λ s. length s.notes.items ≡ notes) }
    {
        Ok(Set {
            frame: [0.0; FRAME],
            face: [0.0; FACE_STORE],
            sphere: [0.0; SPHERE_STORE],
            notes: vec![in alloc; 0.0; notes]?,
        })
    }

    // The first numbers of the three buffers, so many of each, if they have so many.
    pub fn lend(&mut self, lengths: [u64; 3]) -> Option<Lent<'_>>
        ensures frame { IfSome result (λ lent. lent.frame.now ≡ take (slice_index lengths 0) self.old.frame) }
        ensures face { IfSome result (λ lent. lent.face.now ≡ take (slice_index lengths 1) self.old.face) }
        ensures sphere { IfSome result (λ lent. lent.sphere.now ≡ take (slice_index lengths 2) self.old.sphere) }
    {
        let [of_frame, of_face, of_sphere] = lengths;
        let Set {
            frame,
            face,
            sphere,
            ..
        } = self;
        Some(Lent {
            frame: frame.get_mut(..of_frame as usize)?,
            face: face.get_mut(..of_face as usize)?,
            sphere: sphere.get_mut(..of_sphere as usize)?,
        })
    }

    // The same for every other call, which has the frame to be read: its fields by the names that calls know them by.
    pub fn lend_set(&mut self, lengths: [u64; 3]) -> Option<set::set::Set<'_>>
        ensures frame { IfSome result (λ set. set.frame.now ≡ take (slice_index lengths 0) self.old.frame) }
        ensures face { IfSome result (λ set. set.face_store.now ≡ take (slice_index lengths 1) self.old.face) }
        ensures sphere { IfSome result (λ set. set.sphere_store.now ≡ take (slice_index lengths 2) self.old.sphere) }
    {
        let Lent {
            frame,
            face,
            sphere,
        } = self.lend(lengths)?;
        Some(set::set::Set {
            frame,
            face_store: face,
            sphere_store: sphere,
        })
    }

    // How many numbers of the set are not as noted, in the first buffer where one is: none only where all are.
    pub fn wrong(&self) -> usize
        ensures frame { result ≡ 0 → AlikeFrom self.now.frame self.now.notes.items 0 }
        ensures face { result ≡ 0 → AlikeFrom self.now.face self.now.notes.items 187 }
        ensures sphere { result ≡ 0 → AlikeFrom self.now.sphere self.now.notes.items 398 }
    {
        let in_frame = unlike(&self.frame, &self.notes, 0);
        if in_frame > 0 {
            return in_frame;
        }
        let in_face = unlike(&self.face, &self.notes, FACE_AT);
        if in_face > 0 {
            return in_face;
        }
        unlike(&self.sphere, &self.notes, SPHERE_AT)
    }

    // Below are the records that are no calls: they say what stands in the set, and what should stand there after the next
    // call. None where a place that one names is not there.

    // Three numbers for the notes, from a place on.
    pub fn note(&mut self, record: &Record) -> Option<()> {
        put_three(&mut self.notes, record.word(0) as usize, record)
    }

    // Three numbers that foreign hands write into the set, and the same into the notes, from a place on.
    pub fn put(&mut self, record: &Record) -> Option<()> {
        let at = record.word(0) as usize;
        put_three(&mut self.notes, at, record)?;
        if at < FACE_AT {
            put_three(&mut self.frame, at, record)
        } else if at < SPHERE_AT {
            put_three(&mut self.face, at - FACE_AT, record)
        } else {
            put_three(&mut self.sphere, at - SPHERE_AT, record)
        }
    }

    // One number into each place of the frame, one into each of the face store, and one into each of the sphere store.
    pub fn fill_all(&mut self, record: &Record) -> Option<()> {
        let x = record.argument(0);
        let y = record.argument(1);
        let z = record.argument(2);
        self.frame.fill(x);
        self.face.fill(y);
        self.sphere.fill(z);
        fill(&mut self.notes, 0, FRAME, x)?;
        fill(&mut self.notes, FACE_AT, FACE_STORE, y)?;
        fill(&mut self.notes, SPHERE_AT, SPHERE_STORE, z)
    }

    // What open should leave: the frame that stands from a place on, and zeros in both stores. What lies behind stays. The stores are
    // noted also where no frame is.
    pub fn opened(&mut self, frame_at: Option<usize>) -> Option<()>
        ensures frame { self.new.frame ≡ self.old.frame }
        ensures face { self.new.face ≡ self.old.face }
        ensures sphere { self.new.sphere ≡ self.old.sphere }
    {
        let face = fill(&mut self.notes, FACE_AT, FACE_STORE - 1, 0.0);
        let sphere = fill(&mut self.notes, SPHERE_AT, SPHERE_STORE - 1, 0.0);
        copy(&mut self.notes, frame_at?, 0, FRAME - 1)?;
        face.and(sphere)
    }

    // A slot that should then hold the triangle defined for it, of the sphere with b × c; the number after the last is none.
    fn keep_slot(&mut self, slots: Slots, slot: u64) -> Option<()> {
        let slot = slot as usize;
        if slot == slots.count {
            return Some(());
        }
        if slot > slots.count {
            return None;
        }
        let at = slots.width.checked_mul(slot)?.checked_add(slots.at)?;
        copy(
            &mut self.notes,
            at.checked_add(DEFINED_AT)?,
            at,
            slots.width,
        )
    }

    // The face slots that the next call should write as they are defined: two of them, each also where the other is not there.
    pub fn keep_faces(&mut self, record: &Record) -> Option<()> {
        let first = self.keep_slot(FACES, record.word(0));
        let second = self.keep_slot(FACES, record.word(1));
        first.and(second)
    }

    // The same, and a sphere slot.
    pub fn keep(&mut self, record: &Record) -> Option<()> {
        let faces = self.keep_faces(record);
        let sphere = self.keep_slot(SPHERES, record.word(2));
        faces.and(sphere)
    }
}
