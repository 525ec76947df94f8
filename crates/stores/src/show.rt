// Show and its companion: what a slot of a set's stores holds. Both only read.
ghost use Rattle.std.specs.Prelude.{◌≡◌, ◌+◌, ◌*◌, ◌<◌, ◌≤◌, leb, length};
ghost use Rattle.answer.specs.Answer.{given};
ghost use Rattle.answer.specs.Given.{answered, refuse_if};
ghost use Rattle.stores.specs.Slots.{filled};
ghost use Rattle.stores.specs.Show.{named, slots_in, width_in, coordinates_in, slot_given, PartOf, Shows};

use answer::Refusal;
use set::sizes::{
    FACE_COORDINATES, FACE_SLOTS, FACE_STORE, FACE_WIDTH, SPHERE_COORDINATES, SPHERE_SLOTS,
    SPHERE_STORE, SPHERE_WIDTH,
};

// The store that a slot number is of.
#[derive(Clone, Copy)]
pub enum StoreKind {
    Face,
    Sphere,
}

// Four of the methods match on the kind: each is called by itself, with a clause of its own. A table of the kinds' numbers would be
// one match more, since they would stay.
impl StoreKind {
    // How many slots the store has.
    pub fn slots(self) -> usize
        ensures { result ≡ slots_in self }
    {
        match self {
            StoreKind::Face => FACE_SLOTS,
            StoreKind::Sphere => SPHERE_SLOTS,
        }
    }

    // How many numbers one of its slots takes, the mark among them.
    pub fn width(self) -> usize
        ensures { result ≡ width_in self }
    {
        match self {
            StoreKind::Face => FACE_WIDTH,
            StoreKind::Sphere => SPHERE_WIDTH,
        }
    }

    // How many coordinates are shown of one of its slots.
    pub fn coordinates(self) -> usize
        ensures { result ≡ coordinates_in self }
    {
        match self {
            StoreKind::Face => FACE_COORDINATES,
            StoreKind::Sphere => SPHERE_COORDINATES,
        }
    }

    // The store itself, of the two.
    fn store<'a>(self, face_store: &'a [f64], sphere_store: &'a [f64]) -> &'a [f64]
        ensures numbers { result.now ≡ named self face_store.entry.now sphere_store.entry.now }
        ensures place { result.ref_ptr ≡ named self face_store.entry.ref_ptr sphere_store.entry.ref_ptr }
    {
        match self {
            StoreKind::Face => face_store,
            StoreKind::Sphere => sphere_store,
        }
    }

    // The state of a slot of the store, which is lent here: 10, and otherwise whether the slot is filled.
    fn state_in(self, store: &[f64], slot: usize) -> Result<bool, Refusal>
        requires { slot < slots_in self → slot * width_in self < length store.now }
        ensures { given result ≡ refuse_if (leb (slots_in self) slot) 10
            (answered (filled store.now (slot * width_in self))) }
    {
        if slot >= self.slots() {
            return Err(Refusal::UnknownSlot);
        }
        Ok(state_at(store, slot * self.width()))
    }
}

// Whether the slot that starts at a place is filled, by its mark. `crate::slots::is_filled` tests the bound too, which is known here.
fn state_at(store: &[f64], at: usize) -> bool
    requires { at < length store.now }
    ensures { result ≡ filled store.now at }
{
    store[at] == 1.0
}

// The companion: 2, 3, 10, and otherwise whether the slot is filled. Stores, kind and slot are four arguments here and in show, as
// document 01 has them. 2 and 3 are tried here and not by `SetRef::check`, which tries the frame first, and no frame is lent here.
#[tactic(auto, unfolding(crate::specs::Show::slot_given))]
pub fn slot_state(
    face_store: &[f64],
    sphere_store: &[f64],
    kind: StoreKind,
    slot: usize,
) -> Result<bool, Refusal>
    ensures { given result ≡ slot_given face_store.now sphere_store.now kind slot }
{
    if face_store.len() != FACE_STORE {
        return Err(Refusal::FaceStoreLength);
    }
    if sphere_store.len() != SPHERE_STORE {
        return Err(Refusal::SphereStoreLength);
    }
    // A match, in whose arms the kind's numbers are constants: on kind.store(..) this call took 1.5 ns more, and show 2.
    match kind {
        StoreKind::Face => kind.state_in(face_store, slot),
        StoreKind::Sphere => kind.state_in(sphere_store, slot),
    }
}

// The coordinates of the slot that starts at a place: so many, behind its mark.
fn coordinates<'a>(store: &'a [f64], at: usize, count: usize) -> &'a [f64]
    requires { at + 1 + count ≤ length store.now }
    ensures { PartOf store.entry (at + 1) count result }
{
    &store[at + 1..at + 1 + count]
}

// The coordinates of a filled slot, as a part of the store named; else an empty part at the face
// store's start.
pub fn show<'a>(
    face_store: &'a [f64],
    sphere_store: &'a [f64],
    kind: StoreKind,
    slot: usize,
) -> &'a [f64]
    ensures { Shows face_store.entry sphere_store.entry kind slot result }
{
    if slot_state(face_store, sphere_store, kind, slot).unwrap_or(false) {
        let store = kind.store(face_store, sphere_store);
        coordinates(store, slot * kind.width(), kind.coordinates())
    } else {
        &face_store[0..0]
    }
}
