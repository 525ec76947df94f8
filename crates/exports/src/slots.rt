// Show and its companion as C functions. Show's part is an offset and a length in the store named.
ghost use Rattle.std.specs.Prelude.{◌≡◌};
ghost use Rattle.answer.specs.Given.{bind, answered};
ghost use Rattle.answer.specs.Answer.{given};
ghost use Rattle.stores.specs.Show.{slot_given};
ghost use Rattle.border.specs.Calls.{mark};
ghost use Rattle.border.specs.Returns.{Returns, contents};
ghost use Rattle.exports.specs.Slots.{store_named, part as Slots·part};

use answer::Refusal;
use border::answers::put;
use stores::show::{StoreKind, slot_state};

// 0 names the face store and every other number the sphere store, as C reads a truth value:
// document 01 has no refusal for a kind that is neither. No `From<u8>` of StoreKind: it would stand in show,
// which says nothing of C's numbers.
#[tactic(auto, unfolding(crate::specs::Slots::store_named))]
fn store_named(kind: u8) -> StoreKind
    ensures { result ≡ store_named kind }
{
    match kind {
        0 => StoreKind::Face,
        _ => StoreKind::Sphere,
    }
}

// The companion: 1 goes to filled where the slot is filled, and 0 where it is empty.
#[unsafe(no_mangle)]
pub extern "C" fn a5_slot_state(
    face_store: &[f64],
    sphere_store: &[f64],
    kind: u8,
    slot: usize,
    filled: &mut u8,
) -> u8
    ensures { Returns (slot_given face_store.now sphere_store.now (store_named kind) slot) result
        (contents filled) mark }
{
    let given = slot_state(face_store, sphere_store, store_named(kind), slot);
    put(given, filled)
}

// Where a slot's coordinates are in its store: from behind the mark on, and how many; 0 and 0 for an empty slot.
fn part_shown(
    face_store: &[f64],
    sphere_store: &[f64],
    named: StoreKind,
    slot: usize,
) -> Result<[usize; 2], Refusal>
    ensures { given result ≡ bind (slot_given face_store.now sphere_store.now named slot)
        (λ filled. answered (Slots·part named slot filled)) }
{
    Ok(if slot_state(face_store, sphere_store, named, slot)? {
        [slot * named.width() + 1, named.coordinates()]
    } else {
        [0, 0]
    })
}

// Show: the offset and the length of a filled slot's coordinates go to part, and 0 and 0 where the
// slot is empty.
#[unsafe(no_mangle)]
pub extern "C" fn a5_show(
    face_store: &[f64],
    sphere_store: &[f64],
    kind: u8,
    slot: usize,
    part: &mut [usize; 2],
) -> u8
    ensures { Returns (slot_given face_store.now sphere_store.now (store_named kind) slot) result
        (contents part) (Slots·part (store_named kind) slot) }
{
    let given = part_shown(face_store, sphere_store, store_named(kind), slot);
    put(given, part)
}
