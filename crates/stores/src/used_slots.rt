// The slots that a call used, written.
ghost use Rattle.std.specs.Prelude.{◌≡◌, ◌<◌, length};
ghost use Rattle.arithmetic.specs.Arith.{ieee};
ghost use Rattle.set.specs.Sizes.{FACE_STORE};
ghost use Rattle.set.specs.Lent.{seen, held, SameBuffers};
ghost use Rattle.stores.specs.Used.{has_slots, faces_written, written_if_there};

use crate::slot_writes::{write_face_slot, write_sphere_slot};
use crate::slots::{face_slot, source_slot, sphere_slot};
use crate::used::Used;
use set::checks::check_call;
use set::set::{Set, SetRef};

// Whether the set passes 1 to 4, and the slots used are among its.
fn has_slots(set: SetRef<'_>, used: Used) -> bool
    ensures { result ≡ has_slots (seen set.entry) used }
{
    check_call(set, used.origin).is_ok() && used.index < 10
}

// Writes the face slots that a call uses and that are empty.
fn write_faces(store: &mut [f64], index: u8, reflected: bool)
    requires { (index < 10) × (length store.old ≡ FACE_STORE) }
    ensures { store.new ≡ faces_written ieee store.old index reflected }
{
    write_face_slot(store, face_slot(index, reflected));
    if reflected {
        write_face_slot(store, source_slot(index, reflected));
    }
}

// Writes the slots that an answered call used and that are empty; where the set has not all of them,
// nothing.
pub fn write_used(set: &mut Set<'_>, used: Used)
    ensures same { SameBuffers set.old set.new }
    ensures written { held set.new ≡ written_if_there ieee (held set.old) used }
{
    if has_slots(set.view(), used) {
        write_faces(set.face_store, used.index, used.reflected);
        let slot = sphere_slot(used.origin, used.index, used.reflected);
        write_sphere_slot(set.sphere_store, slot, used.triangle, used.bxc);
    }
}
