// The sphere triangle of a slot, and b × c: a filled slot as it stands, and for an empty one the
// triangle that is built for it.
ghost use Rattle.std.specs.Prelude.{◌≡◌, ◌<◌, length};
ghost use Rattle.answer.specs.Answer.{given};
ghost use Rattle.arithmetic.specs.Arith.{ieee};
ghost use Rattle.set.specs.Lent.{seen};
ghost use Rattle.set.specs.Sizes.{FACE_SLOTS, FACE_STORE, SPHERE_SLOTS, SPHERE_STORE};
ghost use Rattle.stores.specs.Triangles.{sphere_built, sphere_taken, cross_taken};

use crate::slots::is_filled;
use crate::triangles::{corner_vertex, read_sphere, read_vector, take_face};
use answer::Refusal;
use coordinates::coords::{Cartesian, FaceTriangle, SphericalTriangle};
use set::on_origin::SoundOrigin;
use set::set::SetRef;
use set::sizes::{SPHERE_CROSS, SPHERE_WIDTH};
use transforms::vector::cross;

// compute_spherical_triangle: the three corners looked up; 8 where one has no row.
fn build_sphere(
    frame: &[f64],
    origin: SoundOrigin,
    t: FaceTriangle,
) -> Result<SphericalTriangle, Refusal>
    ensures { given result ≡ sphere_built ieee frame.now origin.origin t }
{
    let a = corner_vertex(frame, origin, t.a)?;
    let b = corner_vertex(frame, origin, t.b)?;
    let c = corner_vertex(frame, origin, t.c)?;
    Ok(SphericalTriangle { a, b, c })
}

// The sphere triangle of a slot, built on the face triangle of the slot source where it is empty.
pub fn take_sphere(
    set: SetRef<'_>,
    origin: SoundOrigin,
    slot: usize,
    source: usize,
) -> Result<SphericalTriangle, Refusal>
    requires slot_bound { (slot < SPHERE_SLOTS) × (length set.sphere_store.now ≡ SPHERE_STORE) }
    requires source_bound { (source < FACE_SLOTS) × (length set.face_store.now ≡ FACE_STORE) }
    ensures { given result ≡ sphere_taken ieee (seen set.entry) origin.origin slot source }
{
    let at = slot * SPHERE_WIDTH;
    if is_filled(set.sphere_store, at) {
        Ok(read_sphere(&set.sphere_store[at + 1..at + SPHERE_CROSS]))
    } else {
        build_sphere(set.frame, origin, take_face(set.face_store, source))
    }
}

// B × C of the triangle t that was taken from a slot: as it stands there, and formed where the slot is
// empty.
pub fn take_cross(store: &[f64], slot: usize, t: SphericalTriangle) -> Cartesian
    requires { (slot < SPHERE_SLOTS) × (length store.now ≡ SPHERE_STORE) }
    ensures { result ≡ cross_taken ieee store.now slot t }
{
    let at = slot * SPHERE_WIDTH;
    if is_filled(store, at) {
        read_vector(&store[at + SPHERE_CROSS..at + SPHERE_WIDTH])
    } else {
        cross(t.b, t.c)
    }
}
