// Writing a slot: its mark and its numbers, where it is empty.
ghost use Rattle.std.specs.Prelude.{◌≡◌, ◌∷◌, ◌+◌, ◌<◌, ◌≤◌, length};
ghost use Rattle.arithmetic.specs.Numbers.{1·0};
ghost use Rattle.arithmetic.specs.Arith.{ieee};
ghost use Rattle.set.specs.Sizes.{FACE_SLOTS, FACE_STORE, SPHERE_SLOTS, SPHERE_STORE, SPHERE_WIDTH as the_sphere_width};
ghost use Rattle.stores.specs.Slots.{put, slot_written, face_run, sphere_run};
ghost use Rattle.stores.specs.Used.{face_written};

use crate::slots::is_filled;
use coordinates::coords::{Cartesian, FaceTriangle, SphericalTriangle};
use set::sizes::{FACE_COORDINATES, FACE_WIDTH, SPHERE_WIDTH};
use tiling::face_triangles::face_triangle;

// How many numbers stand behind a sphere slot's mark.
const SPHERE_NUMBERS: usize = SPHERE_WIDTH - 1;

// The coordinates of a face triangle.
fn face_run(t: FaceTriangle) -> [f64; FACE_COORDINATES]
    ensures { result ≡ face_run t }
{
    [t.a.0.x, t.a.0.y, t.b.0.x, t.b.0.y, t.c.0.x, t.c.0.y]
}

// The coordinates of a sphere triangle, and b × c behind them.
fn sphere_run(t: SphericalTriangle, bxc: Cartesian) -> [f64; SPHERE_NUMBERS]
    ensures { result ≡ sphere_run t bxc }
{
    [
        t.a.0.x, t.a.0.y, t.a.0.z, t.b.0.x, t.b.0.y, t.b.0.z, t.c.0.x, t.c.0.y, t.c.0.z, bxc.0.x,
        bxc.0.y, bxc.0.z,
    ]
}

// A slot whole: its mark, and its numbers behind it.
fn write_slot(store: &mut [f64], at: usize, numbers: &[f64])
    requires { at + 1 + length numbers.now ≤ length store.old }
    ensures { store.new ≡ put store.old at (1·0 ∷ numbers.now) }
{
    store[at] = 1.0;
    store[at + 1..at + 1 + numbers.len()].copy_from_slice(numbers);
}

// An empty slot gets the triangle defined for it, and a filled one stays. Whether it is filled is asked here and not by the writer: the
// triangle is worked out for an empty slot alone. One writer of both stores, over a closure that gives the numbers, was tried: the check does
// not cover a bound `FnOnce` that names how many they are.
pub fn write_face_slot(store: &mut [f64], slot: usize)
    requires { (slot < FACE_SLOTS) × (length store.old ≡ FACE_STORE) }
    ensures { store.new ≡ face_written ieee store.old slot }
{
    let at = slot * FACE_WIDTH;
    if !is_filled(store, at) {
        write_slot(store, at, &face_run(face_triangle(slot)));
    }
}

// An empty slot gets the triangle t with b × c, and a filled one stays. The triangle is the Rust's type, which has no b × c.
pub fn write_sphere_slot(store: &mut [f64], slot: usize, t: SphericalTriangle, bxc: Cartesian)
    requires { (slot < SPHERE_SLOTS) × (length store.old ≡ SPHERE_STORE) }
    ensures { store.new ≡ slot_written the_sphere_width store.old slot (sphere_run t bxc) }
{
    let at = slot * SPHERE_WIDTH;
    if !is_filled(store, at) {
        write_slot(store, at, &sphere_run(t, bxc));
    }
}
