// What the triangles of slots are taken with: a run of numbers as a triangle or a vector, the face
// triangle of a slot, and the vertex of a corner.
ghost use Rattle.std.specs.Prelude.{◌≡◌, ◌<◌, length};
ghost use Rattle.answer.specs.Answer.{given};
ghost use Rattle.arithmetic.specs.Arith.{ieee};
ghost use Rattle.set.specs.Sizes.{FACE_COORDINATES, FACE_SLOTS, FACE_STORE, SPHERE_COORDINATES};
ghost use Rattle.stores.specs.Slots.{face_in, sphere_in, vector_in};
ghost use Rattle.stores.specs.Triangles.{face_taken, corner_vertex};

use crate::slots::is_filled;
use answer::Refusal;
use coordinates::base::Radians;
use coordinates::coords::{Cartesian, Face, FaceTriangle, SphericalTriangle};
use coordinates::polar::Polar;
use coordinates::vec2::Vec2;
use coordinates::vec3::Vec3;
use origin::quaternion::transform_quat;
use set::on_origin::SoundOrigin;
use set::sizes::FACE_WIDTH;
use transforms::coordinate_transforms::to_cartesian;
use transforms::plane::to_polar;

// The triangle of a run of coordinates, as it stands. Runs are slices, as they are cut from a store: to be an array each would be tried for
// its length once more, which is known.
fn read_face(run: &[f64]) -> FaceTriangle
    requires { length run.now ≡ FACE_COORDINATES }
    ensures { result ≡ face_in run.now }
{
    FaceTriangle {
        a: Face(Vec2 {
            x: run[0],
            y: run[1],
        }),
        b: Face(Vec2 {
            x: run[2],
            y: run[3],
        }),
        c: Face(Vec2 {
            x: run[4],
            y: run[5],
        }),
    }
}

// The same of a sphere slot.
pub fn read_sphere(run: &[f64]) -> SphericalTriangle
    requires { length run.now ≡ SPHERE_COORDINATES }
    ensures { result ≡ sphere_in run.now }
{
    SphericalTriangle {
        a: read_vector(&run[..3]),
        b: read_vector(&run[3..6]),
        c: read_vector(&run[6..]),
    }
}

// A vector of three numbers, as it stands.
pub fn read_vector(run: &[f64]) -> Cartesian
    requires { length run.now ≡ 3 }
    ensures { result ≡ vector_in run.now }
{
    Cartesian(Vec3 {
        x: run[0],
        y: run[1],
        z: run[2],
    })
}

// The face triangle of a slot, as it stands or as it is defined. Why slot and store are of no type of their own, `crate::slots` says.
pub fn take_face(store: &[f64], slot: usize) -> FaceTriangle
    requires { (slot < FACE_SLOTS) × (length store.now ≡ FACE_STORE) }
    ensures { result ≡ face_taken ieee store.now slot }
{
    let at = slot * FACE_WIDTH;
    if is_filled(store, at) {
        read_face(&store[at + 1..at + FACE_WIDTH])
    } else {
        tiling::face_triangles::face_triangle(slot)
    }
}

// A corner of a face triangle, turned to the origin and looked up in the frame: unprojected to the
// sphere with the origin's own angle on top, and rotated out of the origin's space.
pub fn corner_vertex(frame: &[f64], origin: SoundOrigin, corner: Face) -> Result<Cartesian, Refusal>
    ensures { given result ≡ corner_vertex ieee frame.now origin.origin corner }
{
    let polar = to_polar(corner);
    let rotated_polar = Polar {
        rho: polar.rho,
        gamma: Radians(polar.gamma.0 + origin.origin.angle.0),
    };
    let rotated = to_cartesian(transforms::gnomonic::inverse(rotated_polar));
    crs::frame::get_vertex(frame, transform_quat(rotated, origin.origin.quat))
}
