// The 132 points that are tried as rows of the frame.
ghost use Rattle.std.specs.Prelude.{◌≡◌, false, ◌<◌};
ghost use Rattle.arithmetic.specs.Arith.{ieee};
ghost use Rattle.elementary.specs.Sine.{beyond, outside};
ghost use Rattle.coordinates.specs.Constants.{8·0};
ghost use Rattle.crs.specs.Candidates.{around, face_center, vertex, midpoint, candidate};

use coordinates::base::Radians;
use coordinates::coords::Cartesian;
use coordinates::spherical::Spherical;
use origin::quaternion::transform_quat;
use origin::table::{SoundTable, origin_in};
use origin::utils::Origin;
use std::f64::consts::PI;
use transforms::coordinate_transforms::to_cartesian;

// The angles from a face's centre to its vertices and midpoints: the arc tangents of 0.7639320225002102
// and 0.6180339887498949, DISTANCE_TO_VERTEX and DISTANCE_TO_EDGE.
const PHI_VERTEX: f64 = 0.6523581397843683;

const PHI_MIDPOINT: f64 = 0.5535743588970453;

// m tenths of a turn from the origin's angle, and phi from its axis. Why an angle that is not outside is of no type, `sine::inside` says.
fn around(origin: Origin, m: u8, phi: f64) -> Cartesian
    requires { (m < 10) × (beyond 8·0 origin.angle.0 ≡ false) × (outside phi ≡ false) }
    ensures { result ≡ around ieee origin m phi }
{
    let theta = f64::from(m) * PI / 5.0;
    let spherical = Spherical {
        theta: Radians(theta + origin.angle.0),
        phi: Radians(phi),
    };
    transform_quat(to_cartesian(spherical), origin.quat)
}

// The centre of face k of a table. Why a number below 12 is of no type, `origin::table` says.
fn face_center(table: SoundTable<'_>, k: u8) -> Cartesian
    requires { k < 12 }
    ensures { result ≡ face_center ieee table.entry.rows.now k }
{
    let origin = origin_in(table.rows, k);
    to_cartesian(origin.axis)
}

// Vertex k % 5 of face k / 5 of a table. It and `midpoint` are two definitions, a line each: one function would take what tells them
// apart, 1 or 0 and an angle, as two more parameters.
fn vertex(table: SoundTable<'_>, k: u8) -> Cartesian
    requires { k < 60 }
    ensures { result ≡ vertex ieee table.entry.rows.now k }
{
    around(origin_in(table.rows, k / 5), 2 * (k % 5) + 1, PHI_VERTEX)
}

// The midpoint of edge k % 5 of face k / 5 of a table.
fn midpoint(table: SoundTable<'_>, k: u8) -> Cartesian
    requires { k < 60 }
    ensures { result ≡ midpoint ieee table.entry.rows.now k }
{
    around(origin_in(table.rows, k / 5), 2 * (k % 5), PHI_MIDPOINT)
}

// The candidate with the number k, over a table. In the Rust's order: 12 centres, five vertices of each face, five midpoints of each.
pub fn candidate(table: SoundTable<'_>, k: u8) -> Cartesian
    requires { k < 132 }
    ensures { result ≡ candidate ieee table.entry.rows.now k }
{
    if k < 12 {
        return face_center(table, k);
    }
    if k < 72 {
        return vertex(table, k - 12);
    }
    midpoint(table, k - 72)
}
