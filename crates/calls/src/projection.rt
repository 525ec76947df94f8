// Forward and inverse on a set and an origin that pass 1 to 4, without the checks of their numbers. Nothing is written here.
ghost use Rattle.std.specs.Prelude.{◌≡◌, false, ◌+◌, ◌*◌, ◌≤◌, length};
ghost use Rattle.answer.specs.Answer.{given};
ghost use Rattle.arithmetic.specs.Arith.{ieee};
ghost use Rattle.elementary.specs.Sine.{outside};
ghost use Rattle.set.specs.Sizes.{FRAME};
ghost use Rattle.set.specs.Lent.{seen};
ghost use Rattle.dodecahedron.specs.Projection.{row_at, frame_constants, polar_about, forward_core, inverse_core};

use answer::Refusal;
use coordinates::base::Radians;
use coordinates::coords::{Cartesian, Face, SphericalTriangle};
use coordinates::polar::Polar;
use coordinates::spherical::Spherical;
use dodecahedron::work::Work;
use equal_area::equal_area::TriangleConstants;
use origin::utils::Origin;
use set::on_origin::OnOrigin;
use stores::point_triangles::take;
use stores::triangles::read_vector;
use transforms::coordinate_transforms::{to_cartesian, to_spherical};
use transforms::plane::to_polar;

// Row k of a frame.
fn row(frame: &[f64], k: usize) -> Cartesian
    requires { k * 3 + 3 ≤ length frame.now }
    ensures { result ≡ row_at frame.now k }
{
    read_vector(&frame[k * 3..k * 3 + 3])
}

// The constants of the canonical triangle: centre, midpoint and vertex of origin 0.
fn frame_constants(frame: &[f64]) -> TriangleConstants
    requires { length frame.now ≡ FRAME }
    ensures { result ≡ frame_constants ieee frame.now }
{
    let a = row(frame, 0);
    let b = row(frame, 32);
    let c = row(frame, 12);
    equal_area::forward::compute_constants(SphericalTriangle { a, b, c })
}

// A position in polar coordinates about an origin's axis, with the origin's own turn taken off.
fn polar_about(origin: Origin, v: Cartesian) -> Polar
    ensures { result ≡ polar_about ieee origin v }
{
    // back to the origin's own space
    let quat = origin.quat;
    let out = origin::quaternion::transform_quat(v, origin::quaternion::quat_conjugate(quat));
    // unprojected gnomonically to polar coordinates there
    let polar = transforms::gnomonic::forward(to_spherical(out));
    // turned about the face's axis, so that the origin's own angle is off
    Polar {
        rho: polar.rho,
        gamma: Radians(polar.gamma.0 - origin.angle.0),
    }
}

// Forward on an origin: the triangles of the point, and the point from one to the other by equal areas. Why a point whose angles are not
// outside is of no type, nearest says.
pub fn forward_core(on: OnOrigin<'_>, spherical: Spherical) -> Result<Work<Face>, Refusal>
    requires { (outside spherical.theta.0 ≡ false) × (outside spherical.phi.0 ≡ false) }
    ensures { given result ≡ forward_core ieee on.entry.origin.origin (seen on.entry.set) spherical on.entry.id }
{
    let unprojected = to_cartesian(spherical);
    let polar = polar_about(on.origin.origin, unprojected);
    let taken = take(on.set, on.origin, on.id, polar)?;
    let used = taken.used;
    let answer = equal_area::forward::forward(
        frame_constants(on.set.frame),
        unprojected,
        used.triangle,
        used.bxc,
        taken.face_triangle,
    );
    Ok(Work { answer, used })
}

// Inverse on an origin: the triangles of the point, and the point back from one to
// the other; 19 where the angle of its area share is outside.
pub fn inverse_core(on: OnOrigin<'_>, face: Face) -> Result<Work<Spherical>, Refusal>
    ensures { given result ≡ inverse_core ieee on.entry.origin.origin (seen on.entry.set) face on.entry.id }
{
    let taken = take(on.set, on.origin, on.id, to_polar(face))?;
    let used = taken.used;
    let unprojected = equal_area::equal_area::inverse(
        frame_constants(on.set.frame),
        face,
        taken.face_triangle,
        used.triangle,
    )?;
    let answer = to_spherical(unprojected);
    Ok(Work { answer, used })
}
