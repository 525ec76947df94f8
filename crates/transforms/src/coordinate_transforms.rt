// A point of space by its two angles and back, with the Rust's order of operations.
ghost use Rattle.std.specs.Prelude.{◌≡◌, false};
ghost use Rattle.arithmetic.specs.Arith.{ieee};
ghost use Rattle.elementary.specs.Sine.{outside};
ghost use Rattle.coordinates.specs.CoordinateTransforms.{to_spherical, to_cartesian};

use arctangent::atan2_both;
use coordinates::base::Radians;
use coordinates::coords::Cartesian;
use coordinates::spherical::Spherical;
use coordinates::vec3::Vec3;
use sine::inside::sin_cos_inside;
use square_root::root::sqrt;

// A point of space by its two angles, theta from the x axis and phi from the z axis. The two arc
// tangents are found together.
pub fn to_spherical(cart: Cartesian) -> Spherical
    ensures { result ≡ to_spherical ieee cart }
{
    let x = cart.0.x;
    let y = cart.0.y;
    let z = cart.0.z;

    let rxy = sqrt(x * x + y * y);
    let (theta, phi) = atan2_both(y, x, rxy, z);

    Spherical {
        theta: Radians(theta),
        phi: Radians(phi),
    }
}

// The point of the unit sphere at two angles.
#[tactic(auto, unfolding(coordinates::specs::CoordinateTransforms::to_cartesian))]
pub fn to_cartesian(spherical: Spherical) -> Cartesian
    requires { (outside spherical.theta.0 ≡ false) × (outside spherical.phi.0 ≡ false) }
    ensures { result ≡ to_cartesian ieee spherical }
{
    let theta = sin_cos_inside(spherical.theta.0);
    let phi = sin_cos_inside(spherical.phi.0);

    let x = phi.sin * theta.cos;
    let y = phi.sin * theta.sin;
    let z = phi.cos;

    Cartesian(Vec3 { x, y, z })
}
