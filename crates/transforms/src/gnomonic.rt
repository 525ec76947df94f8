// The gnomonic projection: the sphere seen from its centre on the plane of a face.
ghost use Rattle.std.specs.Prelude.{◌≡◌, false};
ghost use Rattle.arithmetic.specs.Arith.{ieee};
ghost use Rattle.elementary.specs.Sine.{outside};
ghost use Rattle.coordinates.specs.Gnomonic.{gnomonic_forward, gnomonic_inverse};

use coordinates::base::Radians;
use coordinates::polar::Polar;
use coordinates::spherical::Spherical;

// A direction to the plane's polar coordinates.
pub fn forward(spherical: Spherical) -> Polar
    requires { outside spherical.phi.0 ≡ false }
    ensures { result ≡ gnomonic_forward ieee spherical }
{
    let theta = spherical.theta;
    Polar {
        rho: sine::inside::tan_inside(spherical.phi.0),
        gamma: theta,
    }
}

// Polar coordinates of the plane to a direction.
#[tactic(auto, unfolding(coordinates::specs::Gnomonic::gnomonic_inverse))]
pub fn inverse(polar: Polar) -> Spherical
    ensures { result ≡ gnomonic_inverse ieee polar }
{
    let gamma = polar.gamma;
    Spherical {
        theta: gamma,
        phi: Radians(arctangent::atan(polar.rho)),
    }
}
