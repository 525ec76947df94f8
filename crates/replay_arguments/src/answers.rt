// Values of crate coordinates as answers.
use answer::bits;
use coordinates::coords::{Cartesian, Face};
use coordinates::lonlat::LonLat;
use coordinates::polar::Polar;
use coordinates::spherical::Spherical;
use replay::outcome::{Outcome, answered, three, two};

// x and y.
pub fn face(point: Face) -> Outcome {
    two(point.0.x, point.0.y)
}

// An origin, and x and y of a point on its face.
pub fn placed(origin: u8, point: Face) -> Outcome {
    answered([
        Some(u64::from(origin)),
        Some(bits(point.0.x)),
        Some(bits(point.0.y)),
    ])
}

// Rho and gamma.
pub fn polar(point: Polar) -> Outcome {
    two(point.rho, point.gamma.0)
}

// Theta and phi.
pub fn spherical(point: Spherical) -> Outcome {
    two(point.theta.0, point.phi.0)
}

// Longitude and latitude.
pub fn lon_lat(position: LonLat) -> Outcome {
    two(position.longitude.0, position.latitude.0)
}

// x, y and z.
pub fn cartesian(point: Cartesian) -> Outcome {
    three(point.0.x, point.0.y, point.0.z)
}
