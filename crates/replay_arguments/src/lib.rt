// A record's arguments as the values of crate coordinates, from a place on, in the order of their fields, and such values as
// answers.
#![tactic(auto)]

ghost use Rattle.std.specs.Prelude.{◌≡◌, false, IfOk};
ghost use Rattle.elementary.specs.Sine.{outside};

use answer::Refusal;
use answer::big_endian::value;
use coordinates::base::{Degrees, Radians};
use coordinates::coords::{Barycentric, Cartesian, Face, FaceTriangle};
use coordinates::lonlat::LonLat;
use coordinates::polar::Polar;
use coordinates::spherical::Spherical;
use coordinates::vec2::Vec2;
use coordinates::vec3::Vec3;
use replay::record::Record;
use sine::is_outside;

pub mod answers;

// So many arguments, from a place on. Beyond its twelve words a record has zeros.
fn arguments<const N: usize>(record: &Record, place: usize) -> [f64; N] {
    let mut arguments = [0.0; N];
    for (argument, word) in arguments.iter_mut().zip(record.words.iter().skip(place)) {
        *argument = value(u64::from_be_bytes(*word));
    }
    arguments
}

// Refuses an angle that is outside, with 19. The callers of the functions that are replayed rule that out.
pub fn inside(angle: Radians) -> Result<(), Refusal>
    ensures { IfOk result (λ _. outside angle.0 ≡ false) }
{
    if is_outside(angle.0) {
        return Err(Refusal::AngleOutside);
    }
    Ok(())
}

// The first argument, in degrees.
pub fn degrees(record: &Record) -> Degrees {
    Degrees(record.argument(0))
}

// The first argument, in radians.
pub fn radians(record: &Record) -> Radians {
    Radians(record.argument(0))
}

// Longitude and latitude, the first two.
pub fn lon_lat(record: &Record) -> LonLat {
    let [longitude, latitude] = arguments::<2>(record, 0);
    LonLat {
        longitude: Degrees(longitude),
        latitude: Degrees(latitude),
    }
}

// Rho and gamma, the first two.
pub fn polar(record: &Record) -> Polar {
    let [rho, gamma] = arguments::<2>(record, 0);
    Polar {
        rho,
        gamma: Radians(gamma),
    }
}

// Theta and phi, from a place on.
pub fn spherical(record: &Record, place: u8) -> Spherical {
    let [theta, phi] = arguments::<2>(record, usize::from(place));
    Spherical {
        theta: Radians(theta),
        phi: Radians(phi),
    }
}

// u, v and w, the first three.
pub fn barycentric(record: &Record) -> Barycentric {
    let [u, v, w] = arguments::<3>(record, 0);
    Barycentric { u, v, w }
}

// A face point: x and y, from a place on.
pub fn face(record: &Record, place: u8) -> Face {
    let [x, y] = arguments::<2>(record, usize::from(place));
    Face(Vec2 { x, y })
}

// A face triangle: x and y of a, b and c, from a place on.
pub fn triangle(record: &Record, place: u8) -> FaceTriangle {
    let [ax, ay, bx, by, cx, cy] = arguments::<6>(record, usize::from(place));
    FaceTriangle {
        a: Face(Vec2 { x: ax, y: ay }),
        b: Face(Vec2 { x: bx, y: by }),
        c: Face(Vec2 { x: cx, y: cy }),
    }
}

// x, y and z, from a place on.
pub fn cartesian(record: &Record, place: u8) -> Cartesian {
    let [x, y, z] = arguments::<3>(record, usize::from(place));
    Cartesian(Vec3 { x, y, z })
}
