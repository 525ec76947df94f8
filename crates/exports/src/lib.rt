// The calls as C functions, for programs in other languages. Each returns 0 where the call answered,
// and otherwise the number of its refusal (crate answer). What is lent for an answer is written where
// the call answered, and left as it was where it refused (crate border).
//
// A slice is two arguments in C, a pointer and then how many numbers there are. An answer of two
// numbers is lent as a reference to an array of two, in C a pointer: it has no length to be wrong.
// The caller sees to it that a pointer is not null, that so many numbers stand there, and that no
// two that are lent overlap. A set is its three buffers one by one, as C has them.
#![tactic(auto, using(border::proofs::Tables::tables))]

pub mod files;
pub mod slots;
pub mod tables;

ghost use Rattle.std.specs.Prelude.{◌≡◌};
ghost use Rattle.arithmetic.specs.Arith.{ieee};
ghost use Rattle.coordinates.specs.Conversions.{from_lon_lat_given, to_lon_lat_given};
ghost use Rattle.origin.specs.Origins.{ORIGINS};
ghost use Rattle.nearest.specs.Calls.{nearest_given};
ghost use Rattle.set.specs.Outcome.{lent_mut, Becomes};
ghost use Rattle.set.specs.Open.{open_on};
ghost use Rattle.answer.specs.Given.{status};
ghost use Rattle.border.specs.Returns.{Returns, contents};
ghost use Rattle.border.specs.Calls.{id as Calls·id, angles, degrees, lon_lat, spherical};

use border::answers::put;
use border::arguments;
use nearest::origins::BuiltIn;
use transforms::conversions::{from_lon_lat, to_lon_lat};

// Open: writes the frame and fills both stores with 0.0.
#[unsafe(no_mangle)]
pub extern "C" fn a5_open(frame: &mut [f64], face_store: &mut [f64], sphere_store: &mut [f64]) -> u8
    ensures answer { result ≡ status (open_on ieee ORIGINS (lent_mut frame face_store sphere_store).entry).answer }
    ensures left { Becomes (lent_mut frame face_store sphere_store) (λ s. (open_on ieee ORIGINS s).set) }
{
    let opened = set::open::open(BuiltIn, frame, face_store, sphere_store);
    answer::status(opened)
}

// Nearest: the number of the origin nearest to a position, in radians, goes to id.
#[unsafe(no_mangle)]
pub extern "C" fn a5_nearest(theta: f64, phi: f64, id: &mut u8) -> u8
    ensures { Returns (nearest_given ieee ORIGINS (spherical theta phi)) result (contents id) Calls·id }
{
    let nearest = nearest::call::nearest(BuiltIn, arguments::spherical(theta, phi));
    put(nearest, id)
}

// From longitude and latitude, in degrees, to theta and phi, in radians.
#[unsafe(no_mangle)]
pub extern "C" fn a5_from_lon_lat(longitude: f64, latitude: f64, to: &mut [f64; 2]) -> u8
    ensures { Returns (from_lon_lat_given ieee (lon_lat longitude latitude)) result (contents to) angles }
{
    let position = from_lon_lat(arguments::lon_lat(longitude, latitude));
    put(position, to)
}

// From theta and phi, in radians, to longitude and latitude, in degrees.
#[unsafe(no_mangle)]
pub extern "C" fn a5_to_lon_lat(theta: f64, phi: f64, to: &mut [f64; 2]) -> u8
    ensures { Returns (to_lon_lat_given ieee (spherical theta phi)) result (contents to) degrees }
{
    let lonlat = to_lon_lat(arguments::spherical(theta, phi));
    put(lonlat, to)
}
