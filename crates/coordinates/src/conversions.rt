// The checks of positions and face points, and of the answers of calls that give one: what is out of its range
// is refused with document 01's number.
ghost use Rattle.std.specs.Prelude.{◌≡◌, not, ◌&&◌};
ghost use Rattle.answer.specs.Given.{answered, refuse_if};
ghost use Rattle.answer.specs.Answer.{given};
ghost use Rattle.answer.specs.Number.{is_finite};
ghost use Rattle.coordinates.specs.Conversions.{check_lon_lat, check_spherical, check_face};
ghost use Rattle.coordinates.specs.Conversions.{finite_spherical, finite_lon_lat, finite_face};

use crate::coords::Face;
use crate::lonlat::LonLat;
use crate::spherical::Spherical;
use answer::{Refusal, check_number};

// Longitude, then latitude: each for 5 and then 6.
#[tactic(auto, unfolding(crate::specs::Conversions::check_lon_lat))]
pub fn check_lon_lat(lonlat: LonLat) -> Result<(), Refusal>
    ensures { given result ≡ check_lon_lat lonlat }
{
    check_number(lonlat.longitude.0, 360.0)?;
    check_number(lonlat.latitude.0, 90.0)
}

// Theta, then phi: each for 5 and then 6. Two lines as check_lon_lat's, which name the numbers and their limits: all that there is.
#[tactic(auto, unfolding(crate::specs::Conversions::check_spherical))]
pub fn check_spherical(spherical: Spherical) -> Result<(), Refusal>
    ensures { given result ≡ check_spherical spherical }
{
    check_number(spherical.theta.0, 8.0)?;
    check_number(spherical.phi.0, 8.0)
}

// x, then y: each for 5 and then 6.
pub fn check_face(face: Face) -> Result<(), Refusal>
    ensures { given result ≡ check_face face }
{
    check_number(face.0.x, 4.0)?;
    check_number(face.0.y, 4.0)
}

// An answer that two numbers make up: 9, unless both are finite.
fn finite<T: Drop>(answer: T, first: f64, second: f64) -> Result<T, Refusal>
    ensures { given result ≡ refuse_if (not (is_finite first && is_finite second)) 9 (answered answer) }
{
    if answer::is_finite(first) && answer::is_finite(second) {
        return Ok(answer);
    }
    Err(Refusal::AnswerNotFinite)
}

// 9, unless theta and phi are finite.
#[tactic(auto, unfolding(crate::specs::Conversions::finite_spherical))]
pub fn finite_spherical(spherical: Spherical) -> Result<Spherical, Refusal>
    ensures { given result ≡ finite_spherical spherical }
{
    finite(spherical, spherical.theta.0, spherical.phi.0)
}

// 9, unless longitude and latitude are finite.
#[tactic(auto, unfolding(crate::specs::Conversions::finite_lon_lat))]
pub fn finite_lon_lat(lonlat: LonLat) -> Result<LonLat, Refusal>
    ensures { given result ≡ finite_lon_lat lonlat }
{
    finite(lonlat, lonlat.longitude.0, lonlat.latitude.0)
}

// 9, unless x and y are finite.
pub fn finite_face(face: Face) -> Result<Face, Refusal>
    ensures { given result ≡ finite_face face }
{
    finite(face, face.0.x, face.0.y)
}
