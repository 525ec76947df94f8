// The two conversions as calls: what is out of its range is refused with document 01's number.
ghost use Rattle.std.specs.Prelude.{◌≡◌};
ghost use Rattle.answer.specs.Answer.{given};
ghost use Rattle.arithmetic.specs.Arith.{ieee};
ghost use Rattle.coordinates.specs.Conversions.{from_lon_lat_given, to_lon_lat_given};

use answer::Refusal;
use coordinates::conversions::{check_lon_lat, check_spherical, finite_lon_lat, finite_spherical};
use coordinates::lonlat::LonLat;
use coordinates::spherical::Spherical;

// Longitude and latitude to spherical angles: refuses with 5 and 6, and with 9 where an angle is not finite.
#[tactic(auto, unfolding(coordinates::specs::Conversions::from_lon_lat_given))]
pub fn from_lon_lat(lonlat: LonLat) -> Result<Spherical, Refusal>
    ensures { given result ≡ from_lon_lat_given ieee lonlat }
{
    check_lon_lat(lonlat)?;
    finite_spherical(crate::geographic::from_lon_lat(lonlat))
}

// Spherical angles to longitude and latitude: refuses with 5 and 6, and with 9 where a number is not finite.
#[tactic(auto, unfolding(coordinates::specs::Conversions::to_lon_lat_given))]
pub fn to_lon_lat(spherical: Spherical) -> Result<LonLat, Refusal>
    ensures { given result ≡ to_lon_lat_given ieee spherical }
{
    check_spherical(spherical)?;
    finite_lon_lat(crate::geographic::to_lon_lat(spherical))
}
