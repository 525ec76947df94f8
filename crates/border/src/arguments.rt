// The numbers that a C function is handed, as the position or the point that its call takes.
ghost use Rattle.std.specs.Prelude.{◌≡◌};
ghost use Rattle.border.specs.Calls.{lon_lat as Calls·lon_lat, spherical as Calls·spherical};

use coordinates::base::{Degrees, Radians};
use coordinates::lonlat::LonLat;
use coordinates::spherical::Spherical;

// Theta and phi, in radians.
pub fn spherical(theta: f64, phi: f64) -> Spherical
    ensures { result ≡ Calls·spherical theta phi }
{
    Spherical {
        theta: Radians(theta),
        phi: Radians(phi),
    }
}

// Longitude and latitude, in degrees.
pub fn lon_lat(longitude: f64, latitude: f64) -> LonLat
    ensures { result ≡ Calls·lon_lat longitude latitude }
{
    LonLat {
        longitude: Degrees(longitude),
        latitude: Degrees(latitude),
    }
}
