// Degrees and radians, and longitude and latitude to spherical angles and back, with the Rust's order of operations.
ghost use Rattle.std.specs.Prelude.{◌≡◌, false};
ghost use Rattle.std.specs.Float.{binary64};
ghost use Rattle.std.specs.Float.Ieee.{sub};
ghost use Rattle.arithmetic.specs.Arith.{ieee};
ghost use Rattle.elementary.specs.Constants.{FRAC_PI_2 as the_frac_pi_2};
ghost use Rattle.elementary.specs.Sine.{outside};
ghost use Rattle.coordinates.specs.CoordinateTransforms.{deg_to_rad, rad_to_deg, from_lon_lat, normalize_longitude, to_lon_lat};

use coordinates::base::{Degrees, Radians};
use coordinates::lonlat::LonLat;
use coordinates::spherical::Spherical;
use elementary::remainder::remainder;
use std::f64::consts::{FRAC_PI_2, PI};

// Degrees as radians.
pub fn deg_to_rad(deg: Degrees) -> Radians
    ensures { result ≡ deg_to_rad ieee deg }
{
    Radians(deg.0 * (PI / 180.0))
}

// Radians as degrees.
#[tactic(auto, unfolding(coordinates::specs::CoordinateTransforms::rad_to_deg))]
pub fn rad_to_deg(rad: Radians) -> Degrees
    ensures { result ≡ rad_to_deg ieee rad }
{
    Degrees(rad.0 * (180.0 / PI))
}

// Degrees between the Rust's zero of theta and longitude 0.
const LONGITUDE_OFFSET: f64 = 93.0;

// The conversion without its checks.
#[tactic(auto, unfolding(coordinates::specs::CoordinateTransforms::from_lon_lat))]
pub fn from_lon_lat(lonlat: LonLat) -> Spherical
    requires { outside (deg_to_rad ieee lonlat.latitude).0 ≡ false }
    ensures { result ≡ from_lon_lat ieee lonlat }
{
    let theta = deg_to_rad(Degrees(lonlat.longitude.0 + LONGITUDE_OFFSET));

    let latitude = lonlat.latitude;
    let geodetic_lat = deg_to_rad(latitude);
    let authalic_lat = crate::authalic::forward(geodetic_lat);
    let phi = Radians(FRAC_PI_2 - authalic_lat.0);

    Spherical { theta, phi }
}

// A longitude in [-180, 180).
pub fn normalize_longitude(lon: Degrees) -> Degrees
    ensures { result ≡ normalize_longitude ieee lon }
{
    let turned = remainder(lon.0 + 180.0, 360.0);
    Degrees(remainder(turned + 360.0, 360.0) - 180.0)
}

// The conversion without its checks.
#[tactic(auto, unfolding(elementary::specs::Constants::FRAC_PI_2, coordinates::specs::CoordinateTransforms::to_lon_lat))]
pub fn to_lon_lat(spherical: Spherical) -> LonLat
    requires { outside (sub binary64 the_frac_pi_2 spherical.phi.0) ≡ false }
    ensures { result ≡ to_lon_lat ieee spherical }
{
    let theta = spherical.theta;
    let degrees = rad_to_deg(theta);
    let longitude = normalize_longitude(Degrees(degrees.0 - LONGITUDE_OFFSET));

    let authalic_lat = Radians(FRAC_PI_2 - spherical.phi.0);
    let geodetic_lat = crate::authalic::inverse(authalic_lat);
    let latitude = rad_to_deg(geodetic_lat);

    LonLat {
        longitude,
        latitude,
    }
}
