// The twelve origins of the built-in table.
ghost use Rattle.std.specs.Prelude.{◌≡◌};
ghost use Rattle.origin.specs.Origins.{ORIGINS as the_origins, origin_at};

use crate::table::origin_in;
use crate::utils::{Origin, Quat};
use coordinates::base::Radians;
use coordinates::spherical::Spherical;

// A row an origin, in final order: axis theta, axis phi, quaternion x, y, z, w, angle.
const ORIGINS: [f64; 84] = [
    0.0,
    0.0,
    0.0,
    0.0,
    0.0,
    1.0,
    0.0,
    0.0,
    1.1071487177940904,
    0.0,
    0.5257311121191336,
    0.0,
    0.8506508083520399,
    0.6283185307179586,
    0.6283185307179586,
    2.0344439357957027,
    -0.5,
    0.6881909602355868,
    0.0,
    0.5257311121191336,
    0.6283185307179586,
    1.8849555921538759,
    2.0344439357957027,
    -0.8090169943749475,
    -0.2628655560595668,
    0.0,
    0.5257311121191336,
    0.6283185307179586,
    1.2566370614359172,
    1.1071487177940904,
    -0.5,
    0.16245984811645314,
    0.0,
    0.8506508083520399,
    0.6283185307179586,
    2.5132741228718345,
    1.1071487177940904,
    -0.30901699437494745,
    -0.42532540417602,
    0.0,
    0.8506508083520399,
    0.6283185307179586,
    3.7699111843077517,
    1.1071487177940904,
    0.30901699437494745,
    -0.42532540417602,
    0.0,
    0.8506508083520399,
    0.6283185307179586,
    4.39822971502571,
    2.0344439357957027,
    0.8090169943749475,
    -0.2628655560595668,
    0.0,
    0.5257311121191336,
    0.6283185307179586,
    3.141592653589793,
    2.0344439357957027,
    0.0,
    -0.8506508083520399,
    0.0,
    0.5257311121191336,
    0.6283185307179586,
    0.0,
    3.141592653589793,
    0.0,
    -1.0,
    0.0,
    0.0,
    0.0,
    5.654866776461628,
    2.0344439357957027,
    0.5,
    0.6881909602355868,
    0.0,
    0.5257311121191336,
    0.6283185307179586,
    5.026548245743669,
    1.1071487177940904,
    0.5,
    0.16245984811645314,
    0.0,
    0.8506508083520399,
    0.6283185307179586,
];

// The built-in table.
pub fn built_in() -> [f64; 84]
    ensures { result ≡ the_origins }
{
    ORIGINS
}

// The origin with the number id; NaN in every place where there is none. No `Option`: it is total, as its definition is, and asks nothing of id.
pub fn get_origin(id: u8) -> Origin
    ensures { result ≡ origin_at the_origins id }
{
    if id > 11 {
        let nan = f64::NAN;
        return Origin {
            axis: Spherical {
                theta: Radians(nan),
                phi: Radians(nan),
            },
            quat: Quat {
                x: nan,
                y: nan,
                z: nan,
                w: nan,
            },
            angle: Radians(nan),
        };
    }
    let table = built_in();
    origin_in(&table, id)
}
