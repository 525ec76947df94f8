// What an origin is made of.
use coordinates::base::Radians;
use coordinates::spherical::Spherical;

// A rotation: a unit quaternion, w its real part.
#[derive(Clone, Copy)]
pub struct Quat {
    pub x: f64,
    pub y: f64,
    pub z: f64,
    pub w: f64,
}

// One face of the dodecahedron: its axis, the rotation that takes the north pole there, and its turn
// about the axis.
#[derive(Clone, Copy)]
pub struct Origin {
    pub axis: Spherical,
    pub quat: Quat,
    pub angle: Radians,
}
