use crate::base::Radians;

// theta is the azimuth, phi the angle from the north pole.
#[derive(Clone, Copy)]
pub struct Spherical {
    pub theta: Radians,
    pub phi: Radians,
}
