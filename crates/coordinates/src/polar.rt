use crate::base::Radians;

// Named fields, though they are two numbers as others are: a distance and an angle.
#[derive(Clone, Copy)]
pub struct Polar {
    pub rho: f64,
    pub gamma: Radians,
}
