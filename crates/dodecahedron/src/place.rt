// What place answers.
use coordinates::coords::Face;

// A face point and the id of the origin whose face it lies on.
#[derive(Clone, Copy)]
pub struct Place {
    pub origin: u8,
    pub face: Face,
}
