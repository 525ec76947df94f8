// What a call uses of a set.
use coordinates::coords::{Cartesian, SphericalTriangle};

// The slots that a call uses are told by origin, index and reflection; the sphere triangle is the
// one that it took, and bxc is B × C that belongs to it: from the same slot, or formed where that is
// empty. The two stand beside each other: the triangle is the Rust's type, which has no B × C.
#[derive(Clone, Copy)]
pub struct Used {
    pub origin: u8,
    pub index: u8,
    pub reflected: bool,
    pub triangle: SphericalTriangle,
    pub bxc: Cartesian,
}
