// Two numbers by name. Laid out as in C, since the points of a region are lent by C programs too.
#[repr(C)]
#[derive(Clone, Copy)]
pub struct Vec2 {
    pub x: f64,
    pub y: f64,
}
