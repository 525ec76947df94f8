// Three numbers as Barycentric has, and no twin of it: the fields say what the numbers are.
#[derive(Clone, Copy)]
pub struct Vec3 {
    pub x: f64,
    pub y: f64,
    pub z: f64,
}
