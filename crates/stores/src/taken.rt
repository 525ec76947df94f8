// What the functions that take triangles for a point come to.
use crate::used::Used;
use coordinates::coords::FaceTriangle;

// What is used, with the sphere triangle, and the face triangle. No `Work`, which is what a call answers with: that stands above this crate.
#[derive(Clone, Copy)]
pub struct Taken {
    pub used: Used,
    pub face_triangle: FaceTriangle,
}
