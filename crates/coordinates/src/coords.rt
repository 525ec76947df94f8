use crate::vec2::Vec2;
use crate::vec3::Vec3;

// 2D coordinate systems

// A point in the plane of a face, whose centre is (0, 0). Laid out as in C, where it is two doubles.
#[repr(C)]
#[derive(Clone, Copy)]
pub struct Face(pub Vec2);

// 3D coordinate systems

#[derive(Clone, Copy)]
pub struct Cartesian(pub Vec3);

// Barycentric coordinates and triangle types

// The weights of a triangle's corners. The Rust's name, and no Vec3: nothing that is done to a vector is done to weights.
#[derive(Clone, Copy)]
pub struct Barycentric {
    pub u: f64,
    pub v: f64,
    pub w: f64,
}

// The Rust's names for both triangles, and no generic one: no function is the same for corners on a face and corners on the sphere.
#[derive(Clone, Copy)]
pub struct FaceTriangle {
    pub a: Face,
    pub b: Face,
    pub c: Face,
}

#[derive(Clone, Copy)]
pub struct SphericalTriangle {
    pub a: Cartesian,
    pub b: Cartesian,
    pub c: Cartesian,
}
