// A face's triangles, by quintant, and the one that a point belongs to.
#![tactic(auto)]

pub mod face_triangles;
pub mod tiling;
pub mod triangle_index;
