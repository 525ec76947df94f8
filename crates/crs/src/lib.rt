// The frame of the dodecahedron's centres, vertices and edge midpoints, and the lookup of a vertex.
#![tactic(auto)]

pub mod candidates;
pub mod frame;
