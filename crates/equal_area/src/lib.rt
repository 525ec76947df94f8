// The equal-area map between a spherical triangle and a face triangle, both ways (equal_area.rs of the Rust), and a spherical triangle's
// area.
#![tactic(auto)]

pub mod equal_area;
pub mod forward;
mod spherical_polygon;
