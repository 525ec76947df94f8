// Coordinate systems, with the Rust's module names, the checks of positions and face points, and the definitions of the
// changes between them, which are functions of crate transforms.
#![tactic(auto)]

pub mod base;
pub mod conversions;
pub mod coords;
pub mod lonlat;
pub mod polar;
pub mod spherical;
pub mod vec2;
pub mod vec3;
