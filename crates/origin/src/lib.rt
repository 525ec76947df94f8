// The twelve origins of the faces: the built-in table, and what a table that is handed over must be; and rotations by quaternions. The
// origin nearest to a point is crate `nearest`.
#![tactic(auto)]

pub mod origin;
pub mod quaternion;
pub mod table;
pub mod utils;
