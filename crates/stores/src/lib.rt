// The slots of a set's stores: the definitions of what is read and written there and what holds of them,
// which slot is whose, whether one is filled, the slots that a call used, written, and show. And the triangles that a call takes from
// them: of a slot, and of a point.
#![tactic(auto)]

pub mod point_triangles;
pub mod show;
mod slot_writes;
pub mod slots;
mod sphere_triangles;
pub mod taken;
pub mod triangles;
pub mod used;
pub mod used_slots;
