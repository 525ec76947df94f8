// A set: three lent buffers, a frame, a face store and a sphere store; open, its definition and the call, and
// the checks of the calls on it.
#![tactic(auto)]

pub mod checks;
mod new_set;
pub mod on_origin;
pub mod open;
pub mod set;
pub mod sizes;
