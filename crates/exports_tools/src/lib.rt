// The caption box, a window of strikes, the as-run sheet, fair turns and the square root as C functions. All crates of
// C functions go into one library, and what crate exports says of pointers and lengths holds here too.
#![tactic(auto)]

pub mod boxes;
pub mod channels;
pub mod roots;
pub mod sheets;
pub mod windows;
