// The block of registers. Crate panel_step reads and writes it.

// How many bytes a block has.
pub const BLOCK: usize = 32;
