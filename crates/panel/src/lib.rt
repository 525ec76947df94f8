// The caption panel: its block of registers. Crate panel_step reads and writes the registers, and has the step.
#![tactic(auto)]

pub mod registers;
