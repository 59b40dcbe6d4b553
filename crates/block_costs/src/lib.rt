//! What a derivation costs at most between two blocks, and between two unions of blocks, by their shapes: steps, nodes, depth and bytes.
#![tactic(auto)]

pub mod laws;
