//! Shapes of blocks: their entries, the equalities of their points, their marks and their outputs; which shapes are alike, and
//! how many pairings of entries a search for that tries.
#![tactic(auto)]

pub mod laws;
mod shape;

pub use shape::{Entry, Kind, Mark, Point, Shape};
