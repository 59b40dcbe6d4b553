//! What the program does, over any store and any sink: a proof is checked, or it is sought and written.
#![tactic(auto)]

pub mod laws;
mod proving;
mod top;
mod words;

pub use top::start;
