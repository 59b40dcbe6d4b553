//! The tokens of a case, taken by their kinds, with what was numbered and counted on the way, and what single tokens stand for.
#![tactic(auto)]

mod fault;
pub mod laws;
mod names;
mod tokens;
mod values;

pub use fault::{LimitKind, ReadFault};
pub use names::{is_word, name_of};
pub use tokens::{Mark, Tokens, place};
pub use values::{name_in, number_in, text_in};
