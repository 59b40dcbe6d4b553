//! Lists and boxes, of one owner or of several, and values dropped by one call, that contracts see as what they hold.
//!
//! In a clause a `Vec`, a `Box` and an `Rc` show their pointer, so a copy of a tree over them is not equal to its
//! source. A tree over these types has no pointer in its value: equal trees are equal in clauses, and
//! definitions recurse on them.
#![tactic(auto)]

mod boxed;
mod kept;
mod list;
mod shared;
mod shared_list;
#[cfg(test)]
mod tests;

pub use boxed::Boxed;
pub use kept::Kept;
pub use list::List;
pub use shared::Shared;
pub use shared_list::SharedList;
