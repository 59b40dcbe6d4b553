//! The names of the columns of the blocks around a place.
ghost use Rattle.std.specs.Prelude.{◌≡◌, List, get_or};
ghost use Rattle.sql_to_u.specs.Scopes.{firsts_at, key_of};
ghost use Rattle.sql_to_u.specs.TermLists.{scope_of};
ghost use Rattle.sql_to_u.specs.Translation.{TermAt};

use crate::naming::first_of;
use scope_core::RBlock;

/// The blocks around a place, the innermost first.
#[derive(Clone, Copy)]
pub enum Scope<'s> {
    Outside,
    /// Of the rows of a block: the name of each entry's first column.
    Rows {
        firsts: &'s [u32],
        outer: &'s Scope<'s>,
    },
    /// In the items and HAVING of a block with groups.
    Group {
        group: Group<'s>,
        outer: &'s Scope<'s>,
    },
}

/// A group of a block: its columns, of which a block that is one group has none, and the name of the first of them. Its members are told by
/// the block.
#[derive(Clone, Copy)]
pub struct Group<'s> {
    pub block: &'s RBlock,
    pub columns: &'s [(u32, u32)],
    pub key: u32,
}

/// The name of the first column of an entry of the block that far out.
pub fn first_at(scope: &Scope, up: u32, entry: u32) -> u32
    ensures { (views : List TermAt) → result ≡ get_or (firsts_at (scope_of views scope.now) up) entry 0 }
{
    match scope {
        Scope::Outside => 0,
        Scope::Rows { firsts, outer } => {
            if up == 0 {
                first_of(*firsts, entry)
            } else {
                first_at(*outer, up - 1, entry)
            }
        }
        Scope::Group { outer, .. } => {
            if up == 0 {
                0
            } else {
                first_at(*outer, up - 1, entry)
            }
        }
    }
}

/// The name of the first column of the innermost block's group.
pub fn key_of(scope: &Scope) -> u32
    ensures { (views : List TermAt) → result ≡ key_of (scope_of views scope.now) }
{
    match scope {
        Scope::Outside => 0,
        Scope::Rows { .. } => 0,
        Scope::Group { group, .. } => group.key,
    }
}
