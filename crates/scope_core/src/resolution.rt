//! The tree of a query, and the first fault on the way.
//!
//! One walk seeks faults and builds the tree. A chain of operators is as deep as it is long, so the functions on the way down keep
//! small frames: what needs room of its own is kept out of them by `inline(never)`.
ghost use Rattle.std.specs.Prelude.{◌≡◌, OnOk, OnErr, IfErr, false, true};
ghost use Rattle.scope_core.specs.declared.fault.ScopeFault.TheVariants as fault;
ghost use Rattle.scope_core.specs.declared.fault.ScopeCode.TheVariants as code;
ghost use Rattle.scope_core.specs.Faults.{is_in_group};
ghost use Rattle.scope_core.specs.Lent.{levels_of};
ghost use Rattle.scope_core.specs.Scope.{sight_here};

mod blocks;
mod conditions;
mod queries;
mod values;

use crate::fault::{ScopeCode, ScopeFault, refused};
use crate::level::Levels;
use crate::output::Projection;
pub use queries::resolve_query;

/// A resolved tree, and the columns of its answer.
#[derive(Drop)]
pub struct Projected<'k, 'a, T> {
    pub tree: T,
    pub columns: Projection<'k, 'a>,
}

/// That a subquery may stand here. `at` is its place.
fn check_subquery(at: u32, levels: &Levels) -> Result<(), ScopeFault>
    ensures fine { OnOk result (is_in_group (sight_here (levels_of levels.now)) ≡ false) }
    ensures grouped { OnErr result (is_in_group (sight_here (levels_of levels.now)) ≡ true) }
    ensures err { IfErr result (λ f. f ≡ fault.Refused code.SubqueryInGroup at 0 0) }
{
    if levels.is_in_group() {
        return Err(refused(ScopeCode::SubqueryInGroup, at));
    }
    Ok(())
}
