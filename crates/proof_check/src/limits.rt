//! The limits of a proof, and what passes them.
ghost use Rattle.std.specs.Prelude.{◌≡◌, ◌<◌, IfOk};
ghost use Rattle.u_deriv.specs.Spending.{IsMeasured};
ghost use Rattle.proof_check.specs.Limits.{sizes_for};
ghost use Rattle.proof_check.specs.Refusing.{Keeps, KeepsSides, LeavesRoom};

use proof_text::LimitKind;
use u_deriv::{Measured, Step, measure};
use u_terms::Facts;

/// The most steps, inner ones too.
pub const MOST_STEPS: u64 = 1_000_000;

/// The most inner proofs that are open at once.
pub const MOST_NESTING: u64 = 64;

/// The most nodes of a term.
const MOST_NODES: u64 = 200_000;

/// The greatest depth of a term.
const MOST_DEPTH: u64 = 2_048;

/// A limit that is passed, and by what count.
#[derive(Clone, Copy, Debug)]
pub struct Passed {
    pub what: LimitKind,
    pub count: u64,
}

/// Refuses one more of what there are so many of, where they are as many as there may be.
pub fn leave_room(what: LimitKind, count: u64, most: u64) -> Result<(), Passed>
    requires { most < u64.MAX }
    ensures { LeavesRoom what count most result }
{
    if count < most {
        return Ok(());
    }
    Err(Passed {
        what,
        count: most + 1,
    })
}

/// Refuses so many nodes, or else this depth, past the limits of a term.
pub fn keep(nodes: u64, depth: u64) -> Result<(), Passed>
    ensures { Keeps nodes depth result }
{
    if nodes > MOST_NODES {
        return Err(Passed {
            what: LimitKind::Nodes,
            count: nodes,
        });
    }
    if depth > MOST_DEPTH {
        return Err(Passed {
            what: LimitKind::Depth,
            count: depth,
        });
    }
    Ok(())
}

/// Refuses a step with a side that passes a limit, the left one first, and else tells what it measures.
pub fn keep_sides(facts: &Facts, step: &Step) -> Result<Measured, Passed>
    ensures measured { IfOk result (λ measured. IsMeasured facts.now step.now measured) }
    ensures limits { KeepsSides (sizes_for facts.now step.now) result }
{
    let measured = measure(facts, step);
    let sizes = measured.sizes;
    keep(sizes.left_nodes, sizes.left_depth)?;
    keep(sizes.right_nodes, sizes.right_depth)?;
    Ok(measured)
}
