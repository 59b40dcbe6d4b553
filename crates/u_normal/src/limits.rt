//! The normal form of a term, where the terms on the way to it are of a size that can be borne.
ghost use Rattle.std.specs.Prelude.{◌≡◌, IfOk};
ghost use Rattle.u_moves.specs.Derivations.{IsKnown};
ghost use Rattle.normal_form.specs.NormalTerms.{IsNormal};
ghost use Rattle.u_normal.specs.declared.limits.NormalFault.TheVariants as fault;
ghost use Rattle.u_normal.specs.Leading.{Leads};
ghost use Rattle.u_normal.specs.Limits.{IsLarge, IsRoomFor};
ghost use Rattle.u_normal.specs.Shaped.{IsShaped, KeepsShapes};

use crate::NoMemory;
use crate::rooms::excess;
use crate::shaped::shaped;
use crate::whole::normal_within;
use normal_form::ways;
use std::alloc::AllocError;
use u_congruence::Derived;
use u_moves::Moves;
use u_terms::{U, nodes};

/// Where the blocks that a term may have, times its nodes, are no more, it has its normal form whatever the size.
const UNLIMITED: u64 = 20_000;

/// The most nodes that the last term may have.
const MOST_NODES: u64 = 200_000;

/// Why a term has no derivation to its normal form.
#[derive(Clone, Copy, Debug, PartialEq, Eq)]
pub enum NormalFault {
    /// Steps lead to a term that has this many nodes, more than 200,000.
    TooLarge { nodes: u64 },
    NoMemory,
}

impl From<AllocError> for NormalFault {
    ghost from_gives = { λ _ result. result ≡ fault.NoMemory };

    fn from(_: AllocError) -> NormalFault {
        NormalFault::NoMemory
    }
}

/// From a term to its normal form. Sums of blocks that have shapes, and one squash of such a block, keep the shapes and are never too
/// large.
pub fn normal<'f>(moves: Moves<'f>, u: &U) -> Result<Derived<'f>, NormalFault>
    requires { IsKnown 0 moves.outs u.now }
    ensures normal { IfOk result (Leads IsNormal moves.entry.facts.now moves.entry.outs u.now) }
    ensures shapes { IfOk result (KeepsShapes moves.entry.outs u.now) }
    ensures large { IsLarge moves.entry.facts.now moves.entry.outs u.now result }
{
    match shaped(moves, u)? {
        Some(d) => Ok(d),
        None => unshaped(moves, u),
    }
}

// The same of a term of no such form.
fn unshaped<'f>(moves: Moves<'f>, u: &U) -> Result<Derived<'f>, NormalFault>
    requires known { IsKnown 0 moves.outs u.now }
    requires shapeless { IsShaped moves.outs u.now → ⊥ }
    ensures normal { IfOk result (Leads IsNormal moves.entry.facts.now moves.entry.outs u.now) }
    ensures shapes { IfOk result (KeepsShapes moves.entry.outs u.now) }
    ensures large { IsLarge moves.entry.facts.now moves.entry.outs u.now result }
{
    let room = room_for(u);
    let d = normal_within(moves, room, u)?;
    match excess(&d, room) {
        Some(nodes) => Err(NormalFault::TooLarge { nodes }),
        None => Ok(d),
    }
}

// The most nodes that the last term may have: any number, where the term is small enough or has few enough blocks.
fn room_for(u: &U) -> u64
    ensures { IsRoomFor u.now result }
{
    if ways(u).saturating_mul(nodes(u)) <= UNLIMITED {
        u64::MAX
    } else {
        MOST_NODES
    }
}
