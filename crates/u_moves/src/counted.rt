//! A term whose nodes are counted.
ghost use Rattle.std.specs.Prelude.{◌≡◌, ◌+◌, ◌-◌, ◌≤◌, ◌<◌, ◌^◌, IfOk, OnOk};
ghost use Rattle.u_terms.specs.Size.{depth as depth_of, nodes as nodes_of};
ghost use Rattle.u_deriv.specs.Applying.{HasRoomAt};
ghost use Rattle.u_deriv.specs.Steps.{Replaced};
ghost use Rattle.u_moves.specs.Lifting.{Stands};

use crate::NoMemory;
use plain_data::Kept;
use std::alloc::{AllocError, Global};
use std::marker::Model;
use u_deriv::{Path, replace};
use u_terms::{U, nodes};

/// A term, and how many nodes it has.
#[derive(Drop)]
pub struct Counted {
    term: Kept<U>,
    nodes: u64,
}

impl Model for Counted {
    ghost use Rattle.std.specs.Prelude.{◌≡◌};
    ghost use Rattle.std.specs.Coded.{codes};
    ghost use Rattle.u_terms.specs.contracts.term.U as term_type;
    ghost use Rattle.u_terms.specs.Syntax.{U as TheU};
    ghost use Rattle.u_terms.specs.Size.{nodes as nodes_of};

    ghost Value = { TheU };

    ghost coded = { Prim.hlevel (codes, term_type.the_row.coded) };

    ghost view = { λ counted. counted.term };

    ghost invariant = { λ counted. counted.nodes ≡ nodes_of counted.term };
}

impl Counted {
    /// Counts the nodes. There is no memory for 2^64 - 1 of them.
    pub fn new(term: Kept<U>) -> Result<Counted, NoMemory>
        ensures { IfOk result (λ counted. counted ≡ term) }
    {
        let nodes = nodes(term.get());
        if nodes == u64::MAX {
            return Err(AllocError);
        }
        Ok(Counted { term, nodes })
    }

    /// An equal term in memory of its own.
    pub fn copy(&self, alloc: Global) -> Result<Counted, NoMemory>
        ensures { IfOk result (λ copy. copy ≡ self.now) }
    {
        Ok(Counted {
            term: Kept::new(self.term.get().copy(alloc)?),
            nodes: self.nodes,
        })
    }

    /// Lends the term.
    pub fn term(&self) -> &U
        ensures { result.now ≡ self.now }
    {
        self.term.get()
    }

    /// Hands the term on.
    pub fn into_term(self) -> U
        ensures { result ≡ self }
    {
        let Counted { term, nodes: _ } = self;
        term.into_inner()
    }

    /// How many nodes it has.
    pub fn nodes(&self) -> u64
        ensures { result ≡ nodes_of self.now }
    {
        self.nodes
    }

    /// Writes the one term in the place of the other at the end of the path, both closed by names for the binders on it.
    pub fn replace(
        &mut self,
        outs: u32,
        path: &Path,
        from: &Counted,
        to: Counted,
    ) -> Result<(), NoMemory>
        requires shallow { outs + depth_of self.old < 2 ^ 32 }
        requires room { HasRoomAt outs path.now self.old to }
        requires stands { Stands outs path.now self.old from.now }
        ensures { OnOk result (Replaced outs path.now self.old from.now to self.new) }
    {
        let Some(sum) = self.nodes.checked_add(to.nodes) else {
            return Err(AllocError);
        };
        let Counted { term, nodes: _ } = to;
        match replace(
            outs,
            self.term.get_mut(),
            path,
            from.term.get(),
            term.into_inner(),
        ) {
            Ok(()) => {
                self.nodes = sum - from.nodes;
                Ok(())
            }
            Err(_) => unreachable!(),
        }
    }
}
