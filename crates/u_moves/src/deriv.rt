//! Derivations.
ghost use Rattle.std.specs.Prelude.{◌≡◌, ◌↔◌, ◌+◌, ◌-◌, ◌<◌, ◌≤◌, ◌^◌, ◌++◌, max, length, IfOk, IsOk, IsTrue};
ghost use Rattle.u_terms.specs.Size.{depth as depth_of, nodes as nodes_of};
ghost use Rattle.u_deriv.specs.Applying.{HasRoomAt};
ghost use Rattle.u_deriv.specs.Steps.{Replaced, Rewrites};
ghost use Rattle.u_deriv.specs.Turns.{turns};
ghost use Rattle.u_moves.specs.Derivations.{HasNoResult, IsJoined, IsKnown, IsOneStep, IsSound, IsStill};
ghost use Rattle.u_moves.specs.Lifting.{IsMadeIn, IsPart, IsPartOfKnown, IsUnder, Stands, lifted};
ghost use Rattle.u_moves.specs.Turning.{turned_back};

use crate::NoMemory;
use crate::binders::binders_on;
use crate::counted::Counted;
use crate::lifting::lift;
use crate::runs::turn_count;
use crate::turning::turn_back;
use plain_data::Kept;
use std::alloc::{AllocError, Global};
use std::marker::Model;
use u_deriv::{Path, Step, StepFault, apply};
use u_terms::{Facts, List, U, depth};

/// Names and depth together are below this.
const ROOM: u64 = 0x1_0000_0000;

/// Steps that lead from a first term to a last one by facts, where the names from `outs` on are for binders.
#[derive(Drop)]
pub struct Deriv<'f> {
    facts: &'f Facts,
    outs: u32,
    from: Counted,
    to: Counted,
    steps: List<Step>,
    /// No term on the way has more nodes, or is deeper.
    nodes: u64,
    depth: u64,
}

impl<'f> Model for Deriv<'f> {
    ghost use Rattle.std.specs.Coded.{codes};
    ghost use Rattle.u_terms.specs.contracts.facts.Facts as facts_type;
    ghost use Rattle.u_terms.specs.contracts.term.U as term_type;
    ghost use Rattle.u_deriv.specs.contracts.step.Step as step_type;
    ghost use Rattle.u_moves.specs.Derivations.{Derivation, IsSound};

    ghost Value = { Derivation };

    ghost coded = { Prim.hlevel (codes, facts_type.the_row.coded, term_type.the_row.coded, step_type.the_row.coded) };

    ghost view = { λ d. record {
      facts = d.facts.now;
      outs = d.outs;
      from = d.from;
      to = d.to;
      steps = d.steps;
      nodes = d.nodes;
      depth = d.depth;
    } };

    ghost invariant = { λ d. IsSound (record {
      facts = d.facts.now;
      outs = d.outs;
      from = d.from;
      to = d.to;
      steps = d.steps;
      nodes = d.nodes;
      depth = d.depth;
    }) };
}

impl<'f> Deriv<'f> {
    /// No step.
    pub fn refl(alloc: Global, facts: &'f Facts, outs: u32, u: &U) -> Result<Deriv<'f>, NoMemory>
        requires known { IsKnown 0 outs u.now }
        requires shallow { outs + depth_of u.now < 2 ^ 32 }
        ensures { IfOk result (IsStill facts.now outs u.now) }
    {
        let from = Counted::new(Kept::new(u.copy(alloc)?))?;
        let to = from.copy(alloc)?;
        let nodes = from.nodes();
        Ok(Deriv {
            facts,
            outs,
            from,
            to,
            steps: List::new(alloc),
            nodes,
            depth: depth(u),
        })
    }

    /// One step.
    pub fn by_rule(
        alloc: Global,
        facts: &'f Facts,
        outs: u32,
        u: &U,
        step: Step,
    ) -> Result<Deriv<'f>, StepFault>
        requires known { IsKnown 0 outs u.now }
        requires shallow { outs + depth_of u.now < 2 ^ 32 }
        ensures made { IfOk result (λ d. Rewrites facts.now outs u.now step d.to) }
        ensures step { IfOk result (λ d. IsOneStep facts.now outs u.now step d.to d) }
        ensures none { HasNoResult facts.now outs u.now step result }
    {
        let mut to = Kept::new(u.copy(alloc)?);
        match apply(alloc, facts, outs, to.get_mut(), &step) {
            Ok(()) => {}
            Err(fault) => return Err(fault),
        }
        let from = Kept::new(u.copy(alloc)?);
        Ok(Deriv::one_step(alloc, facts, outs, from, step, to)?)
    }

    /// One step, that leads from the one term to the other.
    pub(crate) fn one_step(
        alloc: Global,
        facts: &'f Facts,
        outs: u32,
        from: Kept<U>,
        step: Step,
        to: Kept<U>,
    ) -> Result<Deriv<'f>, NoMemory>
        requires known { IsKnown 0 outs from }
        requires made { Rewrites facts.now outs from step to }
        ensures { IfOk result (IsOneStep facts.now outs from step to) }
    {
        let steps = List::from_vec(vec![in alloc; step]?);
        let Ends { from, to, bounds } = Ends::new(outs, from, to)?;
        Ok(Deriv {
            facts,
            outs,
            from,
            to,
            steps,
            nodes: bounds.nodes,
            depth: bounds.depth,
        })
    }

    /// From the first term of this one to the last of the other.
    pub fn then(self, alloc: Global, other: Deriv<'f>) -> Result<Deriv<'f>, NoMemory>
        requires joins { self.to ≡ other.from }
        requires facts { self.facts ≡ other.facts }
        requires outs { self.outs ≡ other.outs }
        ensures facts { IfOk result (λ d. d.facts ≡ self.entry.facts) }
        ensures outs { IfOk result (λ d. d.outs ≡ self.entry.outs) }
        ensures from { IfOk result (λ d. d.from ≡ self.entry.from) }
        ensures to { IfOk result (λ d. d.to ≡ other.entry.to) }
        ensures steps { IfOk result (λ d. d.steps ≡ self.entry.steps ++ other.entry.steps) }
        ensures bounds { IfOk result (IsJoined self.entry other.entry) }
    {
        let (facts, outs) = (self.facts, self.outs);
        let nodes = self.nodes.max(other.nodes);
        let depth = self.depth.max(other.depth);
        let (from, first) = self.into_start();
        let (to, rest) = other.into_last();
        let steps = appended(first, rest)?;
        Ok(Deriv {
            facts,
            outs,
            from,
            to,
            steps,
            nodes,
            depth,
        })
    }

    /// From the last term to the first. Takes no memory.
    pub fn back(self, alloc: Global) -> Result<Deriv<'f>, NoMemory>
        ensures ok { IsOk result }
        ensures facts { IfOk result (λ d. d.facts ≡ self.entry.facts) }
        ensures outs { IfOk result (λ d. d.outs ≡ self.entry.outs) }
        ensures from { IfOk result (λ d. d.from ≡ self.entry.to) }
        ensures to { IfOk result (λ d. d.to ≡ self.entry.from) }
        ensures steps { IfOk result (λ d. d.steps ≡ turned_back self.entry.steps) }
        ensures nodes { IfOk result (λ d. d.nodes ≡ self.entry.nodes) }
        ensures depth { IfOk result (λ d. d.depth ≡ self.entry.depth) }
    {
        let Deriv {
            facts,
            outs,
            from,
            to,
            steps,
            nodes,
            depth,
        } = self;
        Ok(Deriv {
            facts,
            outs,
            from: to,
            to: from,
            steps: turned(steps),
            nodes,
            depth,
        })
    }

    /// The derivation in a whole term, where its first term stands at the end of the path.
    pub fn under(self, alloc: Global, whole: &U, path: &Path) -> Result<Deriv<'f>, NoMemory>
        requires { IsPartOfKnown path.now whole.now self.outs self.from }
        ensures { IfOk result (IsUnder path.now whole.now self.entry) }
    {
        let names = self.outs - binders_on(whole, path);
        let none = Deriv::refl(alloc, self.facts, names, whole)?;
        none.then_under(alloc, path, self)
    }

    /// This one and then the other, made in the last term, where its first term stands at the end of the path. The last term is
    /// changed in place: it is neither copied nor gone through.
    pub fn then_under(
        self,
        alloc: Global,
        path: &Path,
        other: Deriv<'f>,
    ) -> Result<Deriv<'f>, NoMemory>
        requires facts { self.facts ≡ other.facts }
        requires part { IsPart self.outs path.now self.to other.outs other.from }
        ensures { IfOk result (IsMadeIn path.now self.entry other.entry) }
    {
        let bounds = self.bounds_in(path, &other);
        self.made_in(alloc, path, other, bounds)
    }

    // What the terms on the way of the other derivation, made in this one's last term, have at most.
    fn bounds_in(&self, path: &Path, other: &Deriv<'_>) -> Result<Bounds, NoMemory>
        ensures nodes { IfOk result (λ bounds. bounds.nodes ≡ max self.now.nodes (nodes_of self.now.to + other.now.nodes - nodes_of other.now.from)) }
        ensures depth { IfOk result (λ bounds. bounds.depth ≡ max self.now.depth (length (turns path.now) + other.now.depth)) }
        ensures room { IfOk result (λ bounds. self.now.outs + bounds.depth < 2 ^ 32) }
    {
        let depth = self.depth.max(turn_count(path).saturating_add(other.depth));
        if !has_room(self.outs, depth) {
            return Err(AllocError);
        }
        let nodes = most_nodes(&self.to, &other.from, other.nodes)?;
        Ok(Bounds {
            nodes: self.nodes.max(nodes),
            depth,
        })
    }

    // The bounds are asked for once both derivations are taken apart: an error drops less then.
    fn made_in(
        self,
        alloc: Global,
        path: &Path,
        other: Deriv<'f>,
        bounds: Result<Bounds, NoMemory>,
    ) -> Result<Deriv<'f>, NoMemory>
        requires facts { self.facts ≡ other.facts }
        requires part { IsPart self.outs path.now self.to other.outs other.from }
        requires nodes { IfOk bounds (λ bounds. bounds.nodes ≡ max self.nodes (nodes_of self.to + other.nodes - nodes_of other.from)) }
        requires depth { IfOk bounds (λ bounds. bounds.depth ≡ max self.depth (length (turns path.now) + other.depth)) }
        requires room { IfOk bounds (λ bounds. self.outs + bounds.depth < 2 ^ 32) }
        ensures { IfOk result (IsMadeIn path.now self.entry other.entry) }
    {
        let Deriv {
            facts,
            outs,
            from,
            to,
            steps,
            nodes: _,
            depth: _,
        } = self;
        let Deriv {
            facts: _,
            outs: _,
            from: part,
            to: new_part,
            steps: more,
            nodes: _,
            depth: _,
        } = other;
        let bounds = bounds?;
        let to = replaced(to, outs, path, part, new_part)?;
        let steps = lifted_after(alloc, path, steps, more)?;
        Ok(Deriv {
            facts,
            outs,
            from,
            to,
            steps,
            nodes: bounds.nodes,
            depth: bounds.depth,
        })
    }

    // The first term and the steps.
    fn into_start(self) -> (Counted, List<Step>)
        ensures from { result.0 ≡ self.entry.from }
        ensures steps { result.1 ≡ self.entry.steps }
        ensures sound { IsSound self.entry }
    {
        let Deriv { from, steps, .. } = self;
        (from, steps)
    }

    // The last term and the steps.
    fn into_last(self) -> (Counted, List<Step>)
        ensures to { result.0 ≡ self.entry.to }
        ensures steps { result.1 ≡ self.entry.steps }
        ensures sound { IsSound self.entry }
    {
        let Deriv { to, steps, .. } = self;
        (to, steps)
    }

    /// The last term and the steps.
    pub(crate) fn into_end(self) -> (U, List<Step>)
        ensures to { result.0 ≡ self.entry.to }
        ensures steps { result.1 ≡ self.entry.steps }
        ensures sound { IsSound self.entry }
    {
        let (to, steps) = self.into_last();
        (to.into_term(), steps)
    }

    /// The first term.
    pub fn from(&self) -> &U
        ensures lent { result.now ≡ self.now.from }
        ensures sound { IsSound self.now }
    {
        self.from.term()
    }

    /// The last term.
    pub fn to(&self) -> &U
        ensures lent { result.now ≡ self.now.to }
        ensures sound { IsSound self.now }
    {
        self.to.term()
    }

    /// The steps, in order.
    pub fn steps(&self) -> &List<Step>
        ensures lent { result.now ≡ self.now.steps }
        ensures sound { IsSound self.now }
    {
        &self.steps
    }

    /// By what facts the steps are made.
    pub fn facts(&self) -> &'f Facts
        ensures { result.now ≡ self.now.facts }
    {
        self.facts
    }

    /// The names from this one on are for binders.
    pub fn outs(&self) -> u32
        ensures { result ≡ self.now.outs }
    {
        self.outs
    }

    /// No term on the way has more nodes.
    pub fn nodes(&self) -> u64
        ensures { result ≡ self.now.nodes }
    {
        self.nodes
    }

    /// No term on the way is deeper.
    pub fn depth(&self) -> u64
        ensures { result ≡ self.now.depth }
    {
        self.depth
    }
}

/// The nodes and the depth that terms have at most.
#[derive(Clone, Copy)]
struct Bounds {
    nodes: u64,
    depth: u64,
}

/// The ends of one step, and what both have at most.
#[derive(Drop)]
struct Ends {
    from: Counted,
    to: Counted,
    bounds: Bounds,
}

impl Ends {
    // There is no memory for terms that leave no room for names behind `outs`.
    fn new(outs: u32, from: Kept<U>, to: Kept<U>) -> Result<Ends, NoMemory>
        ensures from { IfOk result (λ ends. ends.from ≡ from) }
        ensures to { IfOk result (λ ends. ends.to ≡ to) }
        ensures nodes { IfOk result (λ ends. ends.bounds.nodes ≡ max (nodes_of from) (nodes_of to)) }
        ensures depth { IfOk result (λ ends. ends.bounds.depth ≡ max (depth_of from) (depth_of to)) }
        ensures room { IfOk result (λ ends. outs + max (depth_of from) (depth_of to) < 2 ^ 32) }
    {
        let depth = depth(from.get()).max(depth(to.get()));
        if !has_room(outs, depth) {
            return Err(AllocError);
        }
        let from = Counted::new(from)?;
        let to = Counted::new(to)?;
        let nodes = from.nodes().max(to.nodes());
        Ok(Ends {
            from,
            to,
            bounds: Bounds { nodes, depth },
        })
    }
}

// The whole with the new part in the place of the old one.
fn replaced(
    whole: Counted,
    outs: u32,
    path: &Path,
    part: Counted,
    new_part: Counted,
) -> Result<Counted, NoMemory>
    requires shallow { outs + depth_of whole < 2 ^ 32 }
    requires room { HasRoomAt outs path.now whole new_part }
    requires stands { Stands outs path.now whole part }
    ensures { IfOk result (Replaced outs path.now whole part new_part) }
{
    let mut whole = whole;
    whole.replace(outs, path, &part, new_part)?;
    Ok(whole)
}

// Whether terms of this depth have room for names behind `outs`. There is no memory for deeper ones.
fn has_room(outs: u32, depth: u64) -> bool
    ensures { IsTrue result ↔ (outs + depth < 2 ^ 32) }
{
    u64::from(outs).saturating_add(depth) < ROOM
}

// The nodes of the whole with a term of at most so many nodes in place of the part.
fn most_nodes(whole: &Counted, part: &Counted, most: u64) -> Result<u64, NoMemory>
    requires { nodes_of part.now ≤ most }
    ensures { IfOk result (λ nodes. nodes ≡ nodes_of whole.now + most - nodes_of part.now) }
{
    match whole.nodes().checked_add(most - part.nodes()) {
        Some(nodes) => Ok(nodes),
        None => Err(AllocError),
    }
}

// The steps the other way.
fn turned(steps: List<Step>) -> List<Step>
    ensures { result ≡ turned_back steps }
{
    let mut steps = steps;
    turn_back(steps.as_mut_slice());
    steps
}

// The first steps and then the rest, which move.
fn appended(first: List<Step>, rest: List<Step>) -> Result<List<Step>, NoMemory>
    ensures { IfOk result (λ steps. steps ≡ first ++ rest) }
{
    let mut steps = first.into_vec();
    let mut more = rest.into_vec();
    steps.append(&mut more)?;
    Ok(List::from_vec(steps))
}

// The first steps and then the rest, at the end of the path.
fn lifted_after(
    alloc: Global,
    path: &Path,
    first: List<Step>,
    rest: List<Step>,
) -> Result<List<Step>, NoMemory>
    ensures { IfOk result (λ steps. steps ≡ first ++ lifted path.now rest) }
{
    let mut rest = rest;
    lift(alloc, path, rest.as_mut_slice())?;
    appended(first, rest)
}
