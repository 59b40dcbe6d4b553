//! Chains of links between values that are joined. An edge is given by a factor or joins calls whose arguments were joined before it, so
//! links are found by going back in time.
ghost use Rattle.std.specs.Prelude.{◌≡◌, ◌<◌, ◌≤◌, [], ◌∷◌, IfOk, OnOk, Some, length, slice_get};
ghost use Rattle.u_equal.specs.Joined.{AreCalls, IsState, IsTree, Same, SameEach, edge_at, label_at, seen};
ghost use Rattle.u_equal.specs.Links.{HasCount, HasCountEach, Nests, NestsEach};
ghost use Rattle.u_equal.specs.LinkCounts.{arguments, links_between, links_of_edge, links_of_hops, links_of_values, sum_of_pairs};
ghost use Rattle.u_equal.specs.Chains.{IsPart, IsPath, IsSound, LinksCalls, LinksEach, LinksHop, LinksValues, Meets, NestsFrom, Parts, Walks, far, near};

use crate::NoMemory;
use crate::forest::{Forest, Reason};
use crate::link::Link;
use std::alloc::Global;
use u_terms::{List, Val, same_value};

/// A step along an edge, from its left place to its right one or, turned, back.
#[derive(Debug, Clone, Copy)]
pub struct Hop {
    pub time: usize,
    pub turned: bool,
}

/// A part of a way between places: a step, or what is still to be found between two places that the first edges join.
#[derive(Debug, Clone, Copy)]
pub enum Part {
    Found { hop: Hop },
    Open { upto: usize, from: usize, to: usize },
}

impl<'a> Forest<'a> {
    /// Links between two values that are joined.
    pub fn links(&self, alloc: Global, a: &Val, b: &Val) -> Result<List<Link>, NoMemory>
        requires tree { IsTree self.now }
        requires state { IsState (seen self.now) }
        requires same { Same self.now.values.keys (label_at self.now.edges.items (length self.now.edges.items)) a.now b.now }
        ensures leads { IfOk result (λ links. LinksValues (seen self.now) (length self.now.edges.items) a.now b.now links) }
        ensures counted { IfOk result (λ links. HasCount links (links_of_values (seen self.now) (length self.now.edges.items) a.now b.now)) }
        ensures nested { IfOk result (λ links. Nests (length self.now.edges.items) links) }
    {
        self.value_links(alloc, self.edges.len(), a, b)
    }

    // Links between values that the first edges join.
    #[cycle(links)]
    fn value_links(
        &self,
        alloc: Global,
        upto: usize,
        a: &Val,
        b: &Val,
    ) -> Result<List<Link>, NoMemory>
        requires tree { IsTree self.now }
        requires state { IsState (seen self.now) }
        requires within { upto ≤ length self.now.edges.items }
        requires same { Same self.now.values.keys (label_at self.now.edges.items upto) a.now b.now }
        ensures leads { IfOk result (λ links. LinksValues (seen self.now) upto a.now b.now links) }
        ensures counted { IfOk result (λ links. HasCount links (links_of_values (seen self.now) upto a.now b.now)) }
        ensures nested { IfOk result (λ links. Nests upto links) }
    {
        if same_value(a, b) {
            return Ok(List::new(alloc));
        }
        let from = self.place_of(a);
        let to = self.place_of(b);
        let hops = self.path(alloc, upto, from, to)?;
        let mut links = Vec::with_capacity(alloc, hops.len())?;
        for hop in hops.as_slice() {
            links.push(self.link(alloc, *hop)?)?;
        }
        Ok(List::from_vec(links))
    }

    // The link of a step.
    #[cycle(links)]
    fn link(&self, alloc: Global, hop: Hop) -> Result<Link, NoMemory>
        requires tree { IsTree self.now }
        requires state { IsState (seen self.now) }
        requires within { hop.time < length self.now.edges.items }
        ensures leads { IfOk result (λ link. LinksHop (seen self.now) hop link) }
        ensures counted { IfOk result (λ link. HasCount (link ∷ []) (links_of_edge (seen self.now) hop.time)) }
        ensures nested { IfOk result (λ link. NestsFrom hop.time link) }
    {
        match self.edges[hop.time].reason {
            Reason::Given { factor, turned } => Ok(Link::Given {
                factor,
                turned: turned != hop.turned,
            }),
            Reason::Called => {
                let near = self.value_at(self.near(hop));
                let far = self.value_at(self.far(hop));
                let pairs = self.call_links(alloc, hop.time, near, far)?;
                Ok(Link::Call { pairs })
            }
        }
    }

    // Links between the arguments of two calls with the same arguments.
    #[cycle(links)]
    fn call_links(
        &self,
        alloc: Global,
        upto: usize,
        a: &Val,
        b: &Val,
    ) -> Result<List<List<Link>>, NoMemory>
        requires tree { IsTree self.now }
        requires state { IsState (seen self.now) }
        requires within { upto ≤ length self.now.edges.items }
        requires calls { AreCalls self.now.values.keys (label_at self.now.edges.items upto) a.now b.now }
        ensures leads { IfOk result (λ pairs. LinksCalls (seen self.now) a.now b.now pairs) }
        ensures counted { IfOk result (λ pairs. HasCountEach pairs (sum_of_pairs (links_of_values (seen self.now) upto) (arguments a.now) (arguments b.now))) }
        ensures nested { IfOk result (λ pairs. NestsEach upto pairs) }
    {
        match (a, b) {
            (Val::Fun(_, xs), Val::Fun(_, ys)) => {
                self.pair_links(alloc, upto, xs.as_slice(), ys.as_slice())
            }
            _ => Ok(List::new(alloc)),
        }
    }

    // Links between the arguments of calls.
    #[cycle(links)]
    fn pair_links(
        &self,
        alloc: Global,
        upto: usize,
        xs: &[Val],
        ys: &[Val],
    ) -> Result<List<List<Link>>, NoMemory>
        requires tree { IsTree self.now }
        requires state { IsState (seen self.now) }
        requires within { upto ≤ length self.now.edges.items }
        requires same { SameEach self.now.values.keys (label_at self.now.edges.items upto) xs.now ys.now }
        ensures leads { IfOk result (λ pairs. LinksEach (seen self.now) xs.now ys.now pairs) }
        ensures counted { IfOk result (λ pairs. HasCountEach pairs (sum_of_pairs (links_of_values (seen self.now) upto) xs.now ys.now)) }
        ensures nested { IfOk result (λ pairs. NestsEach upto pairs) }
    {
        let mut pairs = Vec::with_capacity(alloc, xs.len())?;
        for (i, x) in xs.iter().enumerate() {
            pairs.push(self.value_links(alloc, upto, x, &ys[i])?)?;
        }
        Ok(List::from_vec(pairs))
    }

    /// The value at a place.
    pub fn value_at(&self, place: usize) -> &Val
        requires { place < length self.now.values.keys }
        ensures { slice_get self.now.values.keys place ≡ Some result.now }
    {
        let key = &self.values.as_slice()[place];
        key.value
    }

    // The place that is left by a step.
    fn near(&self, hop: Hop) -> usize
        requires state { IsState (seen self.now) }
        requires within { hop.time < length self.now.edges.items }
        ensures is { result ≡ near (edge_at self.now.edges.items hop.time) hop.turned }
        ensures inside { result < length self.now.values.keys }
    {
        let edge = &self.edges[hop.time];
        if hop.turned { edge.right } else { edge.left }
    }

    // The place that is reached by a step.
    fn far(&self, hop: Hop) -> usize
        requires state { IsState (seen self.now) }
        requires within { hop.time < length self.now.edges.items }
        ensures is { result ≡ far (edge_at self.now.edges.items hop.time) hop.turned }
        ensures inside { result < length self.now.values.keys }
    {
        let edge = &self.edges[hop.time];
        if hop.turned { edge.left } else { edge.right }
    }

    /// The steps between two places that the first edges join. What is still to be walked waits in a list, the next part last.
    pub fn path(
        &self,
        alloc: Global,
        upto: usize,
        from: usize,
        to: usize,
    ) -> Result<Vec<Hop>, NoMemory>
        requires tree { IsTree self.now }
        requires state { IsState (seen self.now) }
        requires part { IsPart (seen self.now) upto from to }
        ensures { IfOk result (λ hops. IsPath (seen self.now) upto from hops.items to) }
    {
        let mut hops = Vec::new(alloc);
        let mut parts = Vec::new(alloc);
        parts.push(Part::Open { upto, from, to })?;
        while let Some(part) = parts.pop() {
            self.walk(part, &mut hops, &mut parts)?;
        }
        Ok(hops)
    }

    // Walks a step, or parts a way between two places.
    fn walk(&self, part: Part, hops: &mut Vec<Hop>, parts: &mut Vec<Part>) -> Result<(), NoMemory>
        requires tree { IsTree self.now }
        requires state { IsState (seen self.now) }
        requires sound { IsSound (seen self.now) part }
        ensures { OnOk result (Walks (seen self.now) part hops.old.items hops.new.items parts.old.items parts.new.items) }
    {
        match part {
            Part::Found { hop } => Ok(hops.push(hop)?),
            Part::Open { upto, from, to } => {
                if from == to {
                    return Ok(());
                }
                self.part(upto, from, to, parts)
            }
        }
    }

    // Parts the way between two places at the edge that joined them.
    fn part(
        &self,
        upto: usize,
        from: usize,
        to: usize,
        parts: &mut Vec<Part>,
    ) -> Result<(), NoMemory>
        requires tree { IsTree self.now }
        requires state { IsState (seen self.now) }
        requires part { IsPart (seen self.now) upto from to }
        requires differ { from ≡ to → ⊥ }
        ensures { OnOk result (Parts (seen self.now).edges upto from to parts.old.items parts.new.items) }
    {
        let hop = self.meeting(upto, from, to);
        parts.push(Part::Open {
            upto: hop.time,
            from: self.far(hop),
            to,
        })?;
        parts.push(Part::Found { hop })?;
        parts.push(Part::Open {
            upto: hop.time,
            from,
            to: self.near(hop),
        })?;
        Ok(())
    }

    // The edge that joined two places, found by halving the time in which it came.
    fn meeting(&self, upto: usize, from: usize, to: usize) -> Hop
        requires tree { IsTree self.now }
        requires state { IsState (seen self.now) }
        requires part { IsPart (seen self.now) upto from to }
        requires differ { from ≡ to → ⊥ }
        ensures { Meets (seen self.now).edges upto from to result }
    {
        let mut apart = 0;
        let mut joined = upto;
        while joined - apart > 1 {
            let middle = apart + (joined - apart) / 2;
            if self.class_at(middle, from) == self.class_at(middle, to) {
                joined = middle;
            } else {
                apart = middle;
            }
        }
        let left = self.edges[apart].left;
        Hop {
            time: apart,
            turned: self.class_at(apart, from) != self.class_at(apart, left),
        }
    }
}
