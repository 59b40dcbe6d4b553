//! A forest of edges between values, in order of time. A tree of places, in which the smaller class is always hung under the larger one,
//! tells for each moment which values were joined then.
ghost use Rattle.std.specs.Prelude.{◌≡◌, ℕ, ◌<◌, ◌≤◌, MatchOption, IfOk, OnOk, length};
ghost use Rattle.u_equal.specs.Joined.{FirstAt, IsAbsent, IsFresh, IsMoved, IsTree, Stands, label_at, label_now, pushed, seen, turned_reason};
ghost use Rattle.u_equal.specs.Standing.{IsIn};

use crate::NoMemory;
use crate::key::Key;
use indexmap::IndexSet;
use std::alloc::Global;
use u_terms::Val;

/// Why two values are equal.
#[derive(Debug, Clone, Copy)]
pub enum Reason {
    /// This factor is the equality of the left and the right one or, turned, of the right and the left one.
    Given { factor: u32, turned: bool },
    /// They are calls of one function with arguments that were joined before.
    Called,
}

impl Reason {
    /// The reason with its sides exchanged.
    fn turned(self) -> Reason
        ensures { result ≡ turned_reason self }
    {
        match self {
            Reason::Given { factor, turned } => Reason::Given {
                factor,
                turned: !turned,
            },
            Reason::Called => Reason::Called,
        }
    }
}

/// Two places of the table whose classes are joined: the class of the right one is hung under that of the left one.
#[derive(Debug, Clone, Copy)]
pub struct Edge {
    pub left: usize,
    pub right: usize,
    pub reason: Reason,
}

/// Where a place of the table stands among its class.
#[derive(Debug, Clone, Copy)]
pub enum Place {
    /// It stands for its class, of this size.
    Root { size: usize },
    /// It stood for its class until this edge hung it under another place.
    Under { place: usize, time: usize },
}

/// Values, each once, and how they are joined.
#[derive(Drop)]
pub struct Forest<'a> {
    pub values: IndexSet<Key<'a>>,
    pub places: Vec<Place>,
    pub edges: Vec<Edge>,
}

impl<'a> Forest<'a> {
    /// Each value in a class of its own.
    pub fn apart(alloc: Global, values: IndexSet<Key<'a>>) -> Result<Forest<'a>, NoMemory>
        ensures fresh { IfOk result (λ forest. IsFresh values.entry.keys (seen forest)) }
        ensures tree { IfOk result IsTree }
    {
        let count = values.len();
        let mut places = Vec::with_capacity(alloc, count)?;
        for _place in 0..count {
            places.push(Place::Root { size: 1 })?;
        }
        Ok(Forest {
            values,
            places,
            edges: Vec::new(alloc),
        })
    }

    /// The place of a value in the table.
    pub fn find(&self, value: &Val) -> Option<usize>
        ensures { MatchOption result (IsAbsent value.now self.now.values.keys) (λ place. FirstAt self.now.values.keys value.now place) }
    {
        self.values.get_index_of(&Key { value })
    }

    /// The place of a value that is in the table.
    pub fn place_of(&self, value: &Val) -> usize
        requires { IsIn value.now self.now.values.keys }
        ensures first { FirstAt self.now.values.keys value.now result }
        ensures within { result < length self.now.values.keys }
    {
        self.find(value).unwrap_or(0)
    }

    /// The place that stands for the class of a place after the first edges. Places hang so that a way up has at most as many steps as the
    /// number of values has binary digits.
    pub fn class_at(&self, upto: usize, place: usize) -> usize
        requires tree { IsTree self.now }
        requires upto { upto ≤ length self.now.edges.items }
        requires place { place < length self.now.values.keys }
        ensures is { result ≡ label_at self.now.edges.items upto place }
        ensures within { result < length self.now.values.keys }
        ensures stands { (k : ℕ) → k ≤ upto → label_at self.now.edges.items k result ≡ result }
    {
        let mut at = place;
        loop {
            match self.places[at] {
                Place::Under { place, time } if time < upto => at = place,
                _ => return at,
            }
        }
    }

    /// The place that stands for the class of a place.
    pub fn class_of(&self, place: usize) -> usize
        requires tree { IsTree self.now }
        requires place { place < length self.now.values.keys }
        ensures is { result ≡ label_now (seen self.now) place }
        ensures within { result < length self.now.values.keys }
        ensures stands { Stands self.now.edges.items result }
    {
        self.class_at(self.edges.len(), place)
    }

    /// Joins two places, if they are not joined yet; says whether it did.
    pub fn join(&mut self, left: usize, right: usize, reason: Reason) -> Result<bool, NoMemory>
        requires tree { IsTree self.old }
        requires left { left < length self.old.values.keys }
        requires right { right < length self.old.values.keys }
        ensures tree { OnOk result (IsTree self.new) }
        ensures moved { IfOk result (λ joined. IsMoved left right reason (seen self.old) (seen self.new) joined) }
    {
        let left_root = self.class_of(left);
        let right_root = self.class_of(right);
        if left_root == right_root {
            return Ok(false);
        }
        if self.size_of(left_root) < self.size_of(right_root) {
            let edge = Edge {
                left: right,
                right: left,
                reason: reason.turned(),
            };
            self.hang(edge, right_root, left_root)?;
        } else {
            let edge = Edge {
                left,
                right,
                reason,
            };
            self.hang(edge, left_root, right_root)?;
        }
        Ok(true)
    }

    fn size_of(&self, place: usize) -> usize
        requires tree { IsTree self.now }
        requires place { place < length self.now.values.keys }
    {
        match self.places[place] {
            Place::Root { size } => size,
            Place::Under { .. } => 0,
        }
    }

    // Hangs the class of the edge's right place, for which one place stands, under that of its left one.
    fn hang(&mut self, edge: Edge, root: usize, under: usize) -> Result<(), NoMemory>
        requires tree { IsTree self.old }
        requires root { root ≡ label_now (seen self.old) edge.left }
        requires under { under ≡ label_now (seen self.old) edge.right }
        requires root_within { root < length self.old.values.keys }
        requires under_within { under < length self.old.values.keys }
        requires root_stands { Stands self.old.edges.items root }
        requires under_stands { Stands self.old.edges.items under }
        requires apart { root ≡ under → ⊥ }
        ensures tree { OnOk result (IsTree self.new) }
        ensures pushed { OnOk result (seen self.new ≡ pushed (seen self.old) edge) }
    {
        let time = self.edges.len();
        let size = self.size_of(root).saturating_add(self.size_of(under));
        self.edges.push(edge)?;
        self.places[root] = Place::Root { size };
        self.places[under] = Place::Under { place: root, time };
        Ok(())
    }
}
