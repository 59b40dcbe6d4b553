//! How many links a chain has, those of arguments of calls too, counted before it is made: a number for each edge, in order of time.
ghost use Rattle.std.specs.Prelude.{◌≡◌, ◌<◌, IfOk, length};
ghost use Rattle.u_equal.specs.Joined.{AreCalls, IsState, IsTree, Same, SameEach, label_at, seen};
ghost use Rattle.u_equal.specs.Links.{told};
ghost use Rattle.u_equal.specs.LinkCounts.{AreNumbers, arguments, links_of_edge, links_of_values, sum_of_pairs};

use crate::NoMemory;
use crate::forest::{Forest, Reason};
use std::alloc::Global;
use u_terms::{Val, same_value};

impl<'a> Forest<'a> {
    /// How many links lead from the one value to the other, or `u64::MAX` where there are more. The numbers of the edges take a walk for
    /// each argument of the calls that they join.
    pub fn count_links(&self, alloc: Global, a: &Val, b: &Val) -> Result<u64, NoMemory>
        requires tree { IsTree self.now }
        requires state { IsState (seen self.now) }
        requires same { Same self.now.values.keys (label_at self.now.edges.items (length self.now.edges.items)) a.now b.now }
        ensures { IfOk result (λ count. count ≡ told (links_of_values (seen self.now) (length self.now.edges.items) a.now b.now)) }
    {
        if same_value(a, b) {
            return Ok(0);
        }
        let numbers = self.numbers(alloc)?;
        self.count_links_by(alloc, numbers.as_slice(), a, b)
    }

    /// How many links each edge stands for.
    pub fn numbers(&self, alloc: Global) -> Result<Vec<u64>, NoMemory>
        requires tree { IsTree self.now }
        requires state { IsState (seen self.now) }
        ensures { IfOk result (λ numbers. AreNumbers (seen self.now) (length self.now.edges.items) numbers.items) }
    {
        let count = self.edges.len();
        let mut numbers = Vec::with_capacity(alloc, count)?;
        for _time in 0..count {
            let number = self.count_links_of_edge(alloc, numbers.as_slice())?;
            numbers.push(number)?;
        }
        Ok(numbers)
    }

    // How many links the edge stands for that comes after those with these numbers.
    fn count_links_of_edge(&self, alloc: Global, numbers: &[u64]) -> Result<u64, NoMemory>
        requires tree { IsTree self.now }
        requires state { IsState (seen self.now) }
        requires numbers { AreNumbers (seen self.now) (length numbers.now) numbers.now }
        requires within { length numbers.now < length self.now.edges.items }
        ensures { IfOk result (λ number. number ≡ told (links_of_edge (seen self.now) (length numbers.now))) }
    {
        let edge = &self.edges[numbers.len()];
        match edge.reason {
            Reason::Given { .. } => Ok(1),
            Reason::Called => {
                let left = self.value_at(edge.left);
                let right = self.value_at(edge.right);
                let inside = self.count_links_of_calls(alloc, numbers, left, right)?;
                Ok(inside.saturating_add(1))
            }
        }
    }

    // How many links lead from the arguments of a call to those of another.
    fn count_links_of_calls(
        &self,
        alloc: Global,
        numbers: &[u64],
        a: &Val,
        b: &Val,
    ) -> Result<u64, NoMemory>
        requires tree { IsTree self.now }
        requires state { IsState (seen self.now) }
        requires numbers { AreNumbers (seen self.now) (length numbers.now) numbers.now }
        requires calls { AreCalls self.now.values.keys (label_at self.now.edges.items (length numbers.now)) a.now b.now }
        ensures { IfOk result (λ number. number ≡ told (sum_of_pairs (links_of_values (seen self.now) (length numbers.now)) (arguments a.now) (arguments b.now))) }
    {
        match (a, b) {
            (Val::Fun(_, xs), Val::Fun(_, ys)) => {
                self.count_links_of_pairs(alloc, numbers, xs.as_slice(), ys.as_slice())
            }
            _ => Ok(0),
        }
    }

    fn count_links_of_pairs(
        &self,
        alloc: Global,
        numbers: &[u64],
        xs: &[Val],
        ys: &[Val],
    ) -> Result<u64, NoMemory>
        requires tree { IsTree self.now }
        requires state { IsState (seen self.now) }
        requires numbers { AreNumbers (seen self.now) (length numbers.now) numbers.now }
        requires same { SameEach self.now.values.keys (label_at self.now.edges.items (length numbers.now)) xs.now ys.now }
        ensures { IfOk result (λ number. number ≡ told (sum_of_pairs (links_of_values (seen self.now) (length numbers.now)) xs.now ys.now)) }
    {
        let mut total: u64 = 0;
        for (i, x) in xs.iter().enumerate() {
            let number = self.count_links_by(alloc, numbers, x, &ys[i])?;
            total = total.saturating_add(number);
        }
        Ok(total)
    }

    /// How many links lead from value to value along the edges with these numbers.
    pub fn count_links_by(
        &self,
        alloc: Global,
        numbers: &[u64],
        a: &Val,
        b: &Val,
    ) -> Result<u64, NoMemory>
        requires tree { IsTree self.now }
        requires state { IsState (seen self.now) }
        requires numbers { AreNumbers (seen self.now) (length numbers.now) numbers.now }
        requires same { Same self.now.values.keys (label_at self.now.edges.items (length numbers.now)) a.now b.now }
        ensures { IfOk result (λ number. number ≡ told (links_of_values (seen self.now) (length numbers.now) a.now b.now)) }
    {
        if same_value(a, b) {
            return Ok(0);
        }
        let from = self.place_of(a);
        let to = self.place_of(b);
        let hops = self.path(alloc, numbers.len(), from, to)?;
        let mut total: u64 = 0;
        for hop in hops.as_slice() {
            total = total.saturating_add(numbers[hop.time]);
        }
        Ok(total)
    }
}
