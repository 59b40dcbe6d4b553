//! The classes of the values in a product.
ghost use Rattle.std.specs.Prelude.{◌≡◌, ◌^◌, ◌<◌, ◌↔◌, IfOk, IsTrue, MatchOption, length};
ghost use Rattle.u_rules.specs.Terms.{mul_leaves};
ghost use Rattle.u_equal.specs.Entails.{Entails};
ghost use Rattle.u_equal.specs.Routes.{IsChain, IsFrom};
ghost use Rattle.u_equal.specs.Joined.{AreSame, IsTree, Joined, label_now, seen};

use crate::NoMemory;
use crate::calls::calls_of;
use crate::forest::Forest;
pub use crate::gather::factors;
use crate::gather::standing_values;
use crate::link::Link;
use crate::route::{Route, Routes};
use crate::table::table_of;
use std::alloc::Global;
use std::marker::Model;
use u_rules::leaves;
use u_terms::{List, U, Val, same_value};

/// The classes of the values that stand in a product outside every binder: of the least equivalence that holds the equalities among its
/// factors, and that carries equal arguments to equal calls of one function. What stands under `+`, `#` and `!` counts, also as an argument of a
/// call; what stands under a sum or in an aggregate does not. Contracts see the classes as the product.
#[derive(Drop)]
pub struct Classes<'a> {
    product: &'a U,
    forest: Forest<'a>,
}

impl<'a> Model for Classes<'a> {
    ghost use Rattle.std.specs.Coded.{codes};
    ghost use Rattle.u_terms.specs.Syntax.{U as TheU};
    ghost use Rattle.u_terms.specs.contracts.term.U as term_type;
    ghost use Rattle.u_equal.specs.Joined.{AreClasses};

    ghost Value = { TheU };

    ghost coded = { Prim.hlevel (codes, term_type.the_row.coded) };

    ghost view = { λ classes. classes.product.now };

    ghost invariant = { λ classes. AreClasses classes.product.now classes.forest };
}

impl<'a> Classes<'a> {
    /// The classes of a product. Each value is hashed whole, so calls take up to the nodes of the product times the depth of calls in calls, which is
    /// at most 2,048 within the limits of terms. Where the arguments of a wide call are joined one after another, each by calls that were joined
    /// before, the call is looked at again for each of them: that takes up to the square of its arguments. All else is about linear, and so is the
    /// memory.
    pub fn of(alloc: Global, product: &'a U) -> Result<Classes<'a>, NoMemory>
        requires few { length (mul_leaves product.now) < 2 ^ 32 }
        ensures { IfOk result (λ classes. classes ≡ product.now) }
    {
        let factors = leaves(alloc, product, true)?;
        let standing = standing_values(alloc, product)?;
        let values = table_of(alloc, standing.as_slice())?;
        let mut forest = Forest::apart(alloc, values)?;
        forest.join_factors(factors.as_slice())?;
        let calls = calls_of(alloc, &forest)?;
        forest.join_calls(alloc, calls.as_slice())?;
        Ok(Classes { product, forest })
    }

    /// Whether the product's equalities entail that the values are equal. They may be any values: one that does not stand in the product is equal
    /// to itself alone.
    pub fn entails(&self, a: &Val, b: &Val) -> bool
        ensures { IsTrue result ↔ Entails self.now a.now b.now }
    {
        self.forest.are_same(a, b)
    }

    /// Links that lead from the one value to the other; `None` where the product's equalities do not entail that they are equal. Through calls in
    /// calls they may be exponentially many, so `route` counts them first. They are made by recursion, a level for each call on the way.
    pub fn chain(&self, alloc: Global, a: &Val, b: &Val) -> Result<Option<List<Link>>, NoMemory>
        ensures { IfOk result (λ found. IsChain self.now a.now b.now found) }
    {
        if !self.forest.are_same(a, b) {
            return Ok(None);
        }
        Ok(Some(self.forest.links(alloc, a, b)?))
    }

    /// The chain from the one value to the other, counted and not made yet; `None` where the product's equalities do not entail that they are equal.
    /// A value is 0 links away from itself. Else each call of this counts the links of all edges anew, which may take quadratic time, as `routes` says.
    /// Where several chains are wanted, `routes` counts them once.
    pub fn route<'c>(
        &'c self,
        alloc: Global,
        a: &'c Val,
        b: &'c Val,
    ) -> Result<Option<Route<'c, 'a>>, NoMemory>
        ensures { IfOk result (λ found. MatchOption found (Entails self.now a.now b.now → ⊥) (λ route. IsFrom route self.now a.now b.now)) }
    {
        if !self.forest.are_same(a, b) {
            return Ok(None);
        }
        let route = Route::between(alloc, self.product, &self.forest, a, b)?;
        Ok(Some(route))
    }

    /// The chains between values, counted and not made yet, by numbers of links that are counted once for all of them. Counting walks the way between
    /// the arguments of every two calls that were joined, so it is quadratic where many calls were joined to one whose arguments are far from theirs:
    /// of 10,000 calls `F(f_i)` of a chain `f_0 = .. = f_9999` it takes some 5 * 10^7 hops. `chain` does not count.
    pub fn routes<'c>(&'c self, alloc: Global) -> Result<Routes<'c, 'a>, NoMemory>
        ensures { IfOk result (λ routes. routes ≡ self.now) }
    {
        Routes::among(alloc, self.product, &self.forest)
    }
}

impl<'a> Forest<'a> {
    /// Whether both are one value, or joined.
    pub fn are_same(&self, a: &Val, b: &Val) -> bool
        requires { IsTree self.now }
        ensures { IsTrue result ↔ AreSame (seen self.now) a.now b.now }
    {
        same_value(a, b) || self.are_joined(a, b)
    }

    fn are_joined(&self, a: &Val, b: &Val) -> bool
        requires { IsTree self.now }
        ensures { IsTrue result ↔ Joined self.now.values.keys (label_now (seen self.now)) a.now b.now }
    {
        match (self.find(a), self.find(b)) {
            (Some(left), Some(right)) => self.class_of(left) == self.class_of(right),
            _ => false,
        }
    }
}
