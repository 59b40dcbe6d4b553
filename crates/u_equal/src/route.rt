//! Chains that are counted and not made yet.
ghost use Rattle.std.specs.Prelude.{◌≡◌, ◌≤◌, IfOk, MatchOption, Some, count_by};
ghost use Rattle.u_rules.specs.Terms.{mul_leaves};
ghost use Rattle.u_equal.specs.Links.{HasNoCall, is_equality};
ghost use Rattle.u_equal.specs.Standing.{standing};
ghost use Rattle.u_equal.specs.Joined.{AreClasses, AreSame, seen};
ghost use Rattle.u_equal.specs.Entails.{Entails};
ghost use Rattle.u_equal.specs.LinkCounts.{IsRoute};
ghost use Rattle.u_equal.specs.Routes.{AreCounted, IsChain, IsFrom, IsWithin};

use crate::NoMemory;
use crate::forest::Forest;
use crate::link::Link;
use std::alloc::Global;
use std::marker::Model;
use u_terms::{List, U, Val};

/// A chain of links between two values of a product that is not made yet, and how many links it has. Through calls in calls they may be
/// exponentially many. Contracts see it as the product, both values and that number.
#[derive(Drop)]
pub struct Route<'c, 'a> {
    product: &'c U,
    forest: &'c Forest<'a>,
    from: &'c Val,
    to: &'c Val,
    links: u64,
}

impl<'c, 'a> Model for Route<'c, 'a> {
    ghost use Rattle.std.specs.Coded.{codes};
    ghost use Rattle.u_terms.specs.contracts.term.U as term_type;
    ghost use Rattle.u_terms.specs.contracts.term.Val as val_type;
    ghost use Rattle.u_equal.specs.Routes.{Course};
    ghost use Rattle.u_equal.specs.LinkCounts.{IsRoute};

    ghost Value = { Course };

    ghost coded = { Prim.hlevel (codes, term_type.the_row.coded, val_type.the_row.coded) };

    ghost view = { λ route. record { product = route.product.now; from = route.from.now; to = route.to.now; links = route.links } };

    ghost invariant = { λ route. IsRoute route.product.now route.forest.now route.from.now route.to.now route.links };
}

/// The chains between the values of a product, not made yet: the links of all edges are counted once for all of them. Contracts see the product.
#[derive(Drop)]
pub struct Routes<'c, 'a> {
    product: &'c U,
    forest: &'c Forest<'a>,
    // How many links each edge stands for.
    numbers: Vec<u64>,
}

impl<'c, 'a> Model for Routes<'c, 'a> {
    ghost use Rattle.std.specs.Coded.{codes};
    ghost use Rattle.u_terms.specs.Syntax.{U as TheU};
    ghost use Rattle.u_terms.specs.contracts.term.U as term_type;
    ghost use Rattle.u_equal.specs.LinkCounts.{AreRoutes};

    ghost Value = { TheU };

    ghost coded = { Prim.hlevel (codes, term_type.the_row.coded) };

    ghost view = { λ routes. routes.product.now };

    ghost invariant = { λ routes. AreRoutes routes.product.now routes.forest.now routes.numbers.items };
}

impl<'c, 'a> Routes<'c, 'a> {
    /// Counts the links of all edges.
    pub(crate) fn among(
        alloc: Global,
        product: &'c U,
        forest: &'c Forest<'a>,
    ) -> Result<Routes<'c, 'a>, NoMemory>
        requires { AreClasses product.now forest.now }
        ensures { IfOk result (λ routes. routes ≡ product.now) }
    {
        let numbers = forest.numbers(alloc)?;
        Ok(Routes {
            product,
            forest,
            numbers,
        })
    }

    /// The chain from the one value to the other, counted and not made yet; `None` where the product's equalities do not entail that they are equal.
    pub fn between(
        &self,
        alloc: Global,
        from: &'c Val,
        to: &'c Val,
    ) -> Result<Option<Route<'c, 'a>>, NoMemory>
        ensures { IfOk result (λ found. MatchOption found (Entails self.now from.now to.now → ⊥) (λ route. IsFrom route self.now from.now to.now)) }
    {
        if !self.forest.are_same(from, to) {
            return Ok(None);
        }
        let numbers = self.numbers.as_slice();
        let links = self.forest.count_links_by(alloc, numbers, from, to)?;
        let route = Route::counted(self.product, self.forest, from, to, links);
        Ok(Some(route))
    }
}

impl<'c, 'a> Route<'c, 'a> {
    /// The way between two values of one class.
    pub(crate) fn between(
        alloc: Global,
        product: &'c U,
        forest: &'c Forest<'a>,
        from: &'c Val,
        to: &'c Val,
    ) -> Result<Route<'c, 'a>, NoMemory>
        requires classes { AreClasses product.now forest.now }
        requires same { AreSame (seen forest.now) from.now to.now }
        ensures { IfOk result (λ route. IsFrom route product.now from.now to.now) }
    {
        let links = forest.count_links(alloc, from, to)?;
        Ok(Route::counted(product, forest, from, to, links))
    }

    // The way with so many links.
    fn counted(
        product: &'c U,
        forest: &'c Forest<'a>,
        from: &'c Val,
        to: &'c Val,
        links: u64,
    ) -> Route<'c, 'a>
        requires { IsRoute product.now forest.now from.now to.now links }
        ensures { IsFrom result product.now from.now to.now }
    {
        Route {
            product,
            forest,
            from,
            to,
            links,
        }
    }

    /// How many links the chain has, those of arguments of calls too, or `u64::MAX` where there are more.
    pub fn links(&self) -> u64
        ensures is { result ≡ self.now.links }
        ensures few { HasNoCall (standing self.now.product) → result ≤ count_by is_equality (mul_leaves self.now.product) }
    {
        self.links
    }

    /// Makes the chain, however many links it has.
    pub fn chain(&self, alloc: Global) -> Result<List<Link>, NoMemory>
        ensures leads { IfOk result (λ links. IsChain self.now.product self.now.from self.now.to (Some links)) }
        ensures counted { IfOk result (λ links. AreCounted links self.now.links) }
    {
        self.forest.links(alloc, self.from, self.to)
    }

    /// Makes the chain, unless it has more than `most` links: then nothing is made, and the answer is `None`.
    pub fn chain_within(&self, alloc: Global, most: u64) -> Result<Option<List<Link>>, NoMemory>
        ensures { IfOk result (λ found. IsWithin self.now most found) }
    {
        if self.links > most {
            return Ok(None);
        }
        let links = self.chain(alloc)?;
        Ok(Some(links))
    }
}
