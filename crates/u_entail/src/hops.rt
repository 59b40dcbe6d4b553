//! Chains of links made flat: one step for each equality, at its place, however deep in calls it stands.
ghost use Rattle.std.specs.Prelude.{◌≡◌, ◌∷◌, [], ◌++◌, IfOk, OnOk};
ghost use Rattle.u_entail.specs.Carrying.{AlongCourses, AlongPairs, AreEntailed, PushesChain, PushesRoute};
ghost use Rattle.u_equal.specs.Entails.{Entails};
ghost use Rattle.u_entail.specs.Hops.{AreHops, PushesHops, PushesPairHops};

use crate::NoMemory;
use crate::carrying::Pair;
use std::alloc::Global;
use u_equal::{Classes, Link, Route};
use u_terms::{List, Val};

/// A step: at the place one side of this factor, an equality, becomes the other, the left one the right one or, turned, back.
#[derive(Drop)]
pub struct Hop {
    /// The numbers of the arguments on the way.
    pub place: List<usize>,
    pub factor: u32,
    pub turned: bool,
}

/// The steps of the links at a place.
pub fn hops_at(alloc: Global, links: &[Link], place: &[usize]) -> Result<Vec<Hop>, NoMemory>
    ensures { IfOk result (λ hops. AreHops place.now links.now hops.items) }
{
    let mut hops = Vec::new(alloc);
    push_hops(alloc, links, place, &mut hops)?;
    Ok(hops)
}

/// The steps along the chains of the points of a mark, one chain for each.
pub fn hops_along(alloc: Global, routes: &[Route<'_, '_>]) -> Result<Vec<Hop>, NoMemory>
    ensures { IfOk result (λ hops. AlongCourses 0 routes.now hops.items) }
{
    let mut hops = Vec::new(alloc);
    for (k, route) in routes.iter().enumerate() {
        push_route(alloc, route, k, &mut hops)?;
    }
    Ok(hops)
}

fn push_route(
    alloc: Global,
    route: &Route<'_, '_>,
    argument: usize,
    hops: &mut Vec<Hop>,
) -> Result<(), NoMemory>
    ensures { OnOk result (PushesRoute argument route.now hops.old.items hops.new.items) }
{
    let links = route.chain(alloc)?;
    push_hops(alloc, links.as_slice(), &[argument], hops)
}

/// The steps along the chains between the points of each pair. Nothing counts their links before they are made.
pub fn hops_between(
    alloc: Global,
    classes: &Classes<'_>,
    pairs: &[Pair<'_>],
) -> Result<Vec<Hop>, NoMemory>
    requires { AreEntailed classes.now pairs.now }
    ensures { IfOk result (λ hops. AlongPairs classes.now 0 pairs.now hops.items) }
{
    let mut hops = Vec::new(alloc);
    for (k, pair) in pairs.iter().enumerate() {
        push_chain(alloc, classes, pair.from, pair.to, k, &mut hops)?;
    }
    Ok(hops)
}

fn push_chain(
    alloc: Global,
    classes: &Classes<'_>,
    from: &Val,
    to: &Val,
    argument: usize,
    hops: &mut Vec<Hop>,
) -> Result<(), NoMemory>
    requires { Entails classes.now from.now to.now }
    ensures { OnOk result (PushesChain argument classes.now from.now to.now hops.old.items hops.new.items) }
{
    let Some(links) = classes.chain(alloc, from, to)? else {
        unreachable!()
    };
    push_hops(alloc, links.as_slice(), &[argument], hops)
}

// The steps of the links at a place, behind those that are there.
#[cycle(flatten)]
fn push_hops(
    alloc: Global,
    links: &[Link],
    place: &[usize],
    hops: &mut Vec<Hop>,
) -> Result<(), NoMemory>
    ensures { OnOk result (PushesHops place.now links.now hops.old.items hops.new.items) }
{
    for link in links {
        push_link(alloc, link, place, hops)?;
    }
    Ok(())
}

#[cycle(flatten)]
fn push_link(
    alloc: Global,
    link: &Link,
    place: &[usize],
    hops: &mut Vec<Hop>,
) -> Result<(), NoMemory>
    ensures { OnOk result (PushesHops place.now (link.now ∷ []) hops.old.items hops.new.items) }
{
    match link {
        Link::Given { factor, turned } => push_given(alloc, *factor, *turned, place, hops),
        Link::Call { pairs } => push_pairs(alloc, pairs.as_slice(), place, hops),
    }
}

fn push_given(
    alloc: Global,
    factor: u32,
    turned: bool,
    place: &[usize],
    hops: &mut Vec<Hop>,
) -> Result<(), NoMemory>
    ensures { OnOk result (hops.new.items ≡ hops.old.items ++ record { place = place.now; factor = factor; turned = turned } ∷ []) }
{
    let place = place.to_vec(alloc)?;
    Ok(hops.push(Hop {
        place: List::from_vec(place),
        factor,
        turned,
    })?)
}

#[cycle(flatten)]
fn push_pairs(
    alloc: Global,
    pairs: &[List<Link>],
    place: &[usize],
    hops: &mut Vec<Hop>,
) -> Result<(), NoMemory>
    ensures { OnOk result (PushesPairHops place.now pairs.now hops.old.items hops.new.items) }
{
    for (k, links) in pairs.iter().enumerate() {
        let inner = argument_place(alloc, place, k)?;
        push_hops(alloc, links.as_slice(), inner.as_slice(), hops)?;
    }
    Ok(())
}

// The place of an argument of the call at the place.
fn argument_place(alloc: Global, place: &[usize], argument: usize) -> Result<Vec<usize>, NoMemory>
    ensures { IfOk result (λ inner. inner.items ≡ place.now ++ argument ∷ []) }
{
    let mut inner = Vec::with_capacity(alloc, place.len().saturating_add(1))?;
    inner.extend_from_slice(place)?;
    inner.push(argument)?;
    Ok(inner)
}
