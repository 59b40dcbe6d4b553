//! From a mark to the same mark of other points, where the equalities of a product entail that each is equal to the one in its place: the
//! chains that lead there, counted before any is made.
ghost use Rattle.std.specs.Prelude.{◌≡◌, ◌∷◌, [], IfOk, MatchOption, length};
ghost use Rattle.u_equal.specs.Links.{told};
ghost use Rattle.u_rules.specs.Terms.{◌≐◌, P};
ghost use Rattle.u_entail.specs.Carrying.{AreEntailed, AreFew, AreMarkPairs, ArePaired, AreShortCourses, Follows, IsDifferencePaired, IsExchangedPaired, IsMarkFrom, IsMarkPaired, IsPaired, LeadAlong, PairsEither, links_of};
ghost use Rattle.u_entail.specs.Carrying as spec;

use crate::NoMemory;
use std::alloc::Global;
use std::marker::Model;
use u_equal::{Classes, Route};
use u_terms::{U, Val};

/// Chains from the points of a mark to those of a wanted one that are not made yet, and how many links they have. Through calls in calls they
/// may be exponentially many. Counting them walks as `Classes::routes` does, in quadratic time where many calls were joined to one whose arguments
/// are far from theirs; `copy_mark` does not count. Contracts see them as the product, both marks and that number.
#[derive(Drop)]
pub struct MarkRoute<'c, 'a> {
    classes: &'c Classes<'a>,
    pub(crate) mark: &'c U,
    wanted: &'c U,
    pub(crate) exchanged: bool,
    pub(crate) points: Vec<Route<'c, 'a>>,
    links: u64,
}

impl<'c, 'a> Model for MarkRoute<'c, 'a> {
    ghost use Rattle.std.specs.Coded.{codes};
    ghost use Rattle.u_terms.specs.contracts.term.U as term_type;
    ghost use Rattle.u_entail.specs.Carrying.{IsMarkRoute, MarkCourse};

    ghost Value = { MarkCourse };

    ghost coded = { Prim.hlevel (codes, term_type.the_row.coded) };

    ghost view = { λ route. record { product = route.classes.now; mark = route.mark.now; wanted = route.wanted.now; links = route.links } };

    ghost invariant = { λ route. IsMarkRoute route.classes.now route.mark.now route.wanted.now route.exchanged route.points.items route.links };
}

/// A point of a mark, and the one in its place, which is equal to it.
#[derive(Clone, Copy)]
pub struct Pair<'c> {
    pub from: &'c Val,
    pub to: &'c Val,
}

/// The points of a mark, each paired with that of the wanted one in its place.
#[derive(Drop)]
pub struct MarkPairs<'c> {
    pub mark: &'c U,
    /// Whether it is a negated equality, and its points stand here with its sides exchanged.
    pub exchanged: bool,
    pub points: Vec<Pair<'c>>,
}

impl<'c> MarkPairs<'c> {
    /// The pairs of points; `None` where the wanted mark does not follow. The sides of a negated equality may be exchanged.
    pub fn of(
        alloc: Global,
        classes: &Classes<'_>,
        mark: &'c U,
        wanted: &'c U,
    ) -> Result<Option<MarkPairs<'c>>, NoMemory>
        ensures { IfOk result (λ found. MatchOption found (Follows classes.now mark.now wanted.now → ⊥) (λ pairs. AreMarkPairs classes.now mark.now wanted.now pairs)) }
    {
        let mut points = Vec::new(alloc);
        if push_mark(classes, mark, wanted, &mut points)? {
            return Ok(Some(MarkPairs {
                mark,
                exchanged: false,
                points,
            }));
        }
        let mut points = Vec::new(alloc);
        if push_difference(classes, mark, wanted, &mut points)? {
            return Ok(Some(MarkPairs {
                mark,
                exchanged: true,
                points,
            }));
        }
        Ok(None)
    }
}

impl<'c, 'a> MarkRoute<'c, 'a> {
    /// The chains from the points of the mark to those of the wanted one; `None` where this does not follow from the mark. The sides of a negated
    /// equality may be exchanged. Counting takes a walk for each argument of each two calls that the classes joined, once for all points, even
    /// where the chains have no links; it comes after each point is known to be equal to the one in its place.
    pub fn between(
        alloc: Global,
        classes: &'c Classes<'a>,
        mark: &'c U,
        wanted: &'c U,
    ) -> Result<Option<MarkRoute<'c, 'a>>, NoMemory>
        ensures { IfOk result (λ found. MatchOption found (Follows classes.now mark.now wanted.now → ⊥) (λ route. IsMarkFrom route classes.now mark.now wanted.now)) }
    {
        match MarkPairs::of(alloc, classes, mark, wanted)? {
            None => Ok(None),
            Some(pairs) => {
                let points = pairs.points.as_slice();
                let route = MarkRoute::along(
                    alloc,
                    classes,
                    mark,
                    wanted,
                    pairs.exchanged,
                    points,
                )?;
                Ok(Some(route))
            }
        }
    }

    fn along(
        alloc: Global,
        classes: &'c Classes<'a>,
        mark: &'c U,
        wanted: &'c U,
        exchanged: bool,
        pairs: &[Pair<'c>],
    ) -> Result<MarkRoute<'c, 'a>, NoMemory>
        requires { PairsEither classes.now mark.now wanted.now exchanged pairs.now }
        ensures { IfOk result (λ route. IsMarkFrom route classes.now mark.now wanted.now) }
    {
        let points = routes_of(alloc, classes, pairs)?;
        let links = sum_of_links(points.as_slice());
        Ok(MarkRoute {
            classes,
            mark,
            wanted,
            exchanged,
            points,
            links,
        })
    }

    /// How many links the chains have together, those of arguments of calls too, or `u64::MAX` where there are more.
    pub fn links(&self) -> u64
        ensures is { result ≡ self.now.links }
        ensures few { AreFew self.now.product (length (spec.points self.now.wanted)) result }
    {
        self.links
    }
}

// The chains between the points of each pair.
fn routes_of<'c, 'a>(
    alloc: Global,
    classes: &'c Classes<'a>,
    pairs: &[Pair<'c>],
) -> Result<Vec<Route<'c, 'a>>, NoMemory>
    requires { AreEntailed classes.now pairs.now }
    ensures { IfOk result (λ routes. LeadAlong classes.now pairs.now routes.items) }
{
    let counted = classes.routes(alloc)?;
    let mut routes = Vec::with_capacity(alloc, pairs.len())?;
    for pair in pairs {
        let Some(route) = counted.between(alloc, pair.from, pair.to)? else {
            unreachable!()
        };
        routes.push(route)?;
    }
    Ok(routes)
}

fn sum_of_links(routes: &[Route<'_, '_>]) -> u64
    ensures is { result ≡ told (links_of routes.now) }
    ensures few { AreShortCourses routes.now }
{
    let mut total: u64 = 0;
    for route in routes {
        total = total.saturating_add(route.links());
    }
    total
}

// Pushes the pairs of points of the mark and of the wanted one, and answers whether all are equal. If one is not, some pairs may have been
// pushed.
fn push_mark<'c>(
    classes: &Classes<'_>,
    mark: &'c U,
    wanted: &'c U,
    pairs: &mut Vec<Pair<'c>>,
) -> Result<bool, NoMemory>
    ensures { IfOk result (IsMarkPaired classes.now mark.now wanted.now pairs.old.items pairs.new.items) }
{
    match mark {
        U::Pred(symbol, points) => {
            push_predicate(classes, *symbol, points.as_slice(), wanted, pairs)
        }
        U::Eq(a, b) => push_equality(classes, a, b, wanted, pairs),
        U::Not(inner) => match wanted {
            U::Not(other) => push_mark(classes, inner.get(), other.get(), pairs),
            _ => Ok(false),
        },
        _ => Ok(false),
    }
}

fn push_predicate<'c>(
    classes: &Classes<'_>,
    symbol: u32,
    points: &'c [Val],
    wanted: &'c U,
    pairs: &mut Vec<Pair<'c>>,
) -> Result<bool, NoMemory>
    ensures { IfOk result (IsMarkPaired classes.now (P symbol points.now) wanted.now pairs.old.items pairs.new.items) }
{
    match wanted {
        U::Pred(other, others) => {
            if symbol != *other {
                return Ok(false);
            }
            push_points(classes, points, others.as_slice(), pairs)
        }
        _ => Ok(false),
    }
}

fn push_equality<'c>(
    classes: &Classes<'_>,
    a: &'c Val,
    b: &'c Val,
    wanted: &'c U,
    pairs: &mut Vec<Pair<'c>>,
) -> Result<bool, NoMemory>
    ensures { IfOk result (IsMarkPaired classes.now (a.now ≐ b.now) wanted.now pairs.old.items pairs.new.items) }
{
    match wanted {
        U::Eq(c, d) => {
            if !push_point(classes, a, c, pairs)? {
                return Ok(false);
            }
            push_point(classes, b, d, pairs)
        }
        _ => Ok(false),
    }
}

// The same for a negated equality with its sides exchanged.
fn push_difference<'c>(
    classes: &Classes<'_>,
    mark: &'c U,
    wanted: &'c U,
    pairs: &mut Vec<Pair<'c>>,
) -> Result<bool, NoMemory>
    ensures { IfOk result (IsDifferencePaired classes.now mark.now wanted.now pairs.old.items pairs.new.items) }
{
    match mark {
        U::Not(inner) => match wanted {
            U::Not(other) => push_exchanged(classes, inner.get(), other.get(), pairs),
            _ => Ok(false),
        },
        _ => Ok(false),
    }
}

fn push_exchanged<'c>(
    classes: &Classes<'_>,
    equality: &'c U,
    wanted: &'c U,
    pairs: &mut Vec<Pair<'c>>,
) -> Result<bool, NoMemory>
    ensures { IfOk result (IsExchangedPaired classes.now equality.now wanted.now pairs.old.items pairs.new.items) }
{
    match equality {
        U::Eq(a, b) => push_equality(classes, b, a, wanted, pairs),
        _ => Ok(false),
    }
}

fn push_points<'c>(
    classes: &Classes<'_>,
    xs: &'c [Val],
    ys: &'c [Val],
    pairs: &mut Vec<Pair<'c>>,
) -> Result<bool, NoMemory>
    ensures { IfOk result (ArePaired classes.now xs.now ys.now pairs.old.items pairs.new.items) }
{
    if xs.len() != ys.len() {
        return Ok(false);
    }
    for (k, x) in xs.iter().enumerate() {
        if !push_point(classes, x, &ys[k], pairs)? {
            return Ok(false);
        }
    }
    Ok(true)
}

fn push_point<'c>(
    classes: &Classes<'_>,
    x: &'c Val,
    y: &'c Val,
    pairs: &mut Vec<Pair<'c>>,
) -> Result<bool, NoMemory>
    ensures { IfOk result (IsPaired classes.now x.now y.now pairs.old.items pairs.new.items) }
{
    if !classes.entails(x, y) {
        return Ok(false);
    }
    pairs.push(Pair { from: x, to: y })?;
    Ok(true)
}
