//! How many binders there are on a path into a term.
ghost use Rattle.std.specs.Prelude.{◌≡◌, ◌+◌, ◌<◌, ◌≤◌, ◌^◌, option_copied, option_map, slice_get};
ghost use Rattle.u_terms.specs.Size.{depth as depth_of, list_depth, value_depth};
ghost use Rattle.u_deriv.specs.Turns.{turns};
ghost use Rattle.u_deriv.specs.Walk as walks;
ghost use Rattle.u_deriv.specs.Walk.{first_and_rest, on_value, placed, placed_value};
ghost use Rattle.u_moves.specs.Walking.{first_turn};

use crate::runs::run_count;
use std::marker::Model;
use u_deriv::{Path, Place, Run};
use u_terms::{List, U, Val};

/// The binders on the path, as far as it leads into the term.
pub fn binders_on(u: &U, path: &Path) -> u32
    requires shallow { depth_of u.now < 2 ^ 32 }
    ensures { result ≡ (placed (turns path.now) walks.root u.now).binders }
{
    let root = Place {
        binders: 0,
        turns: 0,
    };
    walk(u, Way::along(path), root).binders
}

#[cycle(walk)]
#[tactic(auto, using(u_terms::proofs::Sizes::depth_at))]
fn walk(u: &U, way: Way<'_>, place: Place) -> Place
    requires shallow { place.turns + depth_of u.now < 2 ^ 32 }
    requires bound { place.binders ≤ place.turns }
    ensures { result ≡ placed way.entry place u.now }
{
    match way.next() {
        None => place,
        Some((run, rest)) => match run {
            Run::Left(_) => match u {
                U::Add(a, _) => walk(a.get(), rest, next(place)),
                U::Mul(a, _) => walk(a.get(), rest, next(place)),
                _ => next(place),
            },
            Run::Right(_) => match u {
                U::Add(_, b) => walk(b.get(), rest, next(place)),
                U::Mul(_, b) => walk(b.get(), rest, next(place)),
                _ => next(place),
            },
            Run::Inside(_) => match u {
                U::Squash(a) => walk(a.get(), rest, next(place)),
                U::Not(a) => walk(a.get(), rest, next(place)),
                U::Sum(body) => walk(body.get(), rest, under(place)),
                _ => next(place),
            },
            Run::Argument(index) => match u {
                U::Rel(_, args) => walk_argument(args, index, rest, next(place)),
                U::Pred(_, args) => walk_argument(args, index, rest, next(place)),
                U::Eq(a, b) => match index {
                    0 => walk_value(a, rest, next(place)),
                    1 => walk_value(b, rest, next(place)),
                    _ => next(place),
                },
                _ => next(place),
            },
        },
    }
}

#[cycle(walk)]
#[tactic(auto, using(u_terms::proofs::Sizes::depth_at))]
fn walk_value(value: &Val, way: Way<'_>, place: Place) -> Place
    requires shallow { place.turns + value_depth value.now < 2 ^ 32 }
    requires bound { place.binders ≤ place.turns }
    ensures { result ≡ placed_value way.entry place value.now }
{
    match way.next() {
        None => place,
        Some((run, rest)) => match run {
            Run::Inside(_) => match value {
                Val::Agg(_, body) => walk(body.get(), rest, under(place)),
                _ => next(place),
            },
            Run::Argument(index) => match value {
                Val::Fun(_, args) => walk_argument(args, index, rest, next(place)),
                _ => next(place),
            },
            _ => next(place),
        },
    }
}

#[cycle(walk)]
fn walk_argument(args: &List<Val>, index: u32, way: Way<'_>, place: Place) -> Place
    requires shallow { place.turns + list_depth args.now < 2 ^ 32 }
    requires bound { place.binders ≤ place.turns }
    ensures { result ≡ on_value place (placed_value way.entry place) (slice_get args.now index) }
{
    match item(args, index) {
        Some(value) => walk_value(value, way, place),
        None => place,
    }
}

fn item<'a>(values: &'a List<Val>, index: u32) -> Option<&'a Val>
    ensures { option_copied result ≡ slice_get values.now index }
{
    values.as_slice().get(index as usize)
}

// One turn further, into a part that no binder stands before.
fn next(place: Place) -> Place
    requires fits { place.turns + 1 < 2 ^ 32 }
    ensures { result ≡ walks.next place }
{
    Place {
        binders: place.binders,
        turns: place.turns + 1,
    }
}

// One turn further, under a binder.
fn under(place: Place) -> Place
    requires fits { place.turns + 1 < 2 ^ 32 }
    requires bound { place.binders ≤ place.turns }
    ensures { result ≡ walks.under place }
{
    Place {
        binders: place.binders + 1,
        turns: place.turns + 1,
    }
}

/// What is left of a path on a walk, as a list of turns.
#[derive(Drop)]
struct Way<'a> {
    /// How many turns of the first run are behind: fewer than it has.
    passed: u32,
    runs: &'a [Run],
}

impl<'a> Model for Way<'a> {
    ghost use Rattle.std.specs.Prelude.{◌<◌, List, drop};
    ghost use Rattle.data_model.specs.Lists.{Each};
    ghost use Rattle.u_deriv.specs.declared.run.Turn.{Turn};
    ghost use Rattle.u_deriv.specs.Normal.{IsCounted};
    ghost use Rattle.u_deriv.specs.Turns.{turns};
    ghost use Rattle.u_deriv.specs.Walk.{first_count};

    ghost Value = { List Turn };

    ghost view = { λ way. drop way.passed (turns way.runs.now) };

    ghost invariant = { λ way. Each IsCounted way.runs.now × (way.passed < first_count way.runs.now) };
}

impl<'a> Way<'a> {
    fn along(path: &'a Path) -> Way<'a>
        ensures { result ≡ turns path.now }
    {
        Way {
            passed: 0,
            runs: path.runs(),
        }
    }

    // A run of the next turn, and what is left after that turn.
    fn next(self) -> Option<(Run, Way<'a>)>
        ensures { option_map first_turn result ≡ first_and_rest self.entry }
    {
        let Way { passed, runs } = self;
        match runs.split_first() {
            None => None,
            Some((run, rest)) => {
                let run = *run;
                let count = run_count(run);
                let passed = passed + 1;
                if passed < count {
                    return Some((run, Way { passed, runs }));
                }
                let way = Way {
                    passed: 0,
                    runs: rest,
                };
                Some((run, way))
            }
        }
    }
}
