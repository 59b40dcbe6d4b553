//! Steps that are not wanted after they are made: where their sides are two of their arguments, the one is moved to the place of the
//! other, and nothing is copied.
ghost use Rattle.std.specs.Prelude.{◌≡◌, ◌+◌, ◌<◌, ◌≤◌, ◌^◌, ◌∷◌, [], max, length, slice_get, slice_set, MatchOption, Some, IfSome, IsSome, IsPermutation};
ghost use Rattle.u_terms.specs.Size.{depth as depth_of};
ghost use Rattle.u_terms.specs.declared.facts.Facts.{Facts as TheFacts};
ghost use Rattle.u_rules.specs.Measures.{sizes_of};
ghost use Rattle.u_terms.specs.declared.term.U.TheVariants as u;
ghost use Rattle.u_rules.specs.Terms.{leaves};
ghost use Rattle.u_rules.specs.declared.rule.Arg.TheVariants.{Term};
ghost use Rattle.u_deriv.specs.Applying.{IsExchanged, Tells, Writes};
ghost use Rattle.u_deriv.specs.Spending.{Agree, AreNoTwoTerms, IsMeasured, SeesNames, rearranging, term_at, two_terms};
ghost use Rattle.u_deriv.specs.declared.step.Step.{out-Step};

use crate::applying::exchange;
use crate::edit::{Edit, edit_at};
use crate::fault::StepFault;
use crate::outlines::{Outline, outline_term};
use crate::path::Path;
use crate::place::Place;
use crate::step::Step;
use crate::way::Way;
use std::alloc::Global;
use std::mem;
use u_rules::{Arg, Rule, Sizes, same_leaves, sizes};
use u_terms::{Facts, List, U, same};

/// What is known of a step before it is made.
#[derive(Clone, Copy, Debug)]
pub struct Measured {
    /// Of its two sides.
    pub sizes: Sizes,
    /// For `add_ac` and `mul_ac`, the least number that the names of the two terms are below: there is none where the arguments are not
    /// two closed terms.
    pub names: Option<u64>,
}

/// Those of a rule without sides.
const NONE: Measured = Measured {
    sizes: Sizes {
        left_nodes: 0,
        left_depth: 0,
        right_nodes: 0,
        right_depth: 0,
    },
    names: None,
};

/// Measures a step. Each argument of `add_ac` and `mul_ac` is gone through once.
pub fn measure(facts: &Facts, step: &Step) -> Measured
    ensures { IsMeasured facts.now step.now result }
{
    let args = step.args.as_slice();
    match step.rule {
        Rule::AddAc => measure_terms(args),
        Rule::MulAc => measure_terms(args),
        _ => Measured {
            sizes: sizes(facts, step.rule, args),
            names: None,
        },
    }
}

fn measure_terms(args: &[Arg]) -> Measured
    ensures sizes { result.sizes ≡ sizes_of (two_terms args.now) }
    ensures names { SeesNames args.now result.names }
{
    match two_terms(args) {
        Some((left, right)) => of_terms(outline_term(left), outline_term(right)),
        None => NONE,
    }
}

// The arguments, if they are two terms.
fn two_terms<'a>(args: &'a [Arg]) -> Option<(&'a U, &'a U)>
    ensures { MatchOption result (AreNoTwoTerms args.now) (λ both. args.now ≡ Term both.0.now ∷ Term both.1.now ∷ []) }
{
    match args {
        [Arg::Term(left), Arg::Term(right)] => Some((left, right)),
        _ => None,
    }
}

// Of two terms with these outlines.
fn of_terms(left: Outline, right: Outline) -> Measured
    ensures sizes { result.sizes ≡ record { left_nodes = left.nodes; left_depth = left.depth; right_nodes = right.nodes; right_depth = right.depth } }
    ensures names { MatchOption result.names (left.binders ≡ 0 → right.binders ≡ 0 → ⊥) (λ names. (left.binders ≡ 0) × (right.binders ≡ 0) × (names ≡ max left.names right.names)) }
{
    let closed = left.binders == 0 && right.binders == 0;
    Measured {
        sizes: Sizes {
            left_nodes: left.nodes,
            left_depth: left.depth,
            right_nodes: right.nodes,
            right_depth: right.depth,
        },
        names: if closed {
            Some(left.names.max(right.names))
        } else {
            None
        },
    }
}

/// Exchanges the sides of the step's instance at the end of its path, as `exchange` does. The step is used up: what it is afterwards is
/// not said.
pub fn exchange_spending(
    alloc: Global,
    facts: &Facts,
    outs: u32,
    u: &mut U,
    step: &mut Step,
    measured: Measured,
) -> Result<Place, StepFault>
    requires measured { IsMeasured facts.now step.old measured }
    requires shallow { outs + depth_of u.old < 2 ^ 32 }
    requires left_room { outs + depth_of u.old + measured.sizes.left_depth ≤ 2 ^ 32 }
    requires right_room { outs + depth_of u.old + measured.sizes.right_depth ≤ 2 ^ 32 }
    ensures { IsExchanged facts.now outs u.old step.old u.new result }
{
    match step.rule {
        Rule::AddAc => rearrange(alloc, outs, u, step, measured, false),
        Rule::MulAc => rearrange(alloc, outs, u, step, measured, true),
        _ => exchange(alloc, facts, outs, u, step),
    }
}

// A step of `add_ac` or, for a product, of `mul_ac`.
fn rearrange(
    alloc: Global,
    outs: u32,
    u: &mut U,
    step: &mut Step,
    measured: Measured,
    product: bool,
) -> Result<Place, StepFault>
    requires rule { (out-Step step.old).rule ≡ rearranging product }
    requires sizes { measured.sizes ≡ sizes_of (two_terms (out-Step step.old).args) }
    requires names { SeesNames (out-Step step.old).args measured.names }
    requires shallow { outs + depth_of u.old < 2 ^ 32 }
    requires left_room { outs + depth_of u.old + measured.sizes.left_depth ≤ 2 ^ 32 }
    requires right_room { outs + depth_of u.old + measured.sizes.right_depth ≤ 2 ^ 32 }
    ensures { (facts : TheFacts) → IsExchanged facts outs u.old step.old u.new result }
{
    let names = match measured.names {
        Some(names) => names,
        None => return Err(StepFault::NoResult),
    };
    match agree(alloc, step.args.as_slice(), product) {
        Ok(true) => {
            if step.forward {
                write(outs, u, &step.path, &mut step.args, 0, 1, names)
            } else {
                write(outs, u, &step.path, &mut step.args, 1, 0, names)
            }
        }
        Ok(false) => Err(StepFault::NoResult),
        Err(fault) => Err(fault),
    }
}

// Whether the arguments are two terms with the same leaves, each as often.
fn agree(alloc: Global, args: &[Arg], product: bool) -> Result<bool, StepFault>
    ensures { Tells (Agree product args.now) result }
{
    match two_terms(args) {
        Some((left, right)) => have_same_leaves(alloc, left, right, product),
        None => Ok(false),
    }
}

fn have_same_leaves(alloc: Global, left: &U, right: &U, product: bool) -> Result<bool, StepFault>
    ensures { Tells (IsPermutation (leaves product left.now) (leaves product right.now)) result }
{
    if same(left, right) {
        return Ok(true);
    }
    Ok(same_leaves(alloc, left, right, product)?)
}

// Writes one argument in the place of another one, and leaves what stood there in its own.
fn write(
    outs: u32,
    u: &mut U,
    path: &Path,
    args: &mut List<Arg>,
    from: usize,
    to: usize,
    names: u64,
) -> Result<Place, StepFault>
    requires from_held { slice_get args.old from ≡ Some (Term (term_at args.old from)) }
    requires to_held { slice_get args.old to ≡ Some (Term (term_at args.old to)) }
    requires apart { from ≡ to → ⊥ }
    requires shallow { outs + depth_of u.old < 2 ^ 32 }
    requires room { outs + depth_of u.old + depth_of (term_at args.old to) ≤ 2 ^ 32 }
    ensures { Writes outs path.now names u.old (term_at args.old from) (term_at args.old to) u.new result }
{
    let mut other = take_term(args, to);
    let result = match term(args.as_slice(), from) {
        Some(from) => put_term(outs, u, path, from, names, &mut other),
        None => Err(StepFault::NoResult),
    };
    give_term(args, to, &mut other);
    result
}

fn put_term(
    outs: u32,
    u: &mut U,
    path: &Path,
    from: &U,
    names: u64,
    other: &mut U,
) -> Result<Place, StepFault>
    requires shallow { outs + depth_of u.old < 2 ^ 32 }
    requires room { outs + depth_of u.old + depth_of other.old ≤ 2 ^ 32 }
    ensures { Writes outs path.now names u.old from.now other.old u.new result }
{
    let edit = Edit::Term { from, names };
    edit_at(u, Way::along(path), Place::root(), outs, &edit, other)
}

// The argument that is this term.
fn term<'a>(args: &'a [Arg], index: usize) -> Option<&'a U>
    requires held { slice_get args.now index ≡ Some (Term (term_at args.now index)) }
    ensures lent { IfSome result (λ term. term.now ≡ term_at args.now index) }
    ensures some { IsSome result }
{
    match args.get(index) {
        Some(Arg::Term(term)) => Some(term),
        _ => None,
    }
}

// Takes the term out of its argument, and leaves 0 there.
fn take_term(args: &mut List<Arg>, index: usize) -> U
    requires held { slice_get args.old index ≡ Some (Term (term_at args.old index)) }
    ensures taken { result ≡ term_at args.old index }
    ensures left { args.new ≡ slice_set args.old index (Term u.Zero) }
{
    match args.at_mut(index) {
        Arg::Term(term) => mem::replace(term, U::Zero),
        _ => U::Zero,
    }
}

// Gives the argument the term, and takes the one that is there.
fn give_term(args: &mut List<Arg>, index: usize, term: &mut U)
    requires { index < length args.old }
{
    match args.at_mut(index) {
        Arg::Term(other) => mem::swap(other, term),
        _ => {}
    }
}
