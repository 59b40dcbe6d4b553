//! The limits that a proof keeps, told of the derivation that it is to be the text of.
ghost use Rattle.std.specs.Prelude.{◌↔◌, ◌≤◌, IsTrue, MatchBool, length};
ghost use Rattle.data_model.specs.Lists.{Each};
ghost use Rattle.proof_check.specs.Limits.{IsWithin, SidesAreSmall};
ghost use Rattle.proof_text.specs.Written.{IsSmall, IsWritable, proof_text};
ghost use Rattle.u_moves.specs.Derivations.{IsSound};
ghost use Rattle.u_prover.specs.Proving.{IsSmallStep, KeepsCounts, KeepsLimits, PassesOne, most_proof_bytes};
ghost use Rattle.u_terms.specs.Size as size;

use proof_text::proof_bytes;
use u_deriv::Step;
use u_moves::Deriv;
use u_rules::{Arg, Rule, Sizes, sizes};
use u_terms::{Facts, Val, depth, nodes, value_depth, value_nodes};

/// The most steps.
const MOST_STEPS: usize = 1_000_000;

/// The most nodes of a term.
const MOST_NODES: u64 = 200_000;

/// The greatest depth of a term.
const MOST_DEPTH: u64 = 2_048;

/// The most bytes of a proof.
const MOST_BYTES: u64 = 1_073_741_824;

/// Whether the derivation's proof keeps each limit. One with inner steps is not told to.
pub fn keeps_limits(d: &Deriv<'_>) -> bool
    ensures exact { MatchBool result (KeepsLimits d.now) (PassesOne d.now) }
    ensures sound { IsSound d.now }
{
    keeps_counts(d) && has_short_text(d)
}

// Whether it keeps the limits that are seen without its text.
fn keeps_counts(d: &Deriv<'_>) -> bool
    ensures exact { IsTrue result ↔ KeepsCounts d.now }
    ensures sound { IsSound d.now }
{
    d.steps().len() <= MOST_STEPS
        && is_within(d.nodes(), d.depth())
        && are_small(d.facts(), d.steps().as_slice())
}

// Whether the text of the proof is within its length. This walks all steps.
fn has_short_text(d: &Deriv<'_>) -> bool
    requires { KeepsCounts d.now }
    ensures exact { IsTrue result ↔ (length (proof_text d.now.outs d.now.steps) ≤ most_proof_bytes) }
    ensures writable { Each IsWritable d.now.steps }
{
    proof_bytes(d.outs(), d.steps()) <= MOST_BYTES
}

// Whether no step has inner steps, or an argument or a side that passes a limit.
fn are_small(facts: &Facts, steps: &[Step]) -> bool
    ensures { IsTrue result ↔ Each (IsSmallStep facts.now) steps.now }
{
    for step in steps {
        if !is_small_step(facts, step) {
            return false;
        }
    }
    true
}

fn is_small_step(facts: &Facts, step: &Step) -> bool
    ensures { IsTrue result ↔ IsSmallStep facts.now step.now }
{
    step.rule != Rule::SqFix
        && are_small_arguments(step.args.as_slice())
        && are_small_sides(sizes(facts, step.rule, step.args.as_slice()))
}

fn are_small_sides(sizes: Sizes) -> bool
    ensures { IsTrue result ↔ SidesAreSmall sizes }
{
    is_within(sizes.left_nodes, sizes.left_depth) && is_within(sizes.right_nodes, sizes.right_depth)
}

fn are_small_arguments(arguments: &[Arg]) -> bool
    ensures { IsTrue result ↔ Each IsSmall arguments.now }
{
    for argument in arguments {
        if !is_small_argument(argument) {
            return false;
        }
    }
    true
}

fn is_small_argument(argument: &Arg) -> bool
    ensures { IsTrue result ↔ IsSmall argument.now }
{
    match argument {
        Arg::Term(u) | Arg::Body(u) => is_within(nodes(u), depth(u)),
        Arg::Value(value) => is_within(value_nodes(value), value_depth(value)),
        Arg::Values(values) => are_small_values(values.as_slice()),
        Arg::Num(_) => true,
    }
}

fn are_small_values(values: &[Val]) -> bool
    ensures { IsTrue result ↔ IsWithin (size.list_nodes values.now) (size.list_depth values.now) }
{
    let mut nodes: u64 = 0;
    let mut depth: u64 = 0;
    for value in values {
        nodes = nodes.saturating_add(value_nodes(value));
        depth = depth.max(value_depth(value));
    }
    is_within(nodes, depth)
}

// Whether so many nodes and this depth keep the limits of a term.
fn is_within(nodes: u64, depth: u64) -> bool
    ensures { IsTrue result ↔ IsWithin nodes depth }
{
    nodes <= MOST_NODES && depth <= MOST_DEPTH
}
