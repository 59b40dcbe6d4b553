//! How many bytes the text of a proof has. Each count stops at the last value of a `u64`.
ghost use Rattle.std.specs.Prelude.{◌≡◌, ◌≤◌, ◌<◌, ◌+◌, ◌^◌, [], decimal, length, min};
ghost use Rattle.std.specs.List.{flat_map};
ghost use Rattle.data_model.specs.Lists.{Each};
ghost use Rattle.u_rules.specs.declared.rule.Arg.TheVariants.{Values};
ghost use Rattle.u_deriv.specs.Normal.{IsCounted};
ghost use Rattle.u_deriv.specs.declared.step.Step.{out-Step};
ghost use Rattle.u_deriv.specs.StepText.{argument_text, arguments_text, counted, head_text, lines_length, run_text, step_text, term_text, value_text};
ghost use Rattle.proof_text.specs.RuleNames.{kinds_of};
ghost use Rattle.proof_text.specs.Words.{ArgumentHasWords, HasWords, RunHasWord, ValueHasWords};
ghost use Rattle.proof_text.specs.Written.{AreOf, FitsRule, HasLine, IsWritable, proof_text};

use crate::kinds::has_inner;
use crate::names::name_of;
use crate::step_writer::inner_of;
use itoa::Buffer;
use u_deriv::{Run, Step};
use u_rules::Arg;
use u_terms::{List, U, Val};

fn digits(number: u32) -> u64
    ensures digits { result ≡ length (decimal number) }
    ensures short { result ≤ 40 }
    ensures word { number < 2 ^ 32 }
{
    Buffer::new().format(number).len() as u64
}

#[cycle(term_length)]
#[tactic(auto, using(crate::proofs::writing::LongTexts::length_at))]
fn term_length(term: &U) -> u64
    ensures length { result ≡ min (length (term_text term.now)) u64.MAX }
    ensures words { HasWords term.now }
{
    match term {
        U::Zero | U::One => 1,
        U::Add(left, right) | U::Mul(left, right) => term_length(left.get())
            .saturating_add(term_length(right.get()))
            .saturating_add(4),
        U::Squash(part) | U::Not(part) | U::Sum(part) => term_length(part.get()).saturating_add(3),
        U::Rel(number, values) | U::Pred(number, values) => {
            values_length(values.as_slice()).saturating_add(1 + digits(*number))
        }
        U::Eq(left, right) => value_length(left)
            .saturating_add(value_length(right))
            .saturating_add(4),
    }
}

#[cycle(term_length)]
#[tactic(auto, using(crate::proofs::writing::LongTexts::length_at))]
fn value_length(value: &Val) -> u64
    ensures length { result ≡ min (length (value_text value.now)) u64.MAX }
    ensures words { ValueHasWords value.now }
{
    match value {
        Val::Bound(number) | Val::Free(number) | Val::Lit(number) => 1 + digits(*number),
        Val::Fun(number, values) => {
            values_length(values.as_slice()).saturating_add(1 + digits(*number))
        }
        Val::Agg(number, body) => term_length(body.get()).saturating_add(3 + digits(*number)),
    }
}

// A parenthesis or a comma stands before each value, and a parenthesis behind all.
#[cycle(term_length)]
#[tactic(auto, using(crate::proofs::writing::LongTexts::length_at))]
fn values_length(values: &[Val]) -> u64
    ensures length { result ≡ min (length (argument_text (Values values.now))) u64.MAX }
    ensures words { Each ValueHasWords values.now }
{
    if values.is_empty() {
        return 2;
    }
    let mut sum: u64 = 1;
    for value in values {
        sum = sum.saturating_add(value_length(value)).saturating_add(1);
    }
    sum
}

fn turns_length(count: u32) -> u64
    ensures digits { result ≡ length (counted count) }
    ensures short { result ≤ 40 }
    ensures word { count < 2 ^ 32 }
{
    if count == 1 { 0 } else { digits(count) }
}

fn run_length(run: Run) -> u64
    requires { IsCounted run }
    ensures length { result ≡ length (run_text run) }
    ensures word { RunHasWord run }
{
    match run {
        Run::Left(count) | Run::Right(count) | Run::Inside(count) => 1 + turns_length(count),
        Run::Argument(index) => 1 + digits(index),
    }
}

#[tactic(auto, using(crate::proofs::writing::LongTexts::length_at))]
fn runs_length(runs: &[Run]) -> u64
    requires { Each IsCounted runs.now }
    ensures length { result ≡ min (length (flat_map run_text runs.now)) u64.MAX }
    ensures words { Each RunHasWord runs.now }
{
    let mut sum: u64 = 0;
    for run in runs {
        sum = sum.saturating_add(run_length(*run));
    }
    sum
}

fn argument_length(argument: &Arg) -> u64
    ensures length { result ≡ min (length (argument_text argument.now)) u64.MAX }
    ensures words { ArgumentHasWords argument.now }
{
    match argument {
        Arg::Term(term) | Arg::Body(term) => term_length(term),
        Arg::Value(value) => value_length(value),
        Arg::Values(values) => values_length(values.as_slice()),
        Arg::Num(number) => digits(*number),
    }
}

// A space stands before each argument.
#[tactic(auto, using(crate::proofs::writing::LongTexts::length_at))]
fn arguments_length(arguments: &[Arg]) -> u64
    ensures length { result ≡ min (length (arguments_text arguments.now)) u64.MAX }
    ensures words { Each ArgumentHasWords arguments.now }
{
    let mut sum: u64 = 0;
    for argument in arguments {
        sum = sum
            .saturating_add(argument_length(argument))
            .saturating_add(1);
    }
    sum
}

// Of the line of a step up to the end of its arguments.
#[tactic(auto, using(crate::proofs::writing::LongTexts::length_at))]
fn head_length(step: &Step) -> u64
    requires { let d = out-Step step.now in AreOf (kinds_of d.rule) d.args }
    ensures length { let d = out-Step step.now in result ≡ min (length (head_text d.path d.forward d.rule d.args)) u64.MAX }
    ensures line { let d = out-Step step.now in HasLine d.path d.rule d.args }
{
    runs_length(step.path.runs())
        .saturating_add(arguments_length(step.args.as_slice()))
        .saturating_add(4 + name_of(step.rule).len() as u64)
}

// Of the lines of a step, its inner steps too.
#[cycle(steps_length)]
#[tactic(auto, using(crate::proofs::writing::LongTexts::length_at))]
fn step_length(step: &Step) -> u64
    requires fits { FitsRule step.now }
    ensures length { result ≡ min (length (step_text step.now)) u64.MAX }
    ensures writable { IsWritable step.now }
{
    let head = head_length(step);
    if has_inner(step.rule) {
        head.saturating_add(steps_length(inner_of(step)))
            .saturating_add(5)
    } else {
        head.saturating_add(1)
    }
}

#[cycle(steps_length)]
#[tactic(auto, using(crate::proofs::writing::LongTexts::length_at))]
fn steps_length(steps: &[Step]) -> u64
    requires fit { Each FitsRule steps.now }
    ensures length { result ≡ min (lines_length steps.now) u64.MAX }
    ensures writable { Each IsWritable steps.now }
{
    let mut sum: u64 = 0;
    for step in steps {
        sum = sum.saturating_add(step_length(step));
    }
    sum
}

/// How many bytes `write_proof` writes, or `u64::MAX` where they are more.
#[tactic(auto, using(crate::proofs::writing::LongTexts::length_at))]
pub fn proof_bytes(outs: u32, steps: &List<Step>) -> u64
    requires fit { Each FitsRule steps.now }
    ensures text { result ≡ min (length (proof_text outs steps.now)) u64.MAX }

    // Those of the lines, and of the proof that has none.
    ensures lines { result ≡ min (lines_length steps.now + length (proof_text outs [])) u64.MAX }

    // Each number in the steps has 32 bits, so their lines are as short as `laws` says.
    ensures writable { Each IsWritable steps.now }
{
    steps_length(steps.as_slice()).saturating_add(22 + digits(outs))
}
