//! Lines of steps, written.
ghost use Rattle.std.specs.Prelude.{◌≡◌, ◌≤◌, ◌++◌, codes, length};
ghost use Rattle.std.specs.List.{flat_map};
ghost use Rattle.data_model.specs.Lists.{Each};
ghost use Rattle.u_deriv.specs.declared.step.Step.{out-Step};
ghost use Rattle.u_deriv.specs.Normal.{IsCounted};
ghost use Rattle.u_deriv.specs.StepText.{argument_text, arguments_text, counted, direction_text, head_text, run_text, step_text, steps_text};
ghost use Rattle.proof_text.specs.Sent.{Writes};
ghost use Rattle.proof_text.specs.Words.{ArgumentHasWords, RunHasWord};
ghost use Rattle.proof_text.specs.RuleNames.{kinds_of};
ghost use Rattle.proof_text.specs.Written.{AreOf, FitsRule, HasLine, IsWritable};

use crate::kinds::has_inner;
use crate::names::name_of;
use crate::pending::{Pending, put, put_number};
use crate::term_writer::{put_numbered, put_term, put_value, put_values};
use u_deriv::{Run, Step};
use u_rules::Arg;
use udp_io::Sink;

// A letter, and how often it counts where that is not once.
fn put_turns<K: Sink>(out: &mut K, pending: &mut Pending, letter: &str, count: u32)
    requires { length letter.now ≤ 40 }
    ensures { Writes (K.written out.old) (K.written out.new) (K.faults out.old) (K.faults out.new) pending.old
        (letter.now ++ counted count) pending.new }
{
    if count == 1 {
        put(out, pending, letter)
    } else {
        put_numbered(out, pending, letter, count)
    }
}

fn put_run<K: Sink>(out: &mut K, pending: &mut Pending, run: Run)
    requires { IsCounted run }
    ensures writes { Writes (K.written out.old) (K.written out.new) (K.faults out.old) (K.faults out.new) pending.old
        (run_text run) pending.new }
    ensures word { RunHasWord run }
{
    match run {
        Run::Left(count) => put_turns(out, pending, "l", count),
        Run::Right(count) => put_turns(out, pending, "r", count),
        Run::Inside(count) => put_turns(out, pending, "i", count),
        Run::Argument(index) => put_numbered(out, pending, "a", index),
    }
}

fn put_runs<K: Sink>(out: &mut K, pending: &mut Pending, runs: &[Run])
    requires { Each IsCounted runs.now }
    ensures writes { Writes (K.written out.old) (K.written out.new) (K.faults out.old) (K.faults out.new) pending.old
        (flat_map run_text runs.now) pending.new }
    ensures words { Each RunHasWord runs.now }
{
    for run in runs {
        put_run(out, pending, *run);
    }
}

fn put_argument<K: Sink>(out: &mut K, pending: &mut Pending, argument: &Arg)
    ensures writes { Writes (K.written out.old) (K.written out.new) (K.faults out.old) (K.faults out.new) pending.old
        (argument_text argument.now) pending.new }
    ensures words { ArgumentHasWords argument.now }
{
    match argument {
        Arg::Term(term) => put_term(out, pending, term),
        Arg::Body(body) => put_term(out, pending, body),
        Arg::Value(value) => put_value(out, pending, value),
        Arg::Values(values) => put_values(out, pending, values.as_slice()),
        Arg::Num(number) => put_number(out, pending, *number),
    }
}

fn put_arguments<K: Sink>(out: &mut K, pending: &mut Pending, arguments: &[Arg])
    ensures writes { Writes (K.written out.old) (K.written out.new) (K.faults out.old) (K.faults out.new) pending.old
        (arguments_text arguments.now) pending.new }
    ensures words { Each ArgumentHasWords arguments.now }
{
    for argument in arguments {
        put(out, pending, " ");
        put_argument(out, pending, argument);
    }
}

// The sign of a direction, with the spaces round it.
fn arrow(forward: bool) -> &'static str
    ensures text { result.now ≡ codes " " ++ (direction_text forward ++ codes " ") }
    ensures short { length result.now ≤ 40 }
{
    if forward { " > " } else { " < " }
}

// The line of a step up to the end of its arguments.
fn put_head<K: Sink>(out: &mut K, pending: &mut Pending, step: &Step)
    requires { let d = out-Step step.now in AreOf (kinds_of d.rule) d.args }
    ensures writes { let d = out-Step step.now in
        Writes (K.written out.old) (K.written out.new) (K.faults out.old) (K.faults out.new) pending.old
        (head_text d.path d.forward d.rule d.args) pending.new }
    ensures line { let d = out-Step step.now in HasLine d.path d.rule d.args }
{
    put(out, pending, "/");
    put_runs(out, pending, step.path.runs());
    put(out, pending, arrow(step.forward));
    put(out, pending, name_of(step.rule));
    put_arguments(out, pending, step.args.as_slice());
}

/// The inner steps.
pub fn inner_of(step: &Step) -> &[Step]
    requires { FitsRule step.now }
    ensures lent { result.now ≡ (out-Step step.now).inner }
    ensures fit { Each FitsRule result.now }
{
    step.inner.as_slice()
}

// The lines of a step.
#[cycle(put_steps)]
fn put_step<K: Sink>(out: &mut K, pending: &mut Pending, step: &Step)
    requires fits { FitsRule step.now }
    ensures writes { Writes (K.written out.old) (K.written out.new) (K.faults out.old) (K.faults out.new) pending.old
        (step_text step.now) pending.new }
    ensures writable { IsWritable step.now }
{
    put_head(out, pending, step);
    if has_inner(step.rule) {
        put(out, pending, " {\n");
        put_steps(out, pending, inner_of(step));
        put(out, pending, "}\n")
    } else {
        put(out, pending, "\n")
    }
}

/// Writes the lines of steps.
#[cycle(put_steps)]
pub fn put_steps<K: Sink>(out: &mut K, pending: &mut Pending, steps: &[Step])
    requires fit { Each FitsRule steps.now }
    ensures writes { Writes (K.written out.old) (K.written out.new) (K.faults out.old) (K.faults out.new) pending.old
        (steps_text steps.now) pending.new }
    ensures writable { Each IsWritable steps.now }
{
    for step in steps {
        put_step(out, pending, step);
    }
}
