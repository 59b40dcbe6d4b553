//! A proof of a case is sought and written.
ghost use Rattle.std.specs.Prelude.{◌≡◌};
ghost use Rattle.u_moves.specs.Derivations.{IsKnown};
ghost use Rattle.udp_run.specs.Answer.{Told};
ghost use Rattle.udp_run.specs.Runs.{IsCaseRead};
ghost use Rattle.udp_start.specs.Proving.{IsProving, IsSearched, IsWritten, told_of, unknown};

use case_core::{Case, terms};
use prove_run::{Searched, prove_terms};
use std::alloc::Global;
use u_terms::{Facts, U};
use udp_io::{Sink, Store, write_all};
use udp_run::{Status, Verdict, read_case, say};

// Writes that no proof is known, or that the budget ended a search.
fn write_unknown<K: Sink>(spent: bool, out: &mut K) -> Status
    ensures { IsWritten (unknown spent) Status.NotProved (K.written out.old) (K.written out.new) (K.faults out.old) (K.faults out.new) result }
{
    match write_all(out, unknown_line(spent)) {
        Ok(()) => Status::NotProved,
        Err(_) => Status::WriteFault,
    }
}

fn unknown_line(spent: bool) -> &'static [u8]
    ensures { result.now ≡ unknown spent }
{
    if spent {
        b"unknown: budget spent\n"
    } else {
        b"unknown\n"
    }
}

// Writes a proof that leads from the left term to the right one, or that none is known.
fn search<K: Sink>(
    alloc: Global,
    facts: &Facts,
    outs: u32,
    left: &U,
    right: &U,
    budget: u64,
    out: &mut K,
) -> Status
    requires left { IsKnown 0 outs left.now }
    requires right { IsKnown 0 outs right.now }
    ensures { IsSearched (record { facts = facts.now; outs = outs; left = left.now; right = right.now }) budget
        (K.written out.old) (K.written out.new) (K.faults out.old) (K.faults out.new) result }
{
    match prove_terms(alloc, facts, outs, left, right, budget, out) {
        Searched::Proved => Status::Done,
        Searched::Unknown { spent } => write_unknown(spent, out),
        Searched::WriteFault => Status::WriteFault,
        Searched::NoMemory => Status::NoMemory,
    }
}

// Writes a proof of a case that was read, or why there is none.
fn search_case<K: Sink>(alloc: Global, case: &Case, budget: u64, out: &mut K) -> Status
    ensures { (told : Told) → IsCaseRead told.text case.now →
        IsProving told budget (K.written out.old) (K.written out.new) (K.faults out.old) (K.faults out.new) result }
{
    match terms(alloc, case) {
        Ok((left, right)) => search(alloc, case.facts(), case.outs(), &left, &right, budget, out),
        Err(fault) => say(alloc, &Verdict::TermRefused(fault), out),
    }
}

/// Writes a proof of the case under the name, or why there is none.
pub fn prove_case<S: Store, K: Sink>(
    alloc: Global,
    name: &str,
    budget: u64,
    store: &mut S,
    out: &mut K,
) -> Status
    ensures { IsProving (told_of (S.text store.old) (S.faults store.old) (S.faults store.new) name.now) budget
        (K.written out.old) (K.written out.new) (K.faults out.old) (K.faults out.new) result }
{
    match read_case(alloc, name, store) {
        Ok(case) => search_case(alloc, &case, budget, out),
        Err(verdict) => say(alloc, &verdict, out),
    }
}
