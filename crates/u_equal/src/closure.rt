//! The classes of a product: joined by the equalities among its factors, and then by calls until nothing is left to be joined.
ghost use Rattle.std.specs.Prelude.{◌≡◌, ◌^◌, ◌<◌, IfOk, OnOk, length};
ghost use Rattle.indexmap.specs.IndexMap.{get};
ghost use Rattle.u_rules.specs.Terms.{terms};
ghost use Rattle.u_equal.specs.Joined.{seen, label_now, IsState, IsTree, HoldsCalls, IsProgress, JoinsFactors};
ghost use Rattle.u_equal.specs.Tables.{AreCallsOf, HasSides, IsCall, IsKnown, IsNoted, IsStep, same_signature, signature};
ghost use Rattle.u_equal.specs.Agendas.{AreSettled, IsLooked, IsNext};

use crate::NoMemory;
use crate::agenda::Agenda;
use crate::calls::{Call, Signature};
use crate::forest::{Forest, Reason};
use indexmap::IndexMap;
use std::alloc::Global;
use u_terms::U;

impl<'a> Forest<'a> {
    /// Joins the sides of the equalities among the factors.
    pub fn join_factors(&mut self, factors: &[&U]) -> Result<(), NoMemory>
        requires tree { IsTree self.old }
        requires state { IsState (seen self.old) }
        requires few { length factors.now < 2 ^ 32 }
        requires sides { HasSides (terms factors.now) self.old.values.keys }
        ensures tree { OnOk result (IsTree self.new) }
        ensures joined { OnOk result (JoinsFactors (terms factors.now) (length factors.now) (seen self.old) (seen self.new)) }
    {
        for (factor, term) in factors.iter().enumerate() {
            if let U::Eq(a, b) = term {
                let left = self.place_of(a);
                let right = self.place_of(b);
                let reason = Reason::Given {
                    factor: factor as u32,
                    turned: false,
                };
                self.join(left, right, reason)?;
            }
        }
        Ok(())
    }

    /// Joins calls with the same arguments until none are left. A call is looked at again, with all its arguments, after classes of them were
    /// hung under others: once for all that were while it waited. The smaller class is hung, so for each argument that is at most as often as the
    /// number of values has binary digits. A call has at most one signature in the table, by the classes that stand.
    pub fn join_calls(&mut self, alloc: Global, calls: &[Call]) -> Result<(), NoMemory>
        requires tree { IsTree self.old }
        requires state { IsState (seen self.old) }
        requires calls { AreCallsOf self.old.values.keys calls.now }
        ensures tree { OnOk result (IsTree self.new) }
        ensures progress { OnOk result (IsProgress self.old.values.keys (seen self.old) (seen self.new)) }
        ensures closed { OnOk result (HoldsCalls self.new.values.keys self.new.values.keys (label_now (seen self.new))) }
    {
        let mut known = IndexMap::new(alloc);
        let mut agenda = Agenda::new(alloc, self, calls)?;
        while self.join_next(alloc, calls, &mut known, &mut agenda)? {
            agenda.wake(alloc, self, calls, &mut known)?;
        }
        Ok(())
    }

    // Looks at the calls that wait until one is joined. Says whether one was.
    fn join_next(
        &mut self,
        alloc: Global,
        calls: &[Call],
        known: &mut IndexMap<Signature, usize>,
        agenda: &mut Agenda,
    ) -> Result<bool, NoMemory>
        requires tree { IsTree self.old }
        requires state { IsState (seen self.old) }
        requires calls { AreCallsOf self.old.values.keys calls.now }
        requires known { IsKnown self.old.values.keys (seen self.old) (get same_signature known.old) }
        requires settled { AreSettled calls.now agenda.old.waiting (seen self.old) (get same_signature known.old) }
        ensures tree { OnOk result (IsTree self.new) }
        ensures next { IfOk result (λ joined. IsNext calls.now (seen self.old) (seen self.new) agenda.new.waiting (get same_signature known.new) joined) }
        ensures users { OnOk result (agenda.new.users ≡ agenda.old.users) }
    {
        while let Some(number) = agenda.waiting.pop() {
            if self.join_number(alloc, calls, number, known)? {
                return Ok(true);
            }
        }
        Ok(false)
    }

    // Joins the call with this number, if there is one, as `join_call` does.
    fn join_number(
        &mut self,
        alloc: Global,
        calls: &[Call],
        number: usize,
        known: &mut IndexMap<Signature, usize>,
    ) -> Result<bool, NoMemory>
        requires tree { IsTree self.old }
        requires state { IsState (seen self.old) }
        requires calls { AreCallsOf self.old.values.keys calls.now }
        requires known { IsKnown self.old.values.keys (seen self.old) (get same_signature known.old) }
        ensures tree { OnOk result (IsTree self.new) }
        ensures looked { IfOk result (λ joined. IsLooked calls.now number (seen self.old) (seen self.new) (get same_signature known.old) (get same_signature known.new) joined) }
    {
        match calls.get(number) {
            Some(call) => self.join_call(alloc, call, known),
            None => Ok(false),
        }
    }

    // Joins the call with one that had the same arguments when it was noted, or else notes it. Says whether they were apart.
    fn join_call(
        &mut self,
        alloc: Global,
        call: &Call,
        known: &mut IndexMap<Signature, usize>,
    ) -> Result<bool, NoMemory>
        requires tree { IsTree self.old }
        requires state { IsState (seen self.old) }
        requires call { IsCall self.old.values.keys call.now }
        requires known { IsKnown self.old.values.keys (seen self.old) (get same_signature known.old) }
        ensures tree { OnOk result (IsTree self.new) }
        ensures step { IfOk result (λ joined. IsStep call.now (seen self.old) (seen self.new) (get same_signature known.old) (get same_signature known.new) joined) }
    {
        match self.note(alloc, call, known)? {
            Some(other) => self.join(other, call.place, Reason::Called),
            None => Ok(false),
        }
    }

    // The place of a call that was noted with the same arguments. If there is none, this one is noted.
    fn note(
        &self,
        alloc: Global,
        call: &Call,
        known: &mut IndexMap<Signature, usize>,
    ) -> Result<Option<usize>, NoMemory>
        requires tree { IsTree self.now }
        requires call { IsCall self.now.values.keys call.now }
        ensures { IfOk result (λ found. IsNoted (signature (label_now (seen self.now)) call.now) call.now.place (get same_signature known.old) (get same_signature known.new) found) }
    {
        let signature = call.signature(alloc, self)?;
        if let Some(other) = known.get(&signature).copied() {
            return Ok(Some(other));
        }
        known.insert(signature, call.place)?;
        Ok(None)
    }
}
