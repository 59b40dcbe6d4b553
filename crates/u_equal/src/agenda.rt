//! Which calls are to be looked at, and which ones again where classes are joined.
ghost use Rattle.std.specs.Prelude.{◌≡◌, ◌<◌, IfOk, OnOk, length};
ghost use Rattle.indexmap.specs.IndexMap.{get};
ghost use Rattle.u_equal.specs.Joined.{IsTree, IsState, label_now, seen};
ghost use Rattle.u_equal.specs.Tables.{AreCallsOf, IsCall, same_signature};
ghost use Rattle.u_equal.specs.Agendas.{AreWoken, IsBegun, IsEntered, IsForgotten, IsGathered, IsWoken, IsWokenCall, IsWokenNumber};

use crate::NoMemory;
use crate::calls::{Call, Signature};
use crate::forest::Forest;
use crate::numbered::{Queue, Users};
use indexmap::IndexMap;
use std::alloc::Global;
use std::mem;

/// The calls that wait to be looked at, by their numbers, and those that use a class.
#[derive(Drop)]
pub struct Agenda {
    /// For each place that stands for a class: the calls with an argument in it.
    pub users: Vec<Users>,
    pub waiting: Queue,
}

impl Agenda {
    /// All calls wait, in their order.
    pub fn new(alloc: Global, forest: &Forest, calls: &[Call]) -> Result<Agenda, NoMemory>
        requires tree { IsTree forest.now }
        requires calls { AreCallsOf forest.now.values.keys calls.now }
        ensures { IfOk result (IsBegun (length forest.now.values.keys) (label_now (seen forest.now)) calls.now) }
    {
        let mut agenda = Agenda::empty(alloc, forest.values.len(), calls.len())?;
        for (number, call) in calls.iter().enumerate() {
            agenda.enter(forest, number, call)?;
        }
        Ok(agenda)
    }

    // None of so many calls waits, and none uses any of so many places.
    fn empty(alloc: Global, places: usize, calls: usize) -> Result<Agenda, NoMemory>
        ensures { IfOk result (λ agenda. length agenda.users.items ≡ places) }
    {
        let mut users = Vec::with_capacity(alloc, places)?;
        for _place in 0..places {
            users.push(Users::new(alloc))?;
        }
        Ok(Agenda {
            users,
            waiting: Queue::new(alloc, calls)?,
        })
    }

    // The call waits, and uses the classes of its arguments.
    fn enter(&mut self, forest: &Forest, number: usize, call: &Call) -> Result<(), NoMemory>
        requires tree { IsTree forest.now }
        requires call { IsCall forest.now.values.keys call.now }
        requires places { length self.old.users.items ≡ length forest.now.values.keys }
        ensures { OnOk result (IsEntered (label_now (seen forest.now)) number call.now self.old self.new) }
    {
        for place in call.arguments.as_slice() {
            let class = forest.class_of(*place);
            self.users[class].insert(number)?;
        }
        self.waiting.push(number)
    }

    /// The calls that use the class that the last edge hung under another one wait again, and use that one. What they had for a signature is no
    /// longer known.
    pub fn wake(
        &mut self,
        alloc: Global,
        forest: &Forest,
        calls: &[Call],
        known: &mut IndexMap<Signature, usize>,
    ) -> Result<(), NoMemory>
        requires tree { IsTree forest.now }
        requires state { IsState (seen forest.now) }
        requires some { 0 < length forest.now.edges.items }
        requires calls { AreCallsOf forest.now.values.keys calls.now }
        requires places { length self.old.users.items ≡ length forest.now.values.keys }
        ensures woken { OnOk result (IsWoken calls.now (seen forest.now) self.old self.new) }
        ensures forgotten { OnOk result (IsForgotten (seen forest.now) (get same_signature known.old) (get same_signature known.new)) }
    {
        let last = forest.edges.len() - 1;
        let edge = &forest.edges[last];
        let hung = forest.class_at(last, edge.right);
        let above = forest.class_at(last, edge.left);
        let moved = self.move_users(alloc, hung, above)?;
        self.wake_each(alloc, forest, calls, moved.as_slice(), known)
    }

    // Who used the one class uses the other one.
    fn move_users(&mut self, alloc: Global, from: usize, to: usize) -> Result<Users, NoMemory>
        requires from { from < length self.old.users.items }
        requires to { to < length self.old.users.items }
        ensures { IfOk result (λ moved. IsGathered from to self.old self.new moved) }
    {
        let moved = mem::replace(&mut self.users[from], Users::new(alloc));
        for number in moved.as_slice() {
            self.users[to].insert(*number)?;
        }
        Ok(moved)
    }

    // Wakes the calls with these numbers.
    fn wake_each(
        &mut self,
        alloc: Global,
        forest: &Forest,
        calls: &[Call],
        numbers: &[usize],
        known: &mut IndexMap<Signature, usize>,
    ) -> Result<(), NoMemory>
        requires tree { IsTree forest.now }
        requires state { IsState (seen forest.now) }
        requires some { 0 < length forest.now.edges.items }
        requires calls { AreCallsOf forest.now.values.keys calls.now }
        ensures users { OnOk result (self.new.users ≡ self.old.users) }
        ensures woken { OnOk result (AreWoken calls.now (seen forest.now) numbers.now self.old.waiting self.new.waiting) }
        ensures forgotten { OnOk result (IsForgotten (seen forest.now) (get same_signature known.old) (get same_signature known.new)) }
    {
        for number in numbers {
            self.wake_number(alloc, forest, calls, *number, known)?;
        }
        Ok(())
    }

    // Wakes the call with this number, if there is one.
    fn wake_number(
        &mut self,
        alloc: Global,
        forest: &Forest,
        calls: &[Call],
        number: usize,
        known: &mut IndexMap<Signature, usize>,
    ) -> Result<(), NoMemory>
        requires tree { IsTree forest.now }
        requires state { IsState (seen forest.now) }
        requires some { 0 < length forest.now.edges.items }
        requires calls { AreCallsOf forest.now.values.keys calls.now }
        ensures users { OnOk result (self.new.users ≡ self.old.users) }
        ensures woken { OnOk result (IsWokenNumber calls.now (seen forest.now) number self.old.waiting self.new.waiting) }
        ensures forgotten { OnOk result (IsForgotten (seen forest.now) (get same_signature known.old) (get same_signature known.new)) }
    {
        match calls.get(number) {
            Some(call) => self.wake_call(alloc, forest, number, call, known),
            None => Ok(()),
        }
    }

    // A call waits again where the last edge changed its signature, and the one that it had is no longer known. One that waits is left alone: it
    // was never looked at, or it was woken before.
    fn wake_call(
        &mut self,
        alloc: Global,
        forest: &Forest,
        number: usize,
        call: &Call,
        known: &mut IndexMap<Signature, usize>,
    ) -> Result<(), NoMemory>
        requires tree { IsTree forest.now }
        requires state { IsState (seen forest.now) }
        requires some { 0 < length forest.now.edges.items }
        requires call { IsCall forest.now.values.keys call.now }
        ensures users { OnOk result (self.new.users ≡ self.old.users) }
        ensures woken { OnOk result (IsWokenCall (seen forest.now) number call.now self.old.waiting self.new.waiting) }
        ensures forgotten { OnOk result (IsForgotten (seen forest.now) (get same_signature known.old) (get same_signature known.new)) }
    {
        if self.waiting.has(number) {
            return Ok(());
        }
        let before = call.signature_at(alloc, forest, forest.edges.len() - 1)?;
        if before == call.signature(alloc, forest)? {
            return Ok(());
        }
        known.swap_remove(&before);
        self.waiting.push(number)
    }
}
