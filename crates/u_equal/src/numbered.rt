//! Numbers, each at most once: those that use a class, and those that wait.
ghost use Rattle.std.specs.Prelude.{◌≡◌, ◌<◌, [], ◌++◌, true, false, length, IfNone, IfOk, OnOk};
ghost use Rattle.std.specs.Option.{option_to_list};
ghost use Rattle.u_equal.specs.Standing.{EachOnce, IsIn};
ghost use Rattle.u_equal.specs.Numbered.{IsAdded, SameMarks};

use crate::NoMemory;
use indexmap::IndexSet;
use std::alloc::Global;
use std::collections::VecDeque;
use std::marker::Model;

/// Numbers in the order in which they came. Contracts see their list.
#[derive(Drop)]
pub struct Users {
    numbers: IndexSet<usize>,
}

impl Model for Users {
    ghost use Rattle.std.specs.Prelude.{ℕ, List};

    ghost Value = { List ℕ };

    ghost view = { λ users. users.numbers.keys };
}

impl Users {
    /// No numbers.
    pub fn new(alloc: Global) -> Users
        ensures { result ≡ [] }
    {
        Users {
            numbers: IndexSet::new(alloc),
        }
    }

    /// Puts a number there, unless it's there.
    pub fn insert(&mut self, number: usize) -> Result<(), NoMemory>
        ensures { OnOk result (IsAdded number self.old self.new) }
    {
        self.numbers.insert(number)?;
        Ok(())
    }

    pub fn as_slice(&self) -> &[usize]
        ensures { result.now ≡ self.now }
    {
        self.numbers.as_slice()
    }
}

/// Numbers that wait, each once, the first one to be taken first. Contracts see their list.
#[derive(Drop)]
pub struct Queue {
    numbers: VecDeque<usize>,
    // Whether each number waits. One that has no place here doesn't.
    marks: Vec<bool>,
}

impl Model for Queue {
    ghost use Rattle.std.specs.Prelude.{ℕ, List};
    ghost use Rattle.u_equal.specs.Numbered.{AreMarked};

    ghost Value = { List ℕ };

    ghost view = { λ queue. queue.numbers.items };

    ghost invariant = { λ queue. AreMarked queue.numbers.items queue.marks.items };
}

impl Queue {
    /// None waits. There is room for the numbers below this one.
    pub fn new(alloc: Global, count: usize) -> Result<Queue, NoMemory>
        ensures { IfOk result (λ queue. queue ≡ []) }
    {
        Ok(Queue {
            numbers: VecDeque::with_capacity(alloc, count)?,
            marks: vec![in alloc; false; count]?,
        })
    }

    /// Whether the number waits.
    pub fn has(&self, number: usize) -> bool
        ensures yes { result ≡ true → IsIn number self.now }
        ensures no { result ≡ false → IsIn number self.now → ⊥ }
    {
        match self.marks.get(number) {
            Some(waits) => *waits,
            None => false,
        }
    }

    /// The number waits, after the others if it doesn't yet.
    pub fn push(&mut self, number: usize) -> Result<(), NoMemory>
        ensures added { OnOk result (IsAdded number self.old self.new) }
        ensures once { EachOnce self.new }
    {
        if self.has(number) {
            return Ok(());
        }
        make_place(&mut self.marks, number)?;
        self.numbers.push_back(number)?;
        self.marks[number] = true;
        Ok(())
    }

    /// Takes the first number.
    pub fn pop(&mut self) -> Option<usize>
        ensures items { self.old ≡ option_to_list result ++ self.new }
        ensures none { IfNone result (self.old ≡ []) }
    {
        let number = self.numbers.pop_front()?;
        self.marks[number] = false;
        Some(number)
    }
}

// Makes a place for the mark of the number.
fn make_place(marks: &mut Vec<bool>, number: usize) -> Result<(), NoMemory>
    ensures same { SameMarks marks.old.items marks.new.items }
    ensures place { OnOk result (number < length marks.new.items) }
{
    while marks.len() <= number {
        marks.push(false)?;
    }
    Ok(())
}
