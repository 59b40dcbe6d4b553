//! The numbers of literals and called names, and the weight of what is copied.
ghost use Rattle.std.specs.Prelude.{◌≡◌, ◌+◌, ◌≤◌, IfOk, Result};
ghost use Rattle.sql_cursor.specs.Readers.{Gives, copied, numbered};
ghost use Rattle.sql_cursor.specs.Eating.{Copies, Extends, Numbers};
ghost use Rattle.sql_grammar.specs.Numbering.{literal_number, symbol_number};

use super::Tokens;
use crate::fault::{LimitKind, ReadFault};
use sql_model::{Lit, Name, NoMemory};

/// The weight that a case may copy.
const MOST_COPIES: u32 = 1_000_000;

/// How far a reading had come: the tokens that it had passed, and the weight that it had copied.
#[derive(Clone, Copy)]
pub struct Mark {
    /// How many tokens.
    pub passed: u32,
    /// The weight of the copies.
    pub copies: u32,
}

/// The place of a member as its number. A table too long for its places takes more memory than there is.
fn number_at(place: usize) -> Result<u32, NoMemory>
    ensures { IfOk result (λ number. number ≡ place) }
{
    u32::try_from(place).map_err(|_| NoMemory)
}

impl<'a> Tokens<'a> {
    /// How far the reading has come.
    pub fn mark(&self) -> Mark
        ensures passed { result.passed ≡ self.now.passed }
        ensures copies { result.copies ≡ self.now.copies }
    {
        Mark {
            passed: self.passed,
            copies: self.copies,
        }
    }

    /// What a copy of all since then weighs: its tokens, and the copies that were made in it.
    pub fn weight_since(&self, mark: Mark) -> u32
        requires passed { mark.passed ≤ self.now.passed }
        requires copies { mark.copies ≤ self.now.copies }
        ensures { result + (mark.passed + mark.copies) ≡ self.now.passed + self.now.copies }
    {
        (self.passed - mark.passed) + (self.copies - mark.copies)
    }

    /// Counts a copy of this weight.
    #[tactic(auto, unfolding(crate::specs::Readers::copied))]
    pub fn add_copy(&mut self, weight: u32) -> Result<(), ReadFault>
        ensures copies { Copies weight self.old result self.new }
        ensures gives { Gives result self.new (copied weight self.old) }
    {
        match self.copies.checked_add(weight) {
            Some(copies) if copies <= MOST_COPIES => {
                self.copies = copies;
                Ok(())
            }
            _ => Err(ReadFault::Limit {
                what: LimitKind::Copies,
            }),
        }
    }

    /// The number of a literal: its own, or the next one.
    #[tactic(auto, unfolding(crate::specs::Readers::numbered))]
    pub fn literal_number(&mut self, literal: Lit) -> Result<u32, NoMemory>
        ensures number { IfOk result (λ number. Numbers (literal_number literal) self.old number self.new) }
        ensures gives { IfOk result (λ number. Gives (Result.Ok number) self.new (numbered (literal_number literal) self.old)) }
        ensures extends { Extends self.old self.new }
    {
        let (place, _) = self.symbols.lits.insert_full(literal)?;
        number_at(place)
    }

    /// The number of a called name: its own, or the next one.
    #[tactic(auto, unfolding(crate::specs::Readers::numbered))]
    pub fn symbol_number(&mut self, name: Name) -> Result<u32, NoMemory>
        ensures number { IfOk result (λ number. Numbers (symbol_number name) self.old number self.new) }
        ensures gives { IfOk result (λ number. Gives (Result.Ok number) self.new (numbered (symbol_number name) self.old)) }
        ensures extends { Extends self.old self.new }
    {
        let (place, _) = self.symbols.syms.insert_full(name)?;
        number_at(place)
    }
}
