//! Where a reader stands.
ghost use Rattle.std.specs.Prelude.{◌≡◌, ◌==◌, ◌≤◌, ◌<◌, if◌then◌else◌, length, MatchOption};
ghost use Rattle.proof_text.specs.Signs.{code};
ghost use Rattle.proof_text.specs.declared.cursor.Stop.TheVariants.{NoMemory};
ghost use Rattle.proof_text.specs.LinesOfText.{fed};
ghost use Rattle.proof_text.specs.Reading.{Gives, entered, expected, fresh, next, passed};
ghost use Rattle.proof_text.specs.WordSteps.{PassesAll};

use crate::limits::MOST_NODES;
use crate::sign::{Sign, code, digit_of, sign_of};
use std::alloc::{AllocError, AllocFailed};
use std::marker::Model;

/// Why a reader stopped.
#[derive(Clone, Copy, Debug, Drop)]
pub enum Stop {
    /// What stands here goes on with nothing.
    Unexpected,
    /// A node too many begins here.
    TooMany,
    /// A node that is too deep begins here.
    TooDeep,
    NoMemory,
}

impl From<AllocError> for Stop {
    ghost from_gives = { λ _ stop. stop ≡ NoMemory };

    fn from(_: AllocError) -> Stop {
        Stop::NoMemory
    }
}

/// What is left of a line, and how many nodes may still come.
#[derive(Drop)]
pub struct Cursor<'a> {
    bytes: &'a [u8],
    // whether a line feed is left behind them
    ended: bool,
    nodes: u32,
}

impl<'a> Model for Cursor<'a> {
    ghost use Rattle.proof_text.specs.LinesOfText.{fed};
    ghost use Rattle.proof_text.specs.Reading.{Rest};

    ghost Value = { Rest };

    ghost view = { λ c. record { nodes = c.nodes; text = fed c.bytes.now c.ended } };
}

impl<'a> Cursor<'a> {
    /// At the start of a line, with no node to come.
    pub fn new(line: &'a [u8], ended: bool) -> Cursor<'a>
        ensures { result ≡ record { nodes = 0; text = fed line.now ended } }
    {
        Cursor {
            bytes: line,
            ended,
            nodes: 0,
        }
    }

    /// What stands next.
    #[inline(always)]
    pub fn peek(&self) -> Sign
        ensures { result ≡ next self.now }
    {
        match self.bytes {
            [byte, ..] => sign_of(*byte),
            [] if self.ended => Sign::Newline,
            [] => Sign::End,
        }
    }

    /// The value of the digit that stands next.
    #[inline(always)]
    pub fn digit(&self) -> Option<u32>
        ensures { MatchOption result (10 ≤ code (next self.now)) (λ digit. (digit ≡ code (next self.now)) × (digit < 10)) }
    {
        match self.bytes {
            [byte, ..] => digit_of(*byte),
            [] => None,
        }
    }

    /// Passes it.
    #[inline(always)]
    pub fn pass(&mut self)
        ensures { self.new ≡ passed self.old }
    {
        match self.bytes {
            [_, rest @ ..] => self.bytes = rest,
            [] => self.ended = false,
        }
    }

    /// Passes this sign, if it stands next.
    #[inline(always)]
    pub fn take(&mut self, wanted: Sign) -> bool
        ensures taken { result ≡ (code (next self.old) == code wanted) }
        ensures moved { self.new ≡ (if code (next self.old) == code wanted then passed self.old else self.old) }
    {
        let taken = code(self.peek()) == code(wanted);
        if taken {
            self.pass();
        }
        taken
    }

    /// Passes this sign.
    #[inline(always)]
    pub fn expect(&mut self, wanted: Sign) -> Result<(), Stop>
        ensures { Gives result self.new (expected (code wanted) self.old) }
    {
        if self.take(wanted) {
            Ok(())
        } else {
            Err(Stop::Unexpected)
        }
    }

    /// Passes these bytes, if they all stand next.
    #[inline(always)]
    pub fn take_all(&mut self, wanted: &[u8]) -> bool
        ensures { PassesAll wanted.now self.old result self.new }
    {
        match self.bytes.strip_prefix(wanted) {
            Some(rest) => {
                self.bytes = rest;
                true
            }
            None => false,
        }
    }

    /// Passes the first byte of a node.
    #[inline(always)]
    pub fn enter(&mut self, levels: u32) -> Result<(), Stop>
        ensures { Gives result self.new (entered levels self.old) }
    {
        if self.nodes == 0 {
            return Err(Stop::TooMany);
        }
        if levels == 0 {
            return Err(Stop::TooDeep);
        }
        self.nodes -= 1;
        self.pass();
        Ok(())
    }

    /// Lets as many nodes come as an argument may have.
    #[inline(always)]
    pub fn refresh(&mut self)
        ensures { self.new ≡ fresh self.old }
    {
        self.nodes = MOST_NODES;
    }

    /// How many bytes are left.
    #[inline(always)]
    pub fn left(&self) -> usize
        ensures left { result ≡ length self.now.text }
        ensures fits { result < usize.MAX }
    {
        self.bytes.len() + usize::from(self.ended)
    }
}
