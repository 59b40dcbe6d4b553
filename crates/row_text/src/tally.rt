//! How many rows there are, and how many of them came out otherwise than expected.
ghost use Rattle.std.specs.Prelude.{◌≡◌, ◌↔◌, IsTrue};

use crate::outcome::Outcome;
use std::fmt;

/// The rows so far, and those that differ.
#[derive(Clone, Copy, Debug, Default)]
pub struct Tally {
    pub rows: u64,
    pub differing: u64,
}

impl Tally {
    /// Counts a row by what came of it and what was to come, and answers whether they are the same. The counts stop at the
    /// last value of a `u64`.
    pub fn count(&mut self, found: &Outcome, expected: &Outcome) -> bool
        ensures same { IsTrue result ↔ (found.now.status ≡ expected.now.status) × (found.now.written.items ≡ expected.now.written.items) }
        ensures counted { (self.new.differing ≡ 0) ↔ (self.old.differing ≡ 0) × IsTrue result }
    {
        let is_as_expected = found.status == expected.status
            && found.written.as_slice() == expected.written.as_slice();
        self.rows = self.rows.saturating_add(1);
        if !is_as_expected {
            self.differing = self.differing.saturating_add(1);
        }
        is_as_expected
    }

    /// The status of the program.
    pub fn code(self) -> u8
        ensures { (result ≡ 0) ↔ (self.differing ≡ 0) }
    {
        if self.differing == 0 { 0 } else { 1 }
    }
}

impl fmt::Display for Tally {
    fn fmt<W: fmt::Write>(&self, f: &mut fmt::Formatter<W>) -> fmt::Result {
        let rows = self.rows;
        let as_expected = rows.saturating_sub(self.differing);
        write!(f, "{as_expected} of {rows} rows as expected")
    }
}
