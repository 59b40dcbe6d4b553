//! Sets of relations by their numbers.
ghost use Rattle.std.specs.Prelude.{◌≡◌, ◌%◌, true};
ghost use Rattle.scope_core.specs.RelationSets.{Has, Includes, empty, has_number, is_low, meet_sets, union_of, with_number};

/// Relations by their numbers modulo 256. A schema declares no more; of two that had one place, each would be taken for the other as well, so a
/// set never lacks what was put there.
#[derive(Clone, Copy)]
pub struct RelationSet {
    low: u128,
    high: u128,
}

impl RelationSet {
    /// No relation.
    pub fn empty() -> RelationSet
        ensures { result ≡ empty }
    {
        RelationSet { low: 0, high: 0 }
    }

    /// With this relation too.
    pub fn with(self, number: usize) -> RelationSet
        ensures grows { Includes result self }
        ensures own { Has result (is_low number) (number % 128) }
        ensures exact { result ≡ with_number self number }
    {
        let bit = 1 << number % 128;
        if number % 256 < 128 {
            RelationSet {
                low: self.low | bit,
                high: self.high,
            }
        } else {
            RelationSet {
                low: self.low,
                high: self.high | bit,
            }
        }
    }

    /// Whether this relation is in it.
    pub fn has(&self, number: usize) -> bool
        ensures { result ≡ has_number self.now number }
    {
        let bit = 1 << number % 128;
        if number % 256 < 128 {
            self.low & bit != 0
        } else {
            self.high & bit != 0
        }
    }

    /// The relations of both.
    pub fn union(self, other: RelationSet) -> RelationSet
        ensures own { Includes result self }
        ensures others { Includes result other }
        ensures exact { result ≡ union_of self other }
    {
        RelationSet {
            low: self.low | other.low,
            high: self.high | other.high,
        }
    }

    /// Whether a relation is in both.
    pub fn meets(&self, other: &RelationSet) -> bool
        ensures { result ≡ meet_sets self.now other.now }
    {
        self.low & other.low != 0 || self.high & other.high != 0
    }
}
