//! Where texts are read from.
ghost use Rattle.std.specs.Prelude.{◌≡◌, List, ℕ, Option, OnOk};
ghost use Rattle.std.specs.Io.{ReadsAtMost};
ghost use Rattle.udp_io.specs.Faults.{HasCauseAt};
ghost use Rattle.udp_io.specs.Reading.{IsAllLeft, TakesFirst, IsZeroAtEnd};

/// A text could not be selected or taken.
#[derive(Clone, Copy, Debug, PartialEq, Eq)]
pub struct StoreFault;

/// Texts by name. One of them is selected, and then taken piece by piece.
pub trait Store {
    /// The text under this name, where the store tells it.
    ghost text: { Self → List ℕ → Option (List ℕ) };

    /// The rest of the selected text, where the store tells it. It is empty at first.
    ghost left: { Self → Option (List ℕ) };

    /// A text can be taken under this name.
    ghost usable: { Self → List ℕ → Type 0 };

    /// How often the store has failed at this name. The count stops at the last value of a `u64`.
    ghost faults: { Self → List ℕ → ℕ };

    /// Selects the text under this name: all of it is left, also where the call fails.
    fn select(&mut self, name: &str) -> Result<(), StoreFault>
        ensures usable { OnOk result (usable self.new name.now) }
        ensures left { IsAllLeft (text self.old name.now) (left self.new) }
        ensures same_texts { (other : List ℕ) → text self.new other ≡ text self.old other }
        ensures cause { HasCauseAt (faults self.old) (faults self.new) name.now result };

    /// Moves the first bytes of what is left to the front of the buffer, and answers how many. What
    /// the rest of the buffer holds then, and all of it after a fault, is left open.
    fn take(&mut self, name: &str, buf: &mut [u8]) -> Result<usize, StoreFault>
        requires { usable self.old name.now }
        ensures usable { OnOk result (usable self.new name.now) }
        ensures bound { ReadsAtMost result buf.new }
        ensures taken { TakesFirst (left self.old) (left self.new) result buf.new }
        ensures zero { IsZeroAtEnd (left self.old) result buf.new }
        ensures same_texts { (other : List ℕ) → text self.new other ≡ text self.old other }
        ensures cause { HasCauseAt (faults self.old) (faults self.new) name.now result };
}
