//! A proof is fed to a checker as it is read.
ghost use Rattle.std.specs.Prelude.{◌≡◌, ◌≤◌, ◌<◌, List, ℕ, IfOk, IsErrOf, OnOk};
ghost use Rattle.std.specs.Io.KnownBytes.{IsAtEnd};
ghost use Rattle.udp_io.specs.Faults.{HasCauseAt, Rose};
ghost use Rattle.udp_io.specs.Reading.{TakesFirst};
ghost use Rattle.udp_run.specs.Runs.{IsFed};
ghost use Rattle.udp_run.specs.declared.feeding.Unfed.TheVariants as unfed;

use crate::PROOF_LIMIT;
use proof_check::{Pieces, Stop};
use udp_io::{Store, StoreFault};

/// The most bytes that are taken at once.
const PIECE: usize = 4_096;

/// Why a text was not fed to its end.
#[derive(Clone, Copy, Debug, PartialEq, Eq)]
pub enum Unfed {
    /// The store failed.
    Failed,
    /// The text has more bytes than a proof may have.
    TooLong,
    /// A line stopped all that follow.
    Stopped(Stop),
}

impl From<StoreFault> for Unfed {
    ghost from_gives = { λ _ result. result ≡ unfed.Failed };

    fn from(_: StoreFault) -> Unfed {
        Unfed::Failed
    }
}

impl From<Stop> for Unfed {
    ghost from_gives = { λ stop result. result ≡ unfed.Stopped stop };

    fn from(stop: Stop) -> Unfed {
        Unfed::Stopped(stop)
    }
}

// Takes one piece of at most `most` bytes to the front of the buffer, and answers its length.
fn take_piece<S: Store>(
    store: &mut S,
    name: &str,
    buffer: &mut [u8; PIECE],
    most: usize,
) -> Result<usize, StoreFault>
    requires usable { S.usable store.old name.now }
    requires some { 0 < most }
    ensures usable { OnOk result (S.usable store.new name.now) }
    ensures piece { IfOk result (λ n. n ≤ 4096) }
    ensures most { IfOk result (λ n. n ≤ most) }
    ensures taken { TakesFirst (S.left store.old) (S.left store.new) result buffer.new }
    ensures end { IfOk result (λ n. n ≡ 0 → IsAtEnd (S.left store.old)) }
    ensures same_texts { (other : List ℕ) → S.text store.new other ≡ S.text store.old other }
    ensures cause { HasCauseAt (S.faults store.old) (S.faults store.new) name.now result }
{
    store.take(name, &mut buffer[..most.min(PIECE)])
}

/// Feeds the rest of the selected text, which has this name. It takes pieces of at most 4,096 bytes, never more than the most
/// bytes of a proof and one in all, and none after that in which a line ends that stops those that follow.
pub fn feed<S: Store>(store: &mut S, name: &str, pieces: &mut Pieces<'_>) -> Result<(), Unfed>
    requires usable { S.usable store.old name.now }
    ensures fed { IsFed (S.left store.old) (S.left store.new) pieces.old pieces.new result }
    ensures same_texts { (other : List ℕ) → S.text store.new other ≡ S.text store.old other }
    ensures later { (other : List ℕ) → S.faults store.old other ≤ S.faults store.new other }
    ensures cause { IsErrOf result unfed.Failed → Rose (S.faults store.old name.now) (S.faults store.new name.now) }
{
    let mut buffer = [0; PIECE];
    let mut taken = 0;
    while taken <= PROOF_LIMIT {
        let count = take_piece(store, name, &mut buffer, PROOF_LIMIT + 1 - taken)?;
        if count == 0 {
            return Ok(());
        }
        pieces.take(&buffer[..count])?;
        taken += count;
    }
    Err(Unfed::TooLong)
}
