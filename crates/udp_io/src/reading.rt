//! Whole texts from a store.
ghost use Rattle.std.specs.Prelude.{◌≡◌, ◌<◌, ◌≤◌, ◌+◌, List, ℕ, [], length, drop, vec_len, Some};
ghost use Rattle.std.specs.Prelude.{IfOk, IfSome, OnOk, IsErrOf};
ghost use Rattle.std.specs.Io.KnownBytes.{Keeps};
ghost use Rattle.udp_io.specs.Faults.{Rose};
ghost use Rattle.udp_io.specs.Reading.{TakesAtMost};
ghost use Rattle.udp_io.specs.Piece.{TakesPiece};

use crate::Store;
use std::alloc::Global;
use thiserror::Error;

/// Why a text was not read whole.
#[derive(Clone, Copy, Debug, PartialEq, Eq, Error)]
pub enum ReadAllFault {
    /// The store failed.
    #[error("the text could not be read")]
    ReadFault,
    /// The text has more bytes than were allowed.
    #[error("the text is too long")]
    TooLong,
    /// There was no memory for the text.
    #[error("out of memory")]
    NoMemory,
}

/// The most bytes that are taken at once.
const PIECE: usize = 4_096;

// Takes one piece of at most `most` bytes to the end of the text, and answers its length.
fn take_piece<S: Store>(
    store: &mut S,
    name: &str,
    piece: &mut [u8; PIECE],
    most: usize,
    text: &mut Vec<u8>,
) -> Result<usize, ReadAllFault>
    requires usable { S.usable store.old name.now }
    requires some { 0 < most }
    ensures usable { OnOk result (S.usable store.new name.now) }
    ensures taken { IfOk result
        (TakesPiece (S.left store.old) (S.left store.new) text.old.items text.new.items) }
    ensures most { IfOk result (λ n. n ≤ most) }
    ensures piece { IfOk result (λ n. n ≤ 4096) }
    ensures bound { TakesAtMost (S.left store.old) (S.left store.new) most }
    ensures same_texts { (other : List ℕ) → S.text store.new other ≡ S.text store.old other }
    ensures later { (other : List ℕ) → S.faults store.old other ≤ S.faults store.new other }

    // A fault takes nothing.
    ensures fault { IsErrOf result ReadAllFault.ReadFault
        → Keeps (S.left store.old) (S.left store.new) }
    ensures cause { IsErrOf result ReadAllFault.ReadFault
        → Rose (S.faults store.old name.now) (S.faults store.new name.now) }
    ensures never_too_long { IsErrOf result ReadAllFault.TooLong → ⊥ }
{
    let buf = &mut piece[..most.min(PIECE)];
    let count = store.take(name, buf).map_err(|_| ReadAllFault::ReadFault)?;
    text.extend_from_slice(&buf[..count])
        .map_err(|_| ReadAllFault::NoMemory)?;
    Ok(count)
}

/// Reads the whole text under this name, of at most `limit` bytes.
///
/// It takes pieces of at most 4,096 bytes, and asks for at most `limit + 1` bytes in all. Its cost
/// is linear in the bytes that it takes.
pub fn read_all<S: Store>(
    alloc: Global,
    store: &mut S,
    name: &str,
    limit: usize,
) -> Result<Vec<u8>, ReadAllFault>
    requires { limit < usize.MAX }
    ensures whole { IfOk result (λ whole. IfSome (S.text store.old name.now) (λ text.
        (whole.items ≡ text) × (S.left store.new ≡ Some []))) }
    ensures within { IfOk result (λ whole. vec_len whole ≤ limit) }
    ensures bound { TakesAtMost (S.text store.old name.now) (S.left store.new) (limit + 1) }
    ensures same_texts { (other : List ℕ) → S.text store.new other ≡ S.text store.old other }
    ensures later { (other : List ℕ) → S.faults store.old other ≤ S.faults store.new other }

    // It is too long exactly where `limit + 1` bytes were taken.
    ensures too_long { IsErrOf result ReadAllFault.TooLong
        → IfSome (S.text store.old name.now) (λ text.
        (limit < length text) × (S.left store.new ≡ Some (drop (limit + 1) text))) }
    ensures fault { IsErrOf result ReadAllFault.ReadFault
        → TakesAtMost (S.text store.old name.now) (S.left store.new) limit }
    ensures cause { IsErrOf result ReadAllFault.ReadFault
        → Rose (S.faults store.old name.now) (S.faults store.new name.now) }
{
    store.select(name).map_err(|_| ReadAllFault::ReadFault)?;
    let mut piece = [0; PIECE];
    let mut whole = Vec::new(alloc);
    while whole.len() <= limit {
        let most = limit + 1 - whole.len();
        if take_piece(store, name, &mut piece, most, &mut whole)? == 0 {
            return Ok(whole);
        }
    }
    Err(ReadAllFault::TooLong)
}
