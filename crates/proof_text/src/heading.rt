//! The two lines in front of the steps of a proof.
ghost use Rattle.std.specs.Prelude.{[], codes};
ghost use Rattle.proof_text.specs.LinesOfText.{fed};
ghost use Rattle.proof_text.specs.Heading.{IsNumbered};

use crate::cursor::Cursor;
use crate::number::number;
use crate::sign::Sign;

// The number of a line that is a number and a line feed.
fn only_number(line: &[u8], ended: bool) -> Option<u32>
    ensures { IsNumbered [] (fed line.now ended) result }
{
    let mut cursor = Cursor::new(line, ended);
    match number(&mut cursor) {
        Ok(number) if cursor.take(Sign::Newline) && cursor.left() == 0 => Some(number),
        _ => None,
    }
}

// The number of a line that is these bytes, a number and a line feed.
fn numbered(line: &[u8], ended: bool, prefix: &[u8]) -> Option<u32>
    ensures { IsNumbered prefix.now (fed line.now ended) result }
{
    only_number(line.strip_prefix(prefix)?, ended)
}

/// The version of a proof whose first line has these bytes; `ended` says that a line feed follows them. There is none exactly where
/// that is not `udp-proof `, a number and a line feed.
pub fn read_version(line: &[u8], ended: bool) -> Option<u32>
    ensures { IsNumbered (codes "udp-proof ") (fed line.now ended) result }
{
    numbered(line, ended, b"udp-proof ")
}

/// The width of the queries in a proof whose second line has these bytes; `ended` says that a line feed follows them. There is none exactly
/// where that is not `outs `, a number and a line feed.
pub fn read_outs(line: &[u8], ended: bool) -> Option<u32>
    ensures { IsNumbered (codes "outs ") (fed line.now ended) result }
{
    numbered(line, ended, b"outs ")
}
