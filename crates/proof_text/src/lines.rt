//! The lines of a text.
ghost use Rattle.std.specs.Prelude.{◌≡◌, [], MatchOption};
ghost use Rattle.proof_text.specs.LinesOfText.{IsNextLine};

use memchr::memchr;
use std::marker::Model;

/// A line of a text.
#[derive(Clone, Copy, Debug)]
pub struct Line<'a> {
    /// Its bytes, without its line feed.
    pub text: &'a [u8],
    /// Its number, counted from 1.
    pub number: u64,
    /// Whether a line feed follows.
    pub ended: bool,
}

/// The lines of a text, each lent once.
#[derive(Drop)]
pub struct Lines<'a> {
    bytes: &'a [u8],
    number: u64,
}

impl<'a> Model for Lines<'a> {
    ghost use Rattle.std.specs.Prelude.{◌+◌, ◌<◌, ◌^◌, length};
    ghost use Rattle.proof_text.specs.LinesOfText.{Unread};

    ghost Value = { Unread };

    ghost view = { λ lines. record { number = lines.number; text = lines.bytes.now } };

    ghost invariant = { λ lines. lines.number + length lines.bytes.now < 2 ^ 64 };
}

impl<'a> Lines<'a> {
    /// At the first line of a text.
    pub fn new(bytes: &'a [u8]) -> Lines<'a>
        ensures { result ≡ record { number = 0; text = bytes.now } }
    {
        Lines { bytes, number: 0 }
    }

    /// The next line. There is none exactly at the end of the text.
    pub fn next(&mut self) -> Option<Line<'a>>
        ensures { MatchOption result
            ((self.old.text ≡ []) × (self.new ≡ self.old))
            (λ line. IsNextLine self.old line.text.now line.number line.ended self.new) }
    {
        if self.bytes.is_empty() {
            return None;
        }
        self.number += 1;
        match memchr(b'\n', self.bytes) {
            Some(end) => {
                let line = Line {
                    text: &self.bytes[..end],
                    number: self.number,
                    ended: true,
                };
                self.bytes = &self.bytes[end + 1..];
                Some(line)
            }
            None => {
                let line = Line {
                    text: self.bytes,
                    number: self.number,
                    ended: false,
                };
                self.bytes = &[];
                Some(line)
            }
        }
    }
}
