//! Tables by the first letters of words.
ghost use Rattle.std.specs.Prelude.{◌≡◌, map};
ghost use Rattle.sql_lex.specs.Bytes.{folded_byte};
ghost use Rattle.sql_grammar.specs.Letters.{entries_for};

use sql_lex::bytes::folded;

/// Entries for each letter, from `a` to `z`.
pub type ByLetter<'t, E> = [&'t [E]; 26];

/// The entries for the letter, in either case, that the word begins with.
pub fn entries_for<'t, E>(table: &ByLetter<'t, E>, word: &[u8]) -> &'t [E]
    ensures { result.now ≡ entries_for (map (λ entries. entries.now) table.now) (map folded_byte word.now) }
{
    match word.first().map(|first| folded(*first)) {
        Some(letter @ b'a'..=b'z') => table[usize::from(letter - b'a')],
        _ => &[],
    }
}
