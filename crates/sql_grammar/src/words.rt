//! Words, compared without regard to case: their kinds, and which of them are no names.
ghost use Rattle.std.specs.Prelude.{◌≡◌, ◌++◌, bytes_eq, map, IfNone, IfSome};
ghost use Rattle.std.specs.List.{flat_map, list_any};
ghost use Rattle.sql_lex.specs.Bytes.{folded_byte};
ghost use Rattle.sql_grammar.specs.Kinds.{is_left_out, is_reserved, kind_in, left_out_words, special_kinds, used_kinds, word_kind};
ghost use Rattle.sql_grammar.specs.Letters.{IsByLetter};

use crate::kinds::{Kind, NAME_KINDS, is_among};
use crate::letters::{ByLetter, entries_for};

/// For each letter, the reserved words that the grammar uses, and behind them the unreserved ones that mean something at some places.
static KINDS: ByLetter<'static, (&[u8], Kind)> = [
    &[
        (b"all", Kind::All),
        (b"and", Kind::And),
        (b"as", Kind::As),
        (b"avg", Kind::Avg),
    ],
    &[(b"between", Kind::Between), (b"by", Kind::By)],
    &[
        (b"constraint", Kind::Constraint),
        (b"create", Kind::Create),
        (b"cross", Kind::Cross),
        (b"count", Kind::Count),
    ],
    &[(b"distinct", Kind::Distinct)],
    &[(b"except", Kind::Except), (b"exists", Kind::Exists)],
    &[(b"foreign", Kind::Foreign), (b"from", Kind::From)],
    &[(b"group", Kind::Group)],
    &[(b"having", Kind::Having)],
    &[
        (b"in", Kind::In),
        (b"inner", Kind::Inner),
        (b"intersect", Kind::Intersect),
        (b"index", Kind::Index),
    ],
    &[(b"join", Kind::Join)],
    &[(b"key", Kind::Key)],
    &[(b"like", Kind::Like)],
    &[(b"min", Kind::Min), (b"max", Kind::Max)],
    &[(b"not", Kind::Not), (b"null", Kind::Null)],
    &[(b"on", Kind::On), (b"or", Kind::Or)],
    &[(b"primary", Kind::Primary)],
    &[], // q
    &[(b"references", Kind::References)],
    &[(b"select", Kind::Select), (b"sum", Kind::Sum)],
    &[(b"table", Kind::Table)],
    &[(b"union", Kind::Union), (b"unique", Kind::Unique)],
    &[(b"view", Kind::View)],
    &[(b"where", Kind::Where)],
    &[], // x
    &[], // y
    &[], // z
];

/// The words that begin or name what the grammar leaves out.
static LEFT_OUT_WORDS: ByLetter<'static, &[u8]> = [
    &[b"alter", b"any", b"asc"],
    &[], // b
    &[b"case", b"cast", b"check", b"collate", b"cube"],
    &[b"default", b"delete", b"desc"],
    &[b"else", b"end", b"escape"],
    &[b"false", b"fetch", b"full"],
    &[b"grouping"],
    &[], // h
    &[b"insert", b"is"],
    &[], // j
    &[], // k
    &[b"lateral", b"left", b"limit"],
    &[], // m
    &[b"natural"],
    &[b"offset", b"order", b"outer", b"over"],
    &[], // p
    &[], // q
    &[b"recursive", b"right", b"rollup"],
    &[b"some"],
    &[b"then", b"true"],
    &[b"update", b"using"],
    &[], // v
    &[b"when", b"window", b"with"],
    &[], // x
    &[], // y
    &[], // z
];

/// Whether the two words are the same after folding.
fn is_same_word(text: &[u8], word: &[u8]) -> bool
    ensures { result ≡ bytes_eq (map folded_byte text.now) (map folded_byte word.now) }
{
    text.eq_ignore_ascii_case(word)
}

fn is_one_of(text: &[u8], words: &[&[u8]]) -> bool
    ensures { result ≡
        list_any (λ word. bytes_eq (map folded_byte text.now) (map folded_byte word.now)) words.now }
{
    words.iter().any(|word| is_same_word(text, word))
}

fn is_in_table(text: &[u8], table: &ByLetter<&[u8]>) -> bool
    requires { IsByLetter (λ word. map folded_byte word.now) (flat_map (λ words. words.now) table.now) (map (λ words. words.now) table.now) }
    ensures { result ≡
        list_any (λ word. bytes_eq (map folded_byte text.now) (map folded_byte word.now)) (flat_map (λ words. words.now) table.now) }
{
    is_one_of(text, entries_for(table, text))
}

/// Whether the word begins or names what the grammar leaves out.
fn is_never_used(text: &[u8]) -> bool
    ensures { result ≡ list_any (bytes_eq (map folded_byte text.now)) left_out_words }
{
    is_in_table(text, &LEFT_OUT_WORDS)
}

/// The kind that stands beside the word, without regard to case.
fn find_kind(rows: &[(&[u8], Kind)], text: &[u8]) -> Option<Kind>
    ensures some { IfSome result (λ kind. (other : Kind) → kind_in (map (λ row. (map folded_byte row.0.now, row.1)) rows.now) other (map folded_byte text.now) ≡ kind) }
    ensures none { IfNone result ((other : Kind) → kind_in (map (λ row. (map folded_byte row.0.now, row.1)) rows.now) other (map folded_byte text.now) ≡ other) }
{
    for (word, kind) in rows {
        if is_same_word(word, text) {
            return Some(*kind);
        }
    }
    None
}

/// The kind of a word by the table of those that have kinds of their own.
fn kind_by_table(text: &[u8], table: &ByLetter<(&[u8], Kind)>) -> Kind
    requires { IsByLetter (λ row. row.0) (used_kinds ++ special_kinds) (map (map (λ row. (map folded_byte row.0.now, row.1))) (map (λ rows. rows.now) table.now)) }
    ensures { result ≡ word_kind (map folded_byte text.now) }
{
    match find_kind(entries_for(table, text), text) {
        Some(kind) => kind,
        None if is_never_used(text) => Kind::LeftOut,
        None => Kind::Word,
    }
}

/// The kind of a word.
pub(crate) fn word_kind(text: &[u8]) -> Kind
    ensures { result ≡ word_kind (map folded_byte text.now) }
{
    kind_by_table(text, &KINDS)
}

/// Whether the word is reserved after folding, so that it is no name.
pub fn is_reserved(text: &[u8]) -> bool
    ensures { result ≡ is_reserved (map folded_byte text.now) }
{
    !is_among(&NAME_KINDS, word_kind(text))
}

/// Whether a refusal at the word says that the grammar leaves it out.
pub fn is_left_out(text: &[u8]) -> bool
    ensures { result ≡ is_left_out (map folded_byte text.now) }
{
    is_same_word(text, b"all") || is_same_word(text, b"null") || is_never_used(text)
}
