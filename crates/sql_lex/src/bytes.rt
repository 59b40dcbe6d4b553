//! Kinds of bytes.
ghost use Rattle.std.specs.Prelude.{◌≡◌};
ghost use Rattle.sql_lex.specs.Bytes.{begins_word, goes_on_word, is_blank, folded_byte};

/// A letter of ASCII or `_`.
pub fn begins_word(byte: u8) -> bool
    ensures { result ≡ begins_word byte }
{
    byte.is_ascii_alphabetic() || byte == b'_'
}

/// A letter of ASCII, a digit or `_`.
pub fn goes_on_word(byte: u8) -> bool
    ensures { result ≡ goes_on_word byte }
{
    begins_word(byte) || byte.is_ascii_digit()
}

/// Space, tab, line feed or carriage return.
pub fn is_blank(byte: u8) -> bool
    ensures { result ≡ is_blank byte }
{
    matches!(byte, b' ' | b'\t' | b'\n' | b'\r')
}

/// The byte in lower case.
pub fn folded(byte: u8) -> u8
    ensures { result ≡ folded_byte byte }
{
    byte.to_ascii_lowercase()
}
