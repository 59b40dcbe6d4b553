//! Lines of a text of rows.

/// A line, as its first word says.
#[derive(Clone, Copy)]
pub enum Line<'a> {
    /// It says nothing.
    Nothing,
    /// An indented line, which belongs to the field above it.
    Part(&'a str),
    /// A row of this name begins.
    Row(&'a str),
    /// A field begins.
    Field { word: &'a str, rest: &'a str },
}

impl<'a> Line<'a> {
    /// What the line is.
    pub fn of(line: &'a str) -> Line<'a> {
        if let Some(part) = line.strip_prefix("  ") {
            return Line::Part(part);
        }
        if line.is_empty() || line.starts_with('#') {
            return Line::Nothing;
        }
        let (word, rest) = line.split_once(' ').unwrap_or((line, ""));
        if word == "row" {
            Line::Row(rest)
        } else {
            Line::Field { word, rest }
        }
    }
}
