//! Runs the rows of a file, and writes a line of each that comes out otherwise.

use crate::line::Line;
use crate::row::{Row, RowReader};
use crate::runs::run_row;
use anyhow::{Context, Result};
use row_text::{Outcome, Tally};
use std::rt::Files;
use std::{fs, io};

/// The most bytes of an output that are shown.
const MOST_SHOWN: usize = 200;

// Tells what came of a row.
fn tell(rt: &impl Print, file: &str, row: &Row, found: &Outcome) -> io::Result<()> {
    let written = found.written.as_slice();
    let shown = written.get(..MOST_SHOWN).unwrap_or(written).escape_ascii();
    let name = row.name.as_str();
    let status = found.status;
    println!(rt; "{file}: {name}: status {status}, written \"{shown}\"")
}

// Runs the row that is read, if there is one.
fn report_row(
    rt: &(impl Print + AllocGlobal),
    file: &str,
    reader: &mut RowReader,
    tally: &mut Tally,
) -> Result<()> {
    if let Some(row) = reader.row()? {
        let found = run_row(rt.alloc(), row)?;
        if !tally.count(&found, &row.expected) {
            tell(rt, file, row, &found)?;
        }
    }
    Ok(())
}

/// Runs the rows of this file. A line that cannot be read ends them, and is told by its number.
pub fn report_file(
    rt: &(impl Files + Print + AllocGlobal),
    file: &str,
    tally: &mut Tally,
) -> Result<()> {
    let text = fs::read_to_string(rt, file).context(format_args!("{file}"))?;
    let mut reader = RowReader::new(rt.alloc());
    let mut number = 0u64;
    for line in text.lines() {
        number = number.saturating_add(1);
        let line = Line::of(line);
        if let Line::Row(_) = line {
            report_row(rt, file, &mut reader, tally).context(format_args!("{file}:{number}"))?;
        }
        reader
            .read_line(line)
            .context(format_args!("{file}:{number}"))?;
    }
    report_row(rt, file, &mut reader, tally).context(format_args!("{file}: at the end"))
}
