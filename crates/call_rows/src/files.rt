//! Makes the calls of a file, and writes a line of each that is answered otherwise.

use crate::call::answer;
use crate::facts::{add_line, no_facts};
use crate::fault::CallFault;
use anyhow::{Context, Result};
use row_text::{Outcome, Tally, Template, TextFault};
use std::alloc::Global;
use std::rt::Files;
use std::{fs, io};
use u_terms::Facts;

/// The most bytes of an answer that are shown.
const MOST_SHOWN: usize = 200;

// Tells what a call was answered.
fn tell(rt: &impl Print, file: &str, number: u64, found: &Outcome) -> io::Result<()> {
    let found = found.written.as_slice();
    let shown = found.get(..MOST_SHOWN).unwrap_or(found).escape_ascii();
    println!(rt; "{file}:{number}: answered \"{shown}\"")
}

// The text that is written so.
fn expanded(alloc: Global, written: &str) -> Result<Vec<u8>, TextFault> {
    let mut template = Template::new(alloc);
    template.read(written)?;
    template.finish()
}

// What the call is answered.
fn made(alloc: Global, facts: &Facts, call: &str) -> Result<Outcome, CallFault> {
    let call = expanded(alloc, call)?;
    let call = String::from_utf8_lossy(alloc, &call)?;
    let found = answer(alloc, facts, call.as_str())?;
    Ok(Outcome::answered(found.into_bytes()))
}

/// Makes the calls of this file. A line that cannot be read ends them, and is told by its number.
pub fn report_file(
    rt: &(impl Files + Print + AllocGlobal),
    file: &str,
    tally: &mut Tally,
) -> Result<()> {
    let text = fs::read_to_string(rt, file).context(format_args!("{file}"))?;
    let mut facts = no_facts(rt.alloc());
    let mut number = 0u64;
    for line in text.lines() {
        number = number.saturating_add(1);
        report_line(rt, file, number, line, &mut facts, tally).context(format_args!(
            "{file}:{number}"
        ))?;
    }
    Ok(())
}

// Makes the call of the line, if there is one.
fn report_line(
    rt: &(impl Print + AllocGlobal),
    file: &str,
    number: u64,
    line: &str,
    facts: &mut Facts,
    tally: &mut Tally,
) -> Result<()> {
    if line.is_empty() || line.starts_with('#') {
        return Ok(());
    }
    let Some((call, expected)) = line.split_once(" => ") else {
        add_line(rt.alloc(), facts, line)?;
        return Ok(());
    };
    let found = made(rt.alloc(), facts, call)?;
    let expected = Outcome::answered(expanded(rt.alloc(), expected)?);
    if !tally.count(&found, &expected) {
        tell(rt, file, number, &found)?;
    }
    Ok(())
}
