//! Runs rows as often as they say.

use crate::outcome::{Behaviour, run_sure_words, run_words};
use crate::row::{Calls, Often, Room, Row, Text};
use row_text::Outcome;
use std::alloc::{AllocError, Global};

/// The name of what the first run of a row wrote.
const WRITTEN: &str = "written";

/// Runs a row. What comes of several runs is written line by line, each with its status before it.
pub fn run_row(alloc: Global, row: &Row) -> Result<Outcome, AllocError> {
    match &row.often {
        Often::Once => run_once(alloc, row),
        Often::Surely => run_sure_words(alloc, &row.words, &row.texts),
        Often::Cuts(name) => run_cuts(alloc, row, name.as_str()),
        Often::FailingStore(calls) => run_failing(alloc, row, *calls, true),
        Often::FailingSink(calls) => run_failing(alloc, row, *calls, false),
        Often::SmallSink(room) => run_small(alloc, row, *room),
    }
}

// The words of a row, and then those of its second run, where it has one.
fn run_once(alloc: Global, row: &Row) -> Result<Outcome, AllocError> {
    let first = run_words(alloc, &row.words, &row.texts, Behaviour::sure())?;
    if row.then.is_empty() {
        return Ok(first);
    }
    let second = run_then(alloc, row, first.written.as_slice())?;
    if !row.both {
        return Ok(second);
    }
    let mut written = Vec::new(alloc);
    add_line(alloc, &mut written, &first)?;
    add_line(alloc, &mut written, &second)?;
    Ok(Outcome { status: 0, written })
}

// The second run of a row, which has what the first one wrote as a text.
fn run_then(alloc: Global, row: &Row, written: &[u8]) -> Result<Outcome, AllocError> {
    let mut texts = shortened(alloc, &row.texts, "", 0)?;
    texts.push(Text {
        name: String::from_str(alloc, WRITTEN)?,
        bytes: Vec::from_slice(alloc, written)?,
    })?;
    run_words(alloc, &row.then, &texts, Behaviour::sure())
}

// The texts, of which the one of this name has so many bytes.
fn shortened(
    alloc: Global,
    texts: &[Text],
    name: &str,
    count: usize,
) -> Result<Vec<Text>, AllocError> {
    let mut shortened = Vec::new(alloc);
    for text in texts {
        let whole = text.bytes.as_slice();
        let bytes = if text.name.as_str() == name {
            whole.get(..count).unwrap_or(whole)
        } else {
            whole
        };
        shortened.push(Text {
            name: String::from_str(alloc, text.name.as_str())?,
            bytes: Vec::from_slice(alloc, bytes)?,
        })?;
    }
    Ok(shortened)
}

// How many bytes the text of this name has.
fn length(texts: &[Text], name: &str) -> usize {
    texts
        .iter()
        .find(|text| text.name.as_str() == name)
        .map_or(0, |text| text.bytes.len())
}

fn run_cuts(alloc: Global, row: &Row, name: &str) -> Result<Outcome, AllocError> {
    let mut written = Vec::new(alloc);
    for count in 0..=length(&row.texts, name) {
        let texts = shortened(alloc, &row.texts, name, count)?;
        let found = run_words(alloc, &row.words, &texts, Behaviour::sure())?;
        add_line(alloc, &mut written, &found)?;
    }
    Ok(Outcome { status: 0, written })
}

fn run_failing(
    alloc: Global,
    row: &Row,
    calls: Calls,
    in_store: bool,
) -> Result<Outcome, AllocError> {
    let mut written = Vec::new(alloc);
    for call in calls.first..=calls.last {
        let behaviour = Behaviour {
            piece: calls.piece,
            failing_take: in_store.then_some(call),
            failing_put: (!in_store).then_some(call),
            ..Behaviour::sure()
        };
        let found = run_words(alloc, &row.words, &row.texts, behaviour)?;
        add_line(alloc, &mut written, &found)?;
    }
    Ok(Outcome { status: 0, written })
}

fn run_small(alloc: Global, row: &Row, sink: Room) -> Result<Outcome, AllocError> {
    let behaviour = Behaviour {
        piece: sink.piece,
        room: sink.room,
        ..Behaviour::sure()
    };
    let found = run_words(alloc, &row.words, &row.texts, behaviour)?;
    let mut written = Vec::new(alloc);
    add_line(alloc, &mut written, &found)?;
    Ok(Outcome { status: 0, written })
}

// Adds the status of a run and what it wrote, and a line feed where that has none at its end.
fn add_line(alloc: Global, written: &mut Vec<u8>, found: &Outcome) -> Result<(), AllocError> {
    let status = found.status;
    written.extend_from_slice(format!(in alloc; "{status} ")?.as_bytes())?;
    written.extend_from_slice(found.written.as_slice())?;
    if found.written.last() != Some(&b'\n') {
        written.push(b'\n')?;
    }
    Ok(())
}
