//! A row, and how one is read.

use crate::fault::RowFault;
use crate::field::{Field, FieldKind};
use crate::line::Line;
use row_text::Outcome;
use std::alloc::{AllocError, Global};

/// A text under a name.
#[derive(Drop)]
pub struct Text {
    pub name: String,
    pub bytes: Vec<u8>,
}

/// What is run, and what is to come of it.
#[derive(Drop)]
pub struct Row {
    pub name: String,
    pub words: Vec<String>,
    /// The words of a second run, which has what the first one wrote as a text. There is none without words.
    pub then: Vec<String>,
    /// Whether what the first run wrote is compared too.
    pub both: bool,
    pub texts: Vec<Text>,
    pub often: Often,
    pub expected: Outcome,
}

/// How often a row is run.
#[derive(Drop)]
pub enum Often {
    Once,
    /// Once, over a store and a sink that never fail.
    Surely,
    /// Once for each prefix of the text of this name, of no byte first and of all at last.
    Cuts(String),
    /// Once for each of these calls of the store, which fails.
    FailingStore(Calls),
    /// The same of the sink.
    FailingSink(Calls),
    /// Once, over a sink that has room for so many bytes.
    SmallSink(Room),
}

/// Calls of a store or a sink that gives or takes so many bytes at once.
#[derive(Clone, Copy)]
pub struct Calls {
    pub piece: usize,
    pub first: u64,
    pub last: u64,
}

/// The bytes that a sink takes at once, and in all.
#[derive(Clone, Copy)]
pub struct Room {
    pub piece: usize,
    pub room: usize,
}

// The calls that three numbers say.
fn failing(alloc: Global, text: &str) -> Result<Calls, RowFault> {
    let words: Vec<&str> = text.split(' ').collect(alloc)?;
    let [piece, first, last] = words.as_slice() else {
        return Err(RowFault::BadCalls);
    };
    Ok(Calls {
        piece: piece.parse().map_err(|_| RowFault::BadCalls)?,
        first: first.parse().map_err(|_| RowFault::BadCalls)?,
        last: last.parse().map_err(|_| RowFault::BadCalls)?,
    })
}

// The room that two numbers say.
fn small(alloc: Global, text: &str) -> Result<Room, RowFault> {
    let words: Vec<&str> = text.split(' ').collect(alloc)?;
    let [piece, room] = words.as_slice() else {
        return Err(RowFault::BadRoom);
    };
    Ok(Room {
        piece: piece.parse().map_err(|_| RowFault::BadRoom)?,
        room: room.parse().map_err(|_| RowFault::BadRoom)?,
    })
}

impl Row {
    fn set_text(&mut self, name: String, bytes: Vec<u8>) -> Result<(), RowFault> {
        self.texts
            .retain(|text| text.name.as_str() != name.as_str());
        self.texts.push(Text { name, bytes })?;
        Ok(())
    }
}

fn words(alloc: Global, text: &str) -> Result<Vec<String>, AllocError> {
    text.split_whitespace()
        .map(|word| String::from_str(alloc, word))
        .try_collect(alloc)
}

/// Reads rows line by line. What a row does not say stays as it was said before it, but for the output and for how
/// often it is run.
#[derive(Drop)]
pub struct RowReader {
    alloc: Global,
    row: Row,
    /// Whether a row has begun.
    has_row: bool,
    /// Whether it has an output.
    has_output: bool,
    /// The field that indented lines belong to.
    field: Option<Field>,
}

impl RowReader {
    /// At the head of a file, where nothing is said.
    pub fn new(alloc: Global) -> RowReader {
        RowReader {
            alloc,
            row: Row {
                name: String::new(alloc),
                words: Vec::new(alloc),
                then: Vec::new(alloc),
                both: false,
                texts: Vec::new(alloc),
                often: Often::Once,
                expected: Outcome {
                    status: 0,
                    written: Vec::new(alloc),
                },
            },
            has_row: false,
            has_output: false,
            field: None,
        }
    }

    /// Reads the next line, which begins no row where one is not whole.
    pub fn read_line(&mut self, line: Line<'_>) -> Result<(), RowFault> {
        match line {
            Line::Nothing => Ok(()),
            Line::Part(part) => match self.field.as_mut() {
                Some(field) => field.read_line(part),
                None => Err(RowFault::NoField),
            },
            Line::Row(name) => {
                self.end_field()?;
                self.begin_row(name)
            }
            Line::Field { word, rest } => {
                self.end_field()?;
                self.begin_field(word, rest)
            }
        }
    }

    /// The row that is read, if one has begun.
    pub fn row(&mut self) -> Result<Option<&Row>, RowFault> {
        self.end_field()?;
        if !self.has_row {
            return Ok(None);
        }
        if !self.has_output {
            return Err(RowFault::NoOutput);
        }
        Ok(Some(&self.row))
    }

    fn begin_row(&mut self, name: &str) -> Result<(), RowFault> {
        if name.is_empty() {
            return Err(RowFault::NoName);
        }
        self.row.name = String::from_str(self.alloc, name)?;
        self.row.often = Often::Once;
        self.has_row = true;
        self.has_output = false;
        Ok(())
    }

    fn begin_field(&mut self, word: &str, rest: &str) -> Result<(), RowFault> {
        match word {
            "words" => {
                self.row.words = words(self.alloc, rest)?;
                self.row.then = Vec::new(self.alloc);
            }
            "then" | "and" => {
                self.row.then = words(self.alloc, rest)?;
                self.row.both = word == "and";
            }
            "status" => {
                self.row.expected.status = rest.parse().map_err(|_| RowFault::BadStatus)?;
            }
            "text" => {
                let name = String::from_str(self.alloc, rest)?;
                self.field = Some(Field::new(self.alloc, FieldKind::Text(name)));
            }
            "lines" => {
                let name = String::from_str(self.alloc, rest)?;
                self.field = Some(Field::new(self.alloc, FieldKind::Lines(name)));
            }
            "surely" => self.row.often = Often::Surely,
            "cuts" => self.row.often = Often::Cuts(String::from_str(self.alloc, rest)?),
            "failing-store" => self.row.often = Often::FailingStore(failing(self.alloc, rest)?),
            "failing-sink" => self.row.often = Often::FailingSink(failing(self.alloc, rest)?),
            "small-sink" => self.row.often = Often::SmallSink(small(self.alloc, rest)?),
            "output" => return self.begin_output(rest),
            _ => return Err(RowFault::NoSuchField),
        }
        Ok(())
    }

    // An output may have its first line beside the word.
    fn begin_output(&mut self, first: &str) -> Result<(), RowFault> {
        let mut field = Field::new(self.alloc, FieldKind::Output);
        if !first.is_empty() {
            field.read_line(first)?;
        }
        self.field = Some(field);
        Ok(())
    }

    // Ends the field that is read, where there is one.
    fn end_field(&mut self) -> Result<(), RowFault> {
        let Some(field) = self.field.take() else {
            return Ok(());
        };
        let bytes = field.template.finish()?;
        match field.kind {
            FieldKind::Text(name) | FieldKind::Lines(name) => self.row.set_text(name, bytes),
            FieldKind::Output => {
                self.row.expected.written = bytes;
                self.has_output = true;
                Ok(())
            }
        }
    }
}
