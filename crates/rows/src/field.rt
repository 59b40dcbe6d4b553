//! A field with lines below it, as it is read.

use crate::fault::RowFault;
use row_text::Template;
use std::alloc::Global;

/// What a field says.
#[derive(Drop)]
pub enum FieldKind {
    /// A text under this name, its lines one behind the other.
    Text(String),
    /// The same, with a line feed behind each line.
    Lines(String),
    /// What is written, with a line feed behind each line.
    Output,
}

/// A field and its lines so far.
#[derive(Drop)]
pub struct Field {
    pub kind: FieldKind,
    pub template: Template,
}

impl Field {
    /// A field of which no line was read yet.
    pub fn new(alloc: Global, kind: FieldKind) -> Field {
        Field {
            kind,
            template: Template::new(alloc),
        }
    }

    /// Reads the next line.
    pub fn read_line(&mut self, line: &str) -> Result<(), RowFault> {
        self.template.read(line)?;
        match self.kind {
            FieldKind::Text(_) => Ok(()),
            FieldKind::Lines(_) | FieldKind::Output => {
                self.template.push(b"\n")?;
                Ok(())
            }
        }
    }
}
