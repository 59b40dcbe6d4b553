//! What comes of a row.

/// How a row ended, and what it wrote. A call has no status of its own: it has that of a run that is done.
#[derive(Drop)]
pub struct Outcome {
    pub status: u8,
    pub written: Vec<u8>,
}

impl Outcome {
    /// What a call was answered.
    pub fn answered(written: Vec<u8>) -> Outcome {
        Outcome { status: 0, written }
    }
}
