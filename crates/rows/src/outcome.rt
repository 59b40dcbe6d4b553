//! What comes of a run.
ghost use Rattle.std.specs.Prelude.{◌≡◌, []};

use crate::row::Text;
use row_text::Outcome;
use std::alloc::{AllocError, Global};
use udp_io::{MemSink, MemStore, Store, SureSink, SureStore};
use udp_run::Status;
use udp_run::laws::run_surely;
use udp_start::start;

/// The most bytes that the store gives and the sink takes at once, where a row does not say how many.
const PIECE: usize = 65_536;

/// The most bytes that are written, where a row does not say how many.
const ROOM: usize = 1_048_576;

/// How the store and the sink of a run behave: what they give and take at once, the room of the sink, and the call of each that fails.
#[derive(Clone, Copy)]
pub struct Behaviour {
    pub piece: usize,
    pub room: usize,
    pub failing_take: Option<u64>,
    pub failing_put: Option<u64>,
}

impl Behaviour {
    /// Nothing fails.
    pub fn sure() -> Behaviour {
        Behaviour {
            piece: PIECE,
            room: ROOM,
            failing_take: None,
            failing_put: None,
        }
    }
}

// Adds a text under a name that has none.
fn add_text(store: &mut MemStore, name: &str, bytes: &[u8]) -> Result<(), AllocError>
    requires { store.old.plan.failing ≡ [] }
    ensures { store.new.plan.failing ≡ [] }
{
    if store.select(name).is_err() {
        store.add(name, bytes)?;
    }
    Ok(())
}

// A store with these texts. It was called once for each of them.
fn store_of(alloc: Global, piece: usize, texts: &[Text]) -> Result<MemStore, AllocError> {
    let mut store = MemStore::new(alloc, piece.max(1))?;
    for text in texts {
        add_text(&mut store, text.name.as_str(), text.bytes.as_slice())?;
    }
    Ok(store)
}

/// Runs the words over the texts.
pub fn run_words(
    alloc: Global,
    words: &[String],
    texts: &[Text],
    behaviour: Behaviour,
) -> Result<Outcome, AllocError> {
    let mut store = store_of(alloc, behaviour.piece, texts)?;
    if let Some(call) = behaviour.failing_take {
        store.fail_at(call.saturating_add(texts.len() as u64))?;
    }
    let mut sink = MemSink::new(alloc, behaviour.piece.max(1), behaviour.room)?;
    if let Some(call) = behaviour.failing_put {
        sink.fail_at(call)?;
    }
    let status = start(alloc, words, &mut store, &mut sink);
    ended(alloc, status, sink.bytes())
}

/// Runs the words, which ask for a check, over the texts `case` and `proof` in a store and a sink that never fail.
pub fn run_sure_words(
    alloc: Global,
    words: &[String],
    texts: &[Text],
) -> Result<Outcome, AllocError> {
    let mut store = SureStore::new(alloc, PIECE)?;
    store.add("case", bytes_of(texts, "case"))?;
    store.add("proof", bytes_of(texts, "proof"))?;
    let mut sink = SureSink::new(alloc, ROOM)?;
    let status = run_surely(alloc, words, &mut store, &mut sink);
    ended(alloc, status, sink.bytes())
}

// The bytes of the text of this name; none where it is not there.
fn bytes_of<'a>(texts: &'a [Text], name: &str) -> &'a [u8] {
    match texts.iter().find(|text| text.name.as_str() == name) {
        Some(text) => text.bytes.as_slice(),
        None => &[],
    }
}

fn ended(alloc: Global, status: Status, written: &[u8]) -> Result<Outcome, AllocError> {
    Ok(Outcome {
        status: status.code(),
        written: Vec::from_slice(alloc, written)?,
    })
}
