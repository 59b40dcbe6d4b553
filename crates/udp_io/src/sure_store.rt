//! A store in memory that never fails.

use crate::texts::Texts;
use crate::{NoMemory, Store, StoreFault};
use std::alloc::Global;
use std::marker::Model;

/// Texts in memory. No call fails, and an absent name has the empty text.
#[derive(Drop)]
pub struct SureStore {
    texts: Texts,
    piece: usize,
}

impl Model for SureStore {
    ghost use Rattle.std.specs.Prelude.{◌<◌};
    ghost use Rattle.udp_io.specs.SureStore.{FaultlessStore};

    ghost Value = { FaultlessStore };

    ghost view = { λ s. record { texts = s.texts; piece = s.piece } };

    ghost invariant = { λ s. 0 < s.piece };
}

impl SureStore {
    ghost use Rattle.std.specs.Prelude.{◌≡◌, ◌<◌, false, IfOk, OnOk, OnErr};
    ghost use Rattle.udp_io.specs.Texts.{has_name, with_text};
    ghost use Rattle.udp_io.specs.SureStore.{empty_sure_store};

    /// A store with no texts, of which at most `piece` bytes are taken at once.
    pub fn new(alloc: Global, piece: usize) -> Result<SureStore, NoMemory>
        requires { 0 < piece }
        ensures { IfOk result (λ store. store ≡ empty_sure_store piece) }
    {
        Ok(SureStore {
            texts: Texts::new(alloc),
            piece,
        })
    }

    /// Puts a text under a name that has none.
    pub fn add(&mut self, name: &str, text: &[u8]) -> Result<(), NoMemory>
        requires { has_name self.old.texts name.now ≡ false }
        ensures ok { OnOk result (self.new ≡ record self.old {
          texts = with_text self.old.texts name.now text.now;
        }) }
        ensures err { OnErr result (self.new ≡ self.old) }
    {
        self.texts.add(name, text)
    }
}

// The clauses say exactly what a call answers and leaves. The others of `Store` follow.
impl Store for SureStore {
    ghost use Rattle.std.specs.Prelude.{◌≡◌, IsOk};
    ghost use Rattle.std.specs.Result.{result_unwrap_or};
    ghost use Rattle.udp_io.specs.Reading.{IsZeroAtEnd};
    ghost use Rattle.udp_io.specs.Texts.{with_selected, take_count, with_front, without_first};
    ghost use Rattle.udp_io.specs.SureStore.{sure_text, sure_left, IsSureUsable};

    ghost text = { sure_text };

    ghost left = { sure_left };

    ghost usable = { IsSureUsable };

    ghost faults = { λ _ _. 0 };

    fn select(&mut self, name: &str) -> Result<(), StoreFault>
        ensures sure { IsOk result }
        ensures after { self.new ≡ record self.old { texts = with_selected self.old.texts name.now } }
    {
        let _ = self.texts.select(name);
        Ok(())
    }

    fn take(&mut self, _name: &str, buf: &mut [u8]) -> Result<usize, StoreFault>
        ensures sure { result ≡ Ok (take_count self.old.texts self.old.piece buf.old) }
        ensures filled { buf.new ≡ with_front buf.old self.old.texts (result_unwrap_or result 0) }
        ensures after { self.new ≡ record self.old {
          texts = without_first self.old.texts (result_unwrap_or result 0);
        } }
        ensures zero { IsZeroAtEnd (sure_left self.old) result buf.new }
    {
        Ok(self.texts.take(buf, self.piece))
    }
}
