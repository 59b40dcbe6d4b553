//! A store in memory that fails by a plan.

use crate::fault_plan::FaultPlan;
use crate::texts::Texts;
use crate::{NoMemory, Store, StoreFault};
use std::alloc::Global;
use std::marker::Model;

/// Texts in memory. The calls of `select` and `take` are counted from 0: those that are listed
/// fail, and so does `select` of an absent name. The count stops at the last value of a `u64`.
#[derive(Drop)]
pub struct MemStore {
    texts: Texts,
    piece: usize,
    plan: FaultPlan,
}

impl Model for MemStore {
    ghost use Rattle.std.specs.Prelude.{◌<◌};
    ghost use Rattle.udp_io.specs.MemStore.{PlannedStore};

    ghost Value = { PlannedStore };

    ghost view = { λ s. record { texts = s.texts; piece = s.piece; plan = s.plan } };

    ghost invariant = { λ s. 0 < s.piece };
}

impl MemStore {
    ghost use Rattle.std.specs.Prelude.{◌≡◌, ◌<◌, false, IfOk, OnOk, OnErr};
    ghost use Rattle.udp_io.specs.Texts.{has_name, with_text};
    ghost use Rattle.udp_io.specs.FaultPlan.{with_failing};
    ghost use Rattle.udp_io.specs.MemStore.{empty_store};

    /// A store with no texts, of which at most `piece` bytes are taken at once.
    pub fn new(alloc: Global, piece: usize) -> Result<MemStore, NoMemory>
        requires { 0 < piece }
        ensures { IfOk result (λ store. store ≡ empty_store piece) }
    {
        Ok(MemStore {
            texts: Texts::new(alloc),
            piece,
            plan: FaultPlan::new(alloc),
        })
    }

    /// Puts a text under a name that has none.
    pub fn add(&mut self, name: &str, text: &[u8]) -> Result<(), NoMemory>
        requires { has_name self.old.texts name.now ≡ false }
        ensures ok { OnOk result (self.new ≡ record self.old {
          texts = with_text self.old.texts name.now text.now;
        }) }
        ensures err { OnErr result (self.new ≡ self.old) }
    {
        self.texts.add(name, text)
    }

    /// Lists a call that is to fail.
    pub fn fail_at(&mut self, call: u64) -> Result<(), NoMemory>
        ensures ok { OnOk result (self.new ≡ record self.old {
          plan = with_failing self.old.plan call;
        }) }
        ensures err { OnErr result (self.new ≡ self.old) }
    {
        self.plan.fail_at(call)
    }
}

// The clauses say exactly what a call answers and leaves. The others of `Store` follow.
impl Store for MemStore {
    ghost use Rattle.std.specs.Prelude.{◌≡◌, ◌||◌, not, is_err, IfOk};
    ghost use Rattle.std.specs.Result.{result_unwrap_or};
    ghost use Rattle.udp_io.specs.Faults.{HasCauseAt};
    ghost use Rattle.udp_io.specs.Reading.{IsZeroAtEnd};
    ghost use Rattle.udp_io.specs.FaultPlan.{fails_next, after_call};
    ghost use Rattle.udp_io.specs.Texts.{has_name, with_selected};
    ghost use Rattle.udp_io.specs.Texts.{take_count, with_front, without_first};
    ghost use Rattle.udp_io.specs.MemStore.{store_text, store_left, IsUsable, store_faults};

    ghost text = { store_text };

    ghost left = { store_left };

    ghost usable = { IsUsable };

    ghost faults = { store_faults };

    fn select(&mut self, name: &str) -> Result<(), StoreFault>
        // A listed call fails, and so does that of an absent name.
        ensures fails { is_err result
            ≡ (fails_next self.old.plan || not (has_name self.old.texts name.now)) }
        ensures after { self.new ≡ record self.old {
          texts = with_selected self.old.texts name.now;
          plan = after_call self.old.plan (is_err result);
        } }
        ensures cause { HasCauseAt (store_faults self.old) (store_faults self.new) name.now result }
    {
        let found = self.texts.select(name);
        if !found || self.plan.fails_next() {
            self.plan.count_failed();
            return Err(StoreFault);
        }
        self.plan.count_passed();
        Ok(())
    }

    fn take(&mut self, name: &str, buf: &mut [u8]) -> Result<usize, StoreFault>
        requires { IsUsable self.old name.now }
        // A listed call fails, and no other.
        ensures fails { is_err result ≡ fails_next self.old.plan }
        ensures count { IfOk result (λ n. n ≡ take_count self.old.texts self.old.piece buf.old) }
        ensures filled { buf.new ≡ with_front buf.old self.old.texts (result_unwrap_or result 0) }
        ensures after { self.new ≡ record self.old {
          texts = without_first self.old.texts (result_unwrap_or result 0);
          plan = after_call self.old.plan (is_err result);
        } }
        ensures zero { IsZeroAtEnd (store_left self.old) result buf.new }
        ensures cause { HasCauseAt (store_faults self.old) (store_faults self.new) name.now result }
    {
        if self.plan.fails_next() {
            self.plan.count_failed();
            return Err(StoreFault);
        }
        self.plan.count_passed();
        Ok(self.texts.take(buf, self.piece))
    }
}
