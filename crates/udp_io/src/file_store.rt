//! A store over the files of the system.
ghost use Rattle.std.specs.Prelude.{◌≡◌, List, ℕ, None, OnOk};
ghost use Rattle.std.specs.Io.{ReadsAtMost};
ghost use Rattle.std.specs.Io.KnownBytes.{ReadConsumes};
ghost use Rattle.udp_io.specs.Faults.{HasCauseAt};
ghost use Rattle.udp_io.specs.Reading.{TakesFirst, IsZeroAtEnd};
ghost use Rattle.udp_io.specs.FileStore.{HasFile, file_remaining, file_faults};

use crate::{Store, StoreFault};
use std::fs;
use std::io::Read;
use std::rt::Files;

/// The files of the system, by their paths. It tells none of their bytes. A read that is
/// interrupted fails.
#[derive(Drop)]
pub struct FileStore<'a, R: Files> {
    files: &'a R,
    selected: Option<R::File>,
    faults: u64,
}

impl<'a, R: Files> FileStore<'a, R> {
    /// The files that the runtime hands out.
    pub fn new(files: &'a R) -> Self
        ensures { (name : List ℕ) → file_faults result name ≡ 0 }
    {
        FileStore {
            files,
            selected: None,
            faults: 0,
        }
    }
}

impl<R: Files> Store for FileStore<'_, R> {
    ghost text = { λ _ _. None };

    ghost left = { λ _. None };

    ghost usable = { λ s _. HasFile s };

    ghost faults = { file_faults };

    fn select(&mut self, name: &str) -> Result<(), StoreFault> {
        self.selected = fs::open(self.files, name).ok();
        if self.selected.is_none() {
            self.faults = self.faults.saturating_add(1);
            return Err(StoreFault);
        }
        Ok(())
    }

    fn take(&mut self, name: &str, buf: &mut [u8]) -> Result<usize, StoreFault>
        requires { HasFile self.old }
        ensures usable { OnOk result (HasFile self.new) }
        ensures bound { ReadsAtMost result buf.new }
        ensures taken { TakesFirst None None result buf.new }
        ensures zero { IsZeroAtEnd None result buf.new }
        ensures cause { HasCauseAt (file_faults self.old) (file_faults self.new) name.now result }

        // The bytes are those that the file gave.
        ensures handed { ReadConsumes
            (file_remaining R.File.remaining self.old)
            (file_remaining R.File.remaining self.new) result buf.new }
    {
        let file = self.selected.as_mut().unwrap();
        match file.read(buf) {
            Ok(count) => Ok(count),
            Err(_) => {
                self.faults = self.faults.saturating_add(1);
                Err(StoreFault)
            }
        }
    }
}
