//! Texts by name in memory, of which one is selected and taken piece by piece.
ghost use Rattle.std.specs.Prelude.{◌≡◌, false, OnOk, OnErr};
ghost use Rattle.udp_io.specs.Texts.{no_texts, has_name, with_text, with_selected};
ghost use Rattle.udp_io.specs.Texts.{take_count, with_front, without_first};

use crate::NoMemory;
use std::alloc::Global;
use std::marker::Model;

#[derive(Drop)]
struct Text {
    name: String,
    bytes: Vec<u8>,
}

impl Model for Text {
    ghost use Rattle.std.specs.Prelude.{string_bytes};
    ghost use Rattle.udp_io.specs.Texts.{NamedText};

    ghost Value = { NamedText };

    ghost view = { λ t. record { name = string_bytes t.name; bytes = t.bytes.items } };
}

/// Texts by name, the one that is selected, and how many of its bytes were taken.
#[derive(Drop)]
pub struct Texts {
    alloc: Global,
    texts: Vec<Text>,
    selected: Option<usize>,
    taken: usize,
}

impl Model for Texts {
    ghost use Rattle.std.specs.Prelude.{◌<◌, ◌≤◌, drop, length, vec_len};
    ghost use Rattle.std.specs.Option.{ForSome};
    ghost use Rattle.udp_io.specs.Texts.{NamedTexts, text_at};

    ghost Value = { NamedTexts };

    ghost view = { λ t. record {
      texts = t.texts.items;
      selected = t.selected;
      left = drop t.taken (text_at t.texts.items t.selected);
    } };

    ghost invariant = { λ t. ForSome t.selected (λ place. place < vec_len t.texts)
        × (t.taken ≤ length (text_at t.texts.items t.selected)) };
}

impl Texts {
    /// A store without texts, of which none is selected.
    pub fn new(alloc: Global) -> Self
        ensures { result ≡ no_texts }
    {
        Texts {
            alloc,
            texts: Vec::new(alloc),
            selected: None,
            taken: 0,
        }
    }

    /// Puts a text under a name that has none.
    pub fn add(&mut self, name: &str, bytes: &[u8]) -> Result<(), NoMemory>
        requires { has_name self.old name.now ≡ false }
        ensures ok { OnOk result (self.new ≡ with_text self.old name.now bytes.now) }
        ensures err { OnErr result (self.new ≡ self.old) }
    {
        let name = String::from_str(self.alloc, name)?;
        let bytes = bytes.to_vec(self.alloc)?;
        self.texts.push(Text { name, bytes })?;
        Ok(())
    }

    /// Selects the text under this name, and answers whether there is one.
    pub fn select(&mut self, name: &str) -> bool
        ensures found { result ≡ has_name self.old name.now }
        ensures selected { self.new ≡ with_selected self.old name.now }
    {
        self.selected = self.texts.iter().position(|t| t.name.as_str() == name);
        self.taken = 0;
        self.selected.is_some()
    }

    /// Takes at most `most` bytes of what is left, and answers how many.
    pub fn take(&mut self, buf: &mut [u8], most: usize) -> usize
        ensures count { result ≡ take_count self.old most buf.old }
        ensures filled { buf.new ≡ with_front buf.old self.old result }
        ensures rest { self.new ≡ without_first self.old result }
    {
        let Some(place) = self.selected else {
            return 0;
        };
        let left = &self.texts[place].bytes[self.taken..];
        let count = buf.len().min(most).min(left.len());
        buf[..count].copy_from_slice(&left[..count]);
        self.taken += count;
        count
    }
}
