ghost use Rattle.std.specs.Prelude.{◌≡◌, ◌==◌, [], ◌∷◌, ◌++◌, IfOk, OnOk};
ghost use Rattle.std.specs.Cmp.Lexicographic.{pointwise};
ghost use Rattle.std.proofs.Common.{rules};
ghost use Rattle.std.specs.Hash as fed;
ghost use Rattle.std.specs.Cmp.Rules.{comparing, hashing};

use crate::NoMemory;
use smallvec::SmallVec;
use std::alloc::Global;
use std::hash::{Hash, Hasher};
use std::marker::Model;
use std::rc::Rc;

/// A name of a table, a column, an alias or a function: its bytes after folding and unquoting
/// (SQL, ISO/IEC 9075-2, 5.2 and 5.4, but with unquoted names folded to lower case).
#[derive(Debug, Drop)]
pub struct Name {
    text: Rc<SmallVec<u8, MOST_INLINE>>,
}

/// A name of at most so many bytes takes one allocation.
const MOST_INLINE: usize = 16;

impl Model for Name {
    ghost use Rattle.std.specs.Prelude.{List, ℕ};

    ghost Value = { List ℕ };

    ghost view = { λ name. name.text.value.items };
}

impl Name {
    /// The name with these bytes, which are taken as they are.
    pub fn new(alloc: Global, text: &[u8]) -> Result<Name, NoMemory>
        ensures { IfOk result (λ name. name ≡ text.now) }
    {
        let text = Rc::new(alloc, SmallVec::from_slice(alloc, text)?)?;
        Ok(Name { text })
    }

    /// The same name again. It shares the bytes of this one.
    pub fn copy(&self) -> Result<Name, NoMemory>
        ensures { IfOk result (λ name. name ≡ self.now) }
    {
        let text = self.text.clone()?;
        Ok(Name { text })
    }

    /// The bytes of the name: of one written as a word those after folding, of a quoted one those between its quotes, a doubled
    /// quote being one.
    pub fn as_bytes(&self) -> &[u8]
        ensures { result.now ≡ self.now }
    {
        self.text.as_slice()
    }
}

/// The bytes of a name that is being made.
#[derive(Drop)]
pub struct NameBuilder {
    text: SmallVec<u8, MOST_INLINE>,
}

impl Model for NameBuilder {
    ghost use Rattle.std.specs.Prelude.{List, ℕ};

    ghost Value = { List ℕ };

    ghost view = { λ builder. builder.text.items };
}

impl NameBuilder {
    /// No bytes yet, with room for so many.
    pub fn with_capacity(alloc: Global, count: usize) -> Result<NameBuilder, NoMemory>
        ensures { IfOk result (λ builder. builder ≡ []) }
    {
        let text = SmallVec::with_capacity(alloc, count)?;
        Ok(NameBuilder { text })
    }

    /// Appends a byte.
    pub fn push(&mut self, byte: u8) -> Result<(), NoMemory>
        ensures { OnOk result (self.new ≡ self.old ++ byte ∷ []) }
    {
        self.text.push(byte)?;
        Ok(())
    }

    /// Appends bytes.
    pub fn extend_from_slice(&mut self, bytes: &[u8]) -> Result<(), NoMemory>
        ensures { OnOk result (self.new ≡ self.old ++ bytes.now) }
    {
        self.text.extend_from_slice(bytes)?;
        Ok(())
    }

    /// The name with these bytes. What more room was taken stays with it.
    pub fn into_name(self, alloc: Global) -> Result<Name, NoMemory>
        ensures { IfOk result (λ name. name ≡ self) }
    {
        let NameBuilder { text } = self;
        let text = Rc::new(alloc, text)?;
        Ok(Name { text })
    }
}

impl PartialEq for Name {
    ghost eq = { pointwise ◌==◌ };

    ghost laws = { Prim.search (comparing, rules) };

    fn eq(&self, other: &Name) -> bool {
        self.as_bytes() == other.as_bytes()
    }
}

impl Eq for Name {
    ghost laws = { Prim.search (comparing, rules) };
}

impl Hash for Name {
    ghost hash_input = { fed.slice fed.u8 };

    ghost respects_eq = { Prim.search (hashing, rules) };

    fn hash<H: Hasher>(&self, state: &mut H) {
        self.as_bytes().hash(state);
    }
}
