//! The names of a text, of which equal ones share their bytes.
ghost use Rattle.std.specs.Prelude.{◌≡◌, IfOk};
ghost use Rattle.sql_lex.specs.Lexemes.{lexeme_of};
ghost use Rattle.sql_grammar.specs.TokenValues.{name_of};

use super::Tokens;
use crate::values::name_in;
use indexmap::IndexSet;
use sql_lex::Token;
use sql_model::{Name, NoMemory};
use std::alloc::Global;
use std::cell::RefCell;

/// The names that were read, each once. Contracts see nothing of them.
#[derive(Drop)]
pub struct KnownNames {
    names: RefCell<IndexSet<Name>>,
}

impl KnownNames {
    /// None yet, which takes no memory.
    pub fn new(alloc: Global) -> KnownNames {
        KnownNames {
            names: RefCell::new(IndexSet::new(alloc)),
        }
    }

    /// The same name, which shares the bytes of the first one that was equal to it.
    pub fn shared(&self, name: Name) -> Result<Name, NoMemory>
        ensures { IfOk result (λ shared. shared ≡ name) }
    {
        match self.names.try_borrow_mut() {
            Ok(mut names) => known_or_new(&mut *names, name),
            // No borrow outlives a call.
            Err(_) => Ok(name),
        }
    }
}

/// The name of the set that is equal to this one, which is put there where there is none.
fn known_or_new(names: &mut IndexSet<Name>, name: Name) -> Result<Name, NoMemory>
    ensures { IfOk result (λ known. known ≡ name) }
{
    let (place, _) = names.insert_full(name)?;
    match names.get_index(place) {
        Some(known) => known.copy(),
        None => Err(NoMemory),
    }
}

impl<'a> Tokens<'a> {
    /// The name that a word or a quoted name stands for. Names of these tokens that are equal share their bytes.
    pub fn name(&self, alloc: Global, token: &Token<'_>) -> Result<Name, NoMemory>
        ensures { IfOk result (λ name. name ≡ name_of (lexeme_of token.now)) }
    {
        self.names.shared(name_in(alloc, token)?)
    }
}
