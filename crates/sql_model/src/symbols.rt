//! The numbers of literals and symbols.
ghost use Rattle.std.specs.Prelude.{◌≡◌, ◌∷◌, [], IfOk, OnOk};
ghost use Rattle.indexmap.specs.IndexSet.{insert_all};
ghost use Rattle.sql_model.specs.Columns.{same_name};
ghost use Rattle.sql_model.specs.FixedSymbols.{fixed_literals, fixed_symbols};

use crate::NoMemory;
use crate::name::Name;
use indexmap::IndexSet;
use std::alloc::Global;

/// How a literal is written: `12.5` is a number, `'12.5'` a text.
#[derive(Clone, Copy, Debug, PartialEq, Eq, Hash)]
pub enum LitKind {
    Number,
    Text,
}

/// A literal. A number has its normalised text: no leading zeros but for one before the point, no trailing ones after it.
#[derive(Drop, PartialEq, Eq, Hash)]
pub struct Lit {
    pub kind: LitKind,
    pub text: Name,
}

/// The literals and the symbols of a case; each has its place here as its number.
#[derive(Drop)]
pub struct Symbols {
    pub lits: IndexSet<Lit>,
    pub syms: IndexSet<Name>,
}

impl Symbols {
    /// The members that every case has.
    pub fn new(alloc: Global) -> Result<Symbols, NoMemory>
        ensures literals { IfOk result (λ symbols. symbols.lits.keys ≡ fixed_literals) }
        ensures symbols { IfOk result (λ symbols. symbols.syms.keys ≡ fixed_symbols) }
    {
        Ok(Symbols {
            lits: fixed_literals(alloc)?,
            syms: fixed_symbols(alloc)?,
        })
    }
}

fn fixed_literals(alloc: Global) -> Result<IndexSet<Lit>, NoMemory>
    ensures { IfOk result (λ lits. lits.keys ≡ fixed_literals) }
{
    let one = Lit {
        kind: LitKind::Number,
        text: Name::new(alloc, b"1")?,
    };
    let mut lits = IndexSet::new(alloc);
    lits.insert(one)?;
    Ok(lits)
}

fn fixed_symbols(alloc: Global) -> Result<IndexSet<Name>, NoMemory>
    ensures { IfOk result (λ syms. syms.keys ≡ fixed_symbols) }
{
    let mut syms = IndexSet::new(alloc);
    for text in ["<", "<=", "like", "+", "-", "*", "/", "||"] {
        insert_symbol(alloc, &mut syms, text)?;
    }
    Ok(syms)
}

fn insert_symbol(alloc: Global, syms: &mut IndexSet<Name>, text: &str) -> Result<(), NoMemory>
    ensures { OnOk result (syms.new.keys ≡ insert_all same_name syms.old.keys (text.now ∷ [])) }
{
    syms.insert(Name::new(alloc, text.as_bytes())?)?;
    Ok(())
}
