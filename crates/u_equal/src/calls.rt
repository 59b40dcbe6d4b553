//! The calls among values, by the places of their arguments.
ghost use Rattle.std.specs.Prelude.{◌≡◌, ◌<◌, ◌≤◌, IfOk, OnOk, Some, slice_get, length};
ghost use Rattle.u_terms.specs.declared.term.Val.TheVariants as v;
ghost use Rattle.u_equal.specs.Joined.{FirstAt, IsTree, label_at, label_now, seen};
ghost use Rattle.u_equal.specs.Tables as spec;
ghost use Rattle.u_equal.specs.Tables.{ArePlaces, AreCallsOf, HasArguments, IsCall};

use crate::NoMemory;
use crate::forest::Forest;
use std::alloc::Global;
use std::hash::{Hash, Hasher};
use u_terms::{List, Val};

/// A call among the values of a table: its place, its function and the places of its arguments.
#[derive(Drop)]
pub struct Call {
    pub place: usize,
    pub symbol: u32,
    pub arguments: List<usize>,
}

/// The function of a call and the classes of its arguments.
#[derive(Drop)]
pub struct Signature {
    pub symbol: u32,
    pub classes: List<usize>,
}

impl PartialEq for Signature {
    ghost use Rattle.std.proofs.Common.{rules};
    ghost use Rattle.std.specs.Cmp.Rules.{comparing};
    ghost use Rattle.u_equal.specs.Tables.{same_signature};

    ghost eq = { same_signature };

    ghost laws = { Prim.search (comparing, rules) };

    fn eq(&self, other: &Signature) -> bool {
        self.symbol == other.symbol && self.classes.as_slice() == other.classes.as_slice()
    }
}

impl Eq for Signature {
    ghost use Rattle.std.proofs.Common.{rules};
    ghost use Rattle.std.specs.Cmp.Rules.{comparing};

    ghost laws = { Prim.search (comparing, rules) };
}

impl Hash for Signature {
    ghost use Rattle.std.specs.Prelude.{◌++◌};
    ghost use Rattle.std.proofs.Common.{rules};
    ghost use Rattle.std.specs.Cmp.Rules.{hashing};
    ghost use Rattle.std.specs.Hash as fed;

    ghost hash_input = { λ signature. fed.u32 signature.symbol ++ fed.slice fed.usize signature.classes };

    ghost respects_eq = { Prim.search (hashing, rules) };

    fn hash<H: Hasher>(&self, state: &mut H) {
        state.write_u32(self.symbol);
        self.classes.as_slice().hash(state);
    }
}

/// The calls among the values of a forest, in their order.
pub fn calls_of(alloc: Global, forest: &Forest) -> Result<Vec<Call>, NoMemory>
    requires { HasArguments forest.now.values.keys }
    ensures { IfOk result (λ calls. AreCallsOf forest.now.values.keys calls.items) }
{
    let mut calls = Vec::new(alloc);
    let keys = forest.values.as_slice();
    for (place, key) in keys.iter().enumerate() {
        if let Val::Fun(symbol, args) = key.value {
            calls.push(Call {
                place,
                symbol: *symbol,
                arguments: places_of(alloc, forest, args.as_slice())?,
            })?;
        }
    }
    Ok(calls)
}

// The places of values of the table.
fn places_of(alloc: Global, forest: &Forest, values: &[Val]) -> Result<List<usize>, NoMemory>
    requires { spec.AreIn values.now forest.now.values.keys }
    ensures { IfOk result (λ places. ArePlaces forest.now.values.keys values.now places) }
{
    let mut places = Vec::with_capacity(alloc, values.len())?;
    for value in values {
        places.push(forest.place_of(value))?;
    }
    Ok(List::from_vec(places))
}

impl Call {
    /// The function and the classes of the arguments as they are now.
    pub fn signature(&self, alloc: Global, forest: &Forest) -> Result<Signature, NoMemory>
        requires tree { IsTree forest.now }
        requires call { IsCall forest.now.values.keys self.now }
        ensures { IfOk result (λ signature. signature ≡ spec.signature (label_now (seen forest.now)) self.now) }
    {
        self.signature_at(alloc, forest, forest.edges.len())
    }

    /// The function and the classes of the arguments as they were after the first edges.
    pub fn signature_at(
        &self,
        alloc: Global,
        forest: &Forest,
        upto: usize,
    ) -> Result<Signature, NoMemory>
        requires tree { IsTree forest.now }
        requires upto { upto ≤ length forest.now.edges.items }
        requires call { IsCall forest.now.values.keys self.now }
        ensures { IfOk result (λ signature. signature ≡ spec.signature (label_at forest.now.edges.items upto) self.now) }
    {
        let mut classes = Vec::with_capacity(alloc, self.arguments.len())?;
        for place in self.arguments.as_slice() {
            classes.push(forest.class_at(upto, *place))?;
        }
        Ok(Signature {
            symbol: self.symbol,
            classes: List::from_vec(classes),
        })
    }
}
