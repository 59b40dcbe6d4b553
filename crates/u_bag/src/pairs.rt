//! The search for a pairing of the blocks of two sums.
ghost use Rattle.std.specs.Prelude.{◌≡◌, All, IfOk, MatchOption, None, length};
ghost use Rattle.u_rules.specs.Terms as spec;
ghost use Rattle.u_rules.specs.Terms.{add_leaves};
ghost use Rattle.term_shapes.specs.TermShape.{term_shape};
ghost use Rattle.u_bag.specs.Pairs.{AreBlocks, AreFoundAmong, ArePartners, AreTables, IsAnswer, IsBlock, IsPartner, IsOfWholeShape, SomeShapeless};

use crate::NoMemory;
use bag_search::{Match, match_shapes};
use shapes::{Entry, Shape};
use std::alloc::Global;
use term_shapes::shape_of;
use u_rules::leaves;
use u_terms::{List, U};

/// A block of a sum: its shape, and the tables of its entries in order.
#[derive(Drop)]
pub struct Block<'a> {
    pub term: &'a U,
    pub shape: Shape,
    pub tables: Vec<(u32, u32)>,
}

/// Two blocks, and for each entry of the left one the entry of the right one.
#[derive(Drop)]
pub struct Pair<'a> {
    pub left: &'a U,
    pub right: &'a U,
    pub entries: List<u32>,
}

/// What the search for a block comes to.
#[derive(Drop)]
pub enum Partner {
    /// Where it stands among the others, and how its entries are paired.
    At(usize, List<u32>),
    Nowhere,
    Spent,
}

/// What the search for all blocks comes to.
#[derive(Drop)]
pub enum Partners<'a> {
    All(Vec<Pair<'a>>),
    Nothing,
    Spent,
}

/// The blocks of two sums, each with its partner.
pub fn pair_sums<'a>(
    alloc: Global,
    outs: u32,
    left: &'a U,
    right: &'a U,
    budget: u64,
) -> Result<Partners<'a>, NoMemory>
    ensures { IfOk result (ArePartners outs (add_leaves left.now) (add_leaves right.now) budget) }
{
    let lefts = leaves(alloc, left, false)?;
    let rights = leaves(alloc, right, false)?;
    if lefts.len() != rights.len() {
        return Ok(Partners::Nothing);
    }
    let Some(lefts) = blocks(alloc, outs, lefts.as_slice())? else {
        return Ok(Partners::Nothing);
    };
    let Some(rights) = blocks(alloc, outs, rights.as_slice())? else {
        return Ok(Partners::Nothing);
    };
    pair_all(alloc, lefts.as_slice(), rights, budget)
}

// The blocks with their shapes, where each has one.
fn blocks<'a>(alloc: Global, outs: u32, terms: &[&'a U]) -> Result<Option<Vec<Block<'a>>>, NoMemory>
    ensures { IfOk result (λ found. MatchOption found (SomeShapeless outs (spec.terms terms.now)) (λ blocks. AreBlocks outs (spec.terms terms.now) blocks.items)) }
{
    let mut blocks = Vec::with_capacity(alloc, terms.len())?;
    for term in terms {
        match block_of(alloc, outs, term)? {
            Some(block) => blocks.push(block)?,
            None => return Ok(None),
        }
    }
    Ok(Some(blocks))
}

// The block with its shape, where it has one.
fn block_of<'a>(alloc: Global, outs: u32, term: &'a U) -> Result<Option<Block<'a>>, NoMemory>
    ensures { IfOk result (λ found. MatchOption found (term_shape outs term.now ≡ None) (λ block. (block.term.now ≡ term.now) × IsBlock outs block)) }
{
    match shape_of(alloc, outs, term)? {
        Some(shape) => {
            let tables = tables_of(alloc, shape.entries.as_slice())?;
            Ok(Some(Block {
                term,
                shape,
                tables,
            }))
        }
        None => Ok(None),
    }
}

// The tables of entries, in an order that is the same for the same tables.
fn tables_of(alloc: Global, entries: &[Entry]) -> Result<Vec<(u32, u32)>, NoMemory>
    ensures { IfOk result (λ tables. AreTables entries.now tables.items) }
{
    let mut tables = Vec::with_capacity(alloc, entries.len())?;
    for entry in entries {
        tables.push((entry.table, entry.columns))?;
    }
    tables.sort()?;
    Ok(tables)
}

// Each of the left blocks with the first of the right ones that is left over and can be paired with it.
fn pair_all<'a>(
    alloc: Global,
    lefts: &[Block<'a>],
    rights: Vec<Block<'a>>,
    budget: u64,
) -> Result<Partners<'a>, NoMemory>
    requires lefts { All IsOfWholeShape lefts.now }
    requires rights { All IsOfWholeShape rights.items }
    requires as_many { length lefts.now ≡ length rights.items }
    ensures { IfOk result (AreFoundAmong lefts.now rights.entry.items budget) }
{
    let mut rest = rights;
    let mut pairs = Vec::with_capacity(alloc, lefts.len())?;
    for left in lefts {
        match first_partner(alloc, left, rest.as_slice(), budget)? {
            Partner::At(place, entries) => {
                let right = rest.remove(place);
                pairs.push(Pair {
                    left: left.term,
                    right: right.term,
                    entries,
                })?;
            }
            Partner::Nowhere => return Ok(Partners::Nothing),
            Partner::Spent => return Ok(Partners::Spent),
        }
    }
    Ok(Partners::All(pairs))
}

// The first block that can be paired. Where there is none, whether the budget ended a search.
fn first_partner(
    alloc: Global,
    left: &Block<'_>,
    rights: &[Block<'_>],
    budget: u64,
) -> Result<Partner, NoMemory>
    requires left { IsOfWholeShape left.now }
    requires rights { All IsOfWholeShape rights.now }
    ensures { IfOk result (IsPartner left.now.shape rights.now budget) }
{
    let mut spent = false;
    for (place, right) in rights.iter().enumerate() {
        match alike(alloc, left, right, budget)? {
            Match::Found(entries) => return Ok(Partner::At(place, entries)),
            Match::Nothing => {}
            Match::Spent => spent = true,
        }
    }
    if spent {
        Ok(Partner::Spent)
    } else {
        Ok(Partner::Nowhere)
    }
}

// How the entries of two blocks are paired. Blocks of other tables are told apart without a search.
fn alike(alloc: Global, left: &Block<'_>, right: &Block<'_>, budget: u64) -> Result<Match, NoMemory>
    requires left { IsOfWholeShape left.now }
    requires right { IsOfWholeShape right.now }
    ensures { IfOk result (IsAnswer left.now.shape right.now.shape budget) }
{
    if left.tables == right.tables {
        match_shapes(alloc, &left.shape, &right.shape, budget)
    } else {
        Ok(Match::Nothing)
    }
}
