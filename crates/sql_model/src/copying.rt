//! Equal trees, in memory of their own but for names, the left sides of `=` and of IN, and the parts of ANDs.
//!
//! A chain of operators is as deep as it is long, so the functions on the way down keep small frames: what needs room of its own is
//! kept out of them by `inline(never)`.
ghost use Rattle.std.specs.Prelude.{◌≡◌, ◌++◌, ◌∷◌, [], IfOk, MatchResult, OnOk};
ghost use Rattle.sql_model.specs.declared.tree.Expr.TheVariants as expr;

use crate::NoMemory;
use crate::name::Name;
use crate::tree::{AggFun, Block, Entry, Expr, Item, Query, Source};
use plain_data::{Boxed, List};
use std::alloc::Global;

impl Expr {
    /// An equal tree. What stands to the left of `=` and of IN, and the parts of ANDs, share the memory of this one's.
    #[cycle(copy)]
    pub fn copy(&self, alloc: Global) -> Result<Expr, NoMemory>
        ensures { IfOk result (λ copy. copy ≡ self.now) }
    {
        match self {
            Expr::Col {
                qual,
                qual_at,
                name,
                at,
            } => copy_column(alloc, qual, *qual_at, name, *at),
            Expr::Lit { lit, at } => Ok(Expr::Lit { lit: *lit, at: *at }),
            Expr::Fun { sym, args, at } => Ok(Expr::Fun {
                sym: *sym,
                args: copy_exprs(alloc, args.as_slice())?,
                at: *at,
            }),
            Expr::Pred { sym, args, at } => Ok(Expr::Pred {
                sym: *sym,
                args: copy_exprs(alloc, args.as_slice())?,
                at: *at,
            }),
            Expr::Call { sym, args, at } => Ok(Expr::Call {
                sym: *sym,
                args: copy_exprs(alloc, args.as_slice())?,
                at: *at,
            }),
            Expr::Agg {
                fun,
                distinct,
                arg,
                at,
            } => copy_aggregate(alloc, *fun, *distinct, arg, *at),
            Expr::Sub { query, at } => Ok(Expr::Sub {
                query: copy_query(alloc, query)?,
                at: *at,
            }),
            Expr::Eq { left, right, at } => Ok(Expr::Eq {
                left: left.share()?,
                right: copy_expr(alloc, right)?,
                at: *at,
            }),
            Expr::And { parts, at } => Ok(Expr::And {
                parts: parts.share()?,
                at: *at,
            }),
            Expr::Or { parts, at } => Ok(Expr::Or {
                parts: copy_exprs(alloc, parts.as_slice())?,
                at: *at,
            }),
            Expr::Not { part, at } => Ok(Expr::Not {
                part: copy_expr(alloc, part)?,
                at: *at,
            }),
            Expr::Exists { query, at } => Ok(Expr::Exists {
                query: copy_query(alloc, query)?,
                at: *at,
            }),
            Expr::In {
                value,
                query,
                at,
                in_at,
            } => Ok(Expr::In {
                value: value.share()?,
                query: copy_query(alloc, query)?,
                at: *at,
                in_at: *in_at,
            }),
        }
    }
}

impl Query {
    /// An equal tree. What stands to the left of `=` and of IN, and the parts of ANDs, share the memory of this one's.
    pub fn copy(&self, alloc: Global) -> Result<Query, NoMemory>
        ensures { IfOk result (λ copy. copy ≡ self.now) }
    {
        match self {
            Query::Block { block } => Ok(Query::Block {
                block: copy_block(alloc, block)?,
            }),
            Query::Set {
                op,
                left,
                right,
                at,
            } => Ok(Query::Set {
                op: *op,
                left: copy_query(alloc, left)?,
                right: copy_query(alloc, right)?,
                at: *at,
            }),
        }
    }
}

impl Block {
    #[cycle(copy)]
    #[inline(never)]
    fn copy(&self, alloc: Global) -> Result<Block, NoMemory>
        ensures { IfOk result (λ copy. copy ≡ self.now) }
    {
        let items = copy_items(alloc, self.items.as_slice())?;
        let entries = copy_entries(alloc, self.entries.as_slice())?;
        let groups = match &self.groups {
            Some(columns) => Some(copy_exprs(alloc, columns.as_slice())?),
            None => None,
        };
        Ok(Block {
            distinct: self.distinct,
            items,
            entries,
            groups,
            cond: copy_condition(alloc, &self.cond)?,
            having: copy_condition(alloc, &self.having)?,
        })
    }
}

impl Item {
    #[cycle(copy)]
    #[inline(never)]
    fn copy(&self, alloc: Global) -> Result<Item, NoMemory>
        ensures { IfOk result (λ copy. copy ≡ self.now) }
    {
        match self {
            Item::Star { at } => Ok(Item::Star { at: *at }),
            Item::AliasStar { alias, at } => Ok(Item::AliasStar {
                alias: alias.copy()?,
                at: *at,
            }),
            Item::Value { expr, name } => Ok(Item::Value {
                name: copy_name(name)?,
                expr: expr.copy(alloc)?,
            }),
        }
    }
}

impl Entry {
    #[cycle(copy)]
    #[inline(never)]
    fn copy(&self, alloc: Global) -> Result<Entry, NoMemory>
        ensures { IfOk result (λ copy. copy ≡ self.now) }
    {
        Ok(Entry {
            source: self.source.copy(alloc)?,
            alias: self.alias.copy()?,
            at: self.at,
            joined: self.joined,
            on: copy_condition(alloc, &self.on)?,
        })
    }
}

impl Source {
    #[cycle(copy)]
    #[inline(never)]
    fn copy(&self, alloc: Global) -> Result<Source, NoMemory>
        ensures { IfOk result (λ copy. copy ≡ self.now) }
    {
        match self {
            Source::Named { name, at } => Ok(Source::Named {
                name: name.copy()?,
                at: *at,
            }),
            Source::Query { query } => Ok(Source::Query {
                query: copy_query(alloc, query)?,
            }),
        }
    }
}

#[inline(never)]
fn copy_column(
    alloc: Global,
    qual: &Option<Name>,
    qual_at: u32,
    name: &Name,
    at: u32,
) -> Result<Expr, NoMemory>
    ensures { IfOk result (λ copy. copy ≡ expr.Col qual.now qual_at name.now at) }
{
    Ok(Expr::Col {
        qual: copy_name(qual)?,
        qual_at,
        name: name.copy()?,
        at,
    })
}

fn copy_name(name: &Option<Name>) -> Result<Option<Name>, NoMemory>
    ensures { IfOk result (λ copy. copy ≡ name.now) }
{
    match name {
        Some(name) => Ok(Some(name.copy()?)),
        None => Ok(None),
    }
}

#[cycle(copy)]
#[inline(never)]
fn copy_expr(alloc: Global, expr: &Boxed<Expr>) -> Result<Boxed<Expr>, NoMemory>
    ensures { IfOk result (λ copy. copy ≡ expr.now) }
{
    Boxed::new(alloc, expr.get().copy(alloc)?)
}

#[cycle(copy)]
#[inline(never)]
fn copy_query(alloc: Global, query: &Boxed<Query>) -> Result<Boxed<Query>, NoMemory>
    ensures { IfOk result (λ copy. copy ≡ query.now) }
{
    match query.get() {
        Query::Block { block } => {
            let block = copy_block(alloc, block)?;
            boxed_query(alloc, Query::Block { block })
        }
        Query::Set {
            op,
            left,
            right,
            at,
        } => {
            let left = copy_query(alloc, left)?;
            let right = copy_query(alloc, right)?;
            boxed_query(
                alloc,
                Query::Set {
                    op: *op,
                    left,
                    right,
                    at: *at,
                },
            )
        }
    }
}

#[inline(never)]
fn boxed_query(alloc: Global, query: Query) -> Result<Boxed<Query>, NoMemory>
    ensures { IfOk result (λ boxed. boxed ≡ query) }
{
    Boxed::new(alloc, query)
}

#[cycle(copy)]
#[inline(never)]
fn copy_block(alloc: Global, block: &Boxed<Block>) -> Result<Boxed<Block>, NoMemory>
    ensures { IfOk result (λ copy. copy ≡ block.now) }
{
    Boxed::new(alloc, block.get().copy(alloc)?)
}

#[cycle(copy)]
#[inline(never)]
fn copy_aggregate(
    alloc: Global,
    fun: AggFun,
    distinct: bool,
    arg: &Option<Boxed<Expr>>,
    at: u32,
) -> Result<Expr, NoMemory>
    ensures { IfOk result (λ copy. copy ≡ expr.Agg fun distinct arg.now at) }
{
    let arg = match arg {
        Some(expr) => Some(Boxed::new(alloc, expr.get().copy(alloc)?)?),
        None => None,
    };
    Ok(Expr::Agg {
        fun,
        distinct,
        arg,
        at,
    })
}

#[cycle(copy)]
#[inline(never)]
fn copy_condition(alloc: Global, condition: &Option<Expr>) -> Result<Option<Expr>, NoMemory>
    ensures { IfOk result (λ copy. copy ≡ condition.now) }
{
    match condition {
        Some(expr) => Ok(Some(expr.copy(alloc)?)),
        None => Ok(None),
    }
}

#[cycle(copy)]
#[inline(never)]
fn copy_exprs(alloc: Global, exprs: &[Expr]) -> Result<List<Expr>, NoMemory>
    ensures { IfOk result (λ copy. copy ≡ exprs.now) }
{
    let mut copies = Vec::new(alloc);
    append_copies(alloc, exprs, &mut copies)?;
    Ok(List::from_vec(copies))
}

/// Appends copies of expressions. The arguments of operators are copied here, since a chain of operators goes down through them.
#[cycle(copy)]
#[inline(never)]
fn append_copies(alloc: Global, exprs: &[Expr], copies: &mut Vec<Expr>) -> Result<(), NoMemory>
    ensures { OnOk result (copies.new.items ≡ copies.old.items ++ exprs.now) }
{
    copies.reserve_exact(exprs.len())?;
    for expr in exprs {
        match expr {
            Expr::Fun { sym, args, at } => {
                let mut own = Vec::new(alloc);
                append_copies(alloc, args.as_slice(), &mut own)?;
                push_operator(*sym, own, *at, copies)?;
            }
            other => append_copy(other.copy(alloc), copies)?,
        }
    }
    Ok(())
}

#[inline(never)]
fn push_operator(sym: u32, args: Vec<Expr>, at: u32, copies: &mut Vec<Expr>) -> Result<(), NoMemory>
    ensures { OnOk result (copies.new.items ≡ copies.old.items ++ expr.Fun sym args.items at ∷ []) }
{
    copies.push(Expr::Fun {
        sym,
        args: List::from_vec(args),
        at,
    })?;
    Ok(())
}

/// Appends a copy, if there was memory for it.
#[inline(never)]
fn append_copy(copy: Result<Expr, NoMemory>, copies: &mut Vec<Expr>) -> Result<(), NoMemory>
    ensures { OnOk result (MatchResult copy (λ it. copies.new.items ≡ copies.old.items ++ it ∷ []) (λ _. ⊥)) }
{
    copies.push(copy?)?;
    Ok(())
}

#[cycle(copy)]
fn copy_items(alloc: Global, items: &[Item]) -> Result<List<Item>, NoMemory>
    ensures { IfOk result (λ copy. copy ≡ items.now) }
{
    let mut copies = Vec::with_capacity(alloc, items.len())?;
    for item in items {
        copies.push(item.copy(alloc)?)?;
    }
    Ok(List::from_vec(copies))
}

#[cycle(copy)]
fn copy_entries(alloc: Global, entries: &[Entry]) -> Result<List<Entry>, NoMemory>
    ensures { IfOk result (λ copy. copy ≡ entries.now) }
{
    let mut copies = Vec::with_capacity(alloc, entries.len())?;
    for entry in entries {
        copies.push(entry.copy(alloc)?)?;
    }
    Ok(List::from_vec(copies))
}
