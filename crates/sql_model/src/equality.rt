//! Whether trees are equal, places and all. Places are compared first: in the trees of a text they tell most parts apart.
ghost use Rattle.std.specs.Prelude.{◌≡◌, ◌↔◌, IsTrue};

use crate::name::Name;
use crate::tree::{AggFun, Block, Entry, Expr, Item, Query, SetOp, Source};
use plain_data::Boxed;

impl Expr {
    /// Whether both are one tree.
    pub fn is_same(&self, other: &Expr) -> bool
        ensures { IsTrue result ↔ (self.now ≡ other.now) }
    {
        same_expr(self, other)
    }
}

#[cycle(same)]
fn same_expr(a: &Expr, b: &Expr) -> bool
    ensures { IsTrue result ↔ (a.now ≡ b.now) }
{
    match (a, b) {
        (
            Expr::Col {
                qual,
                qual_at,
                name,
                at,
            },
            Expr::Col {
                qual: other_qual,
                qual_at: other_qual_at,
                name: other_name,
                at: other_at,
            },
        ) => {
            at == other_at
                && qual_at == other_qual_at
                && same_written_name(qual, other_qual)
                && same_name(name, other_name)
        }
        (
            Expr::Lit { lit, at },
            Expr::Lit {
                lit: other_lit,
                at: other_at,
            },
        ) => at == other_at && lit == other_lit,
        (
            Expr::Fun { sym, args, at },
            Expr::Fun {
                sym: other_sym,
                args: other_args,
                at: other_at,
            },
        )
        | (
            Expr::Pred { sym, args, at },
            Expr::Pred {
                sym: other_sym,
                args: other_args,
                at: other_at,
            },
        )
        | (
            Expr::Call { sym, args, at },
            Expr::Call {
                sym: other_sym,
                args: other_args,
                at: other_at,
            },
        ) => {
            at == other_at && sym == other_sym && same_exprs(args.as_slice(), other_args.as_slice())
        }
        (
            Expr::Agg {
                fun,
                distinct,
                arg,
                at,
            },
            Expr::Agg {
                fun: other_fun,
                distinct: other_distinct,
                arg: other_arg,
                at: other_at,
            },
        ) => {
            at == other_at
                && same_flag(*distinct, *other_distinct)
                && same_aggregate(*fun, *other_fun)
                && same_argument(arg, other_arg)
        }
        (
            Expr::Sub { query, at },
            Expr::Sub {
                query: other_query,
                at: other_at,
            },
        )
        | (
            Expr::Exists { query, at },
            Expr::Exists {
                query: other_query,
                at: other_at,
            },
        ) => at == other_at && same_query(query.get(), other_query.get()),
        (
            Expr::Eq { left, right, at },
            Expr::Eq {
                left: other_left,
                right: other_right,
                at: other_at,
            },
        ) => {
            at == other_at
                && same_expr(left.get(), other_left.get())
                && same_expr(right.get(), other_right.get())
        }
        (
            Expr::And { parts, at },
            Expr::And {
                parts: other_parts,
                at: other_at,
            },
        ) => at == other_at && same_exprs(parts.as_slice(), other_parts.as_slice()),
        (
            Expr::Or { parts, at },
            Expr::Or {
                parts: other_parts,
                at: other_at,
            },
        ) => at == other_at && same_exprs(parts.as_slice(), other_parts.as_slice()),
        (
            Expr::Not { part, at },
            Expr::Not {
                part: other_part,
                at: other_at,
            },
        ) => at == other_at && same_expr(part.get(), other_part.get()),
        (
            Expr::In {
                value,
                query,
                at,
                in_at,
            },
            Expr::In {
                value: other_value,
                query: other_query,
                at: other_at,
                in_at: other_in_at,
            },
        ) => {
            at == other_at
                && in_at == other_in_at
                && same_expr(value.get(), other_value.get())
                && same_query(query.get(), other_query.get())
        }
        _ => false,
    }
}

#[cycle(same)]
fn same_exprs(a: &[Expr], b: &[Expr]) -> bool
    ensures { IsTrue result ↔ (a.now ≡ b.now) }
{
    if a.len() != b.len() {
        return false;
    }
    for (x, y) in a.iter().zip(b) {
        if !same_expr(x, y) {
            return false;
        }
    }
    true
}

#[cycle(same)]
#[inline(never)]
fn same_argument(a: &Option<Boxed<Expr>>, b: &Option<Boxed<Expr>>) -> bool
    ensures { IsTrue result ↔ (a.now ≡ b.now) }
{
    match (a, b) {
        (Some(x), Some(y)) => same_expr(x.get(), y.get()),
        (None, None) => true,
        _ => false,
    }
}

#[cycle(same)]
#[inline(never)]
fn same_query(a: &Query, b: &Query) -> bool
    ensures { IsTrue result ↔ (a.now ≡ b.now) }
{
    match (a, b) {
        (Query::Block { block }, Query::Block { block: other }) => {
            same_block(block.get(), other.get())
        }
        (
            Query::Set {
                op,
                left,
                right,
                at,
            },
            Query::Set {
                op: other_op,
                left: other_left,
                right: other_right,
                at: other_at,
            },
        ) => {
            at == other_at
                && same_operator(*op, *other_op)
                && same_query(left.get(), other_left.get())
                && same_query(right.get(), other_right.get())
        }
        _ => false,
    }
}

#[cycle(same)]
#[inline(never)]
#[tactic(auto, using(crate::proofs::SameTrees::laws))]
fn same_block(a: &Block, b: &Block) -> bool
    ensures { IsTrue result ↔ (a.now ≡ b.now) }
{
    if !same_flag(a.distinct, b.distinct) {
        return false;
    }
    if !same_items(a.items.as_slice(), b.items.as_slice()) {
        return false;
    }
    if !same_entries(a.entries.as_slice(), b.entries.as_slice()) {
        return false;
    }
    if !same_condition(&a.cond, &b.cond) || !same_condition(&a.having, &b.having) {
        return false;
    }
    match (&a.groups, &b.groups) {
        (Some(x), Some(y)) => same_exprs(x.as_slice(), y.as_slice()),
        (None, None) => true,
        _ => false,
    }
}

#[cycle(same)]
#[inline(never)]
fn same_condition(a: &Option<Expr>, b: &Option<Expr>) -> bool
    ensures { IsTrue result ↔ (a.now ≡ b.now) }
{
    match (a, b) {
        (Some(x), Some(y)) => same_expr(x, y),
        (None, None) => true,
        _ => false,
    }
}

#[cycle(same)]
fn same_items(a: &[Item], b: &[Item]) -> bool
    ensures { IsTrue result ↔ (a.now ≡ b.now) }
{
    if a.len() != b.len() {
        return false;
    }
    for (x, y) in a.iter().zip(b) {
        if !same_item(x, y) {
            return false;
        }
    }
    true
}

#[cycle(same)]
fn same_item(a: &Item, b: &Item) -> bool
    ensures { IsTrue result ↔ (a.now ≡ b.now) }
{
    match (a, b) {
        (Item::Star { at }, Item::Star { at: other_at }) => at == other_at,
        (
            Item::AliasStar { alias, at },
            Item::AliasStar {
                alias: other_alias,
                at: other_at,
            },
        ) => at == other_at && same_name(alias, other_alias),
        (
            Item::Value { expr, name },
            Item::Value {
                expr: other_expr,
                name: other_name,
            },
        ) => same_expr(expr, other_expr) && same_written_name(name, other_name),
        _ => false,
    }
}

#[cycle(same)]
fn same_entries(a: &[Entry], b: &[Entry]) -> bool
    ensures { IsTrue result ↔ (a.now ≡ b.now) }
{
    if a.len() != b.len() {
        return false;
    }
    for (x, y) in a.iter().zip(b) {
        if !same_entry(x, y) {
            return false;
        }
    }
    true
}

#[cycle(same)]
fn same_entry(a: &Entry, b: &Entry) -> bool
    ensures { IsTrue result ↔ (a.now ≡ b.now) }
{
    a.at == b.at
        && same_flag(a.joined, b.joined)
        && same_name(&a.alias, &b.alias)
        && same_source(&a.source, &b.source)
        && same_condition(&a.on, &b.on)
}

#[cycle(same)]
#[inline(never)]
fn same_source(a: &Source, b: &Source) -> bool
    ensures { IsTrue result ↔ (a.now ≡ b.now) }
{
    match (a, b) {
        (
            Source::Named { name, at },
            Source::Named {
                name: other_name,
                at: other_at,
            },
        ) => at == other_at && same_name(name, other_name),
        (Source::Query { query }, Source::Query { query: other }) => {
            same_query(query.get(), other.get())
        }
        _ => false,
    }
}

#[tactic(auto, using(crate::proofs::Names::laws))]
fn same_name(a: &Name, b: &Name) -> bool
    ensures { IsTrue result ↔ (a.now ≡ b.now) }
{
    a == b
}

fn same_written_name(a: &Option<Name>, b: &Option<Name>) -> bool
    ensures { IsTrue result ↔ (a.now ≡ b.now) }
{
    match (a, b) {
        (Some(m), Some(n)) => same_name(m, n),
        (None, None) => true,
        _ => false,
    }
}

fn same_flag(a: bool, b: bool) -> bool
    ensures { IsTrue result ↔ (a ≡ b) }
{
    match (a, b) {
        (true, true) | (false, false) => true,
        _ => false,
    }
}

fn same_aggregate(a: AggFun, b: AggFun) -> bool
    ensures { IsTrue result ↔ (a ≡ b) }
{
    match (a, b) {
        (AggFun::Count, AggFun::Count)
        | (AggFun::Sum, AggFun::Sum)
        | (AggFun::Avg, AggFun::Avg)
        | (AggFun::Min, AggFun::Min)
        | (AggFun::Max, AggFun::Max) => true,
        _ => false,
    }
}

fn same_operator(a: SetOp, b: SetOp) -> bool
    ensures { IsTrue result ↔ (a ≡ b) }
{
    match (a, b) {
        (SetOp::UnionAll, SetOp::UnionAll)
        | (SetOp::Union, SetOp::Union)
        | (SetOp::Except, SetOp::Except)
        | (SetOp::Intersect, SetOp::Intersect) => true,
        _ => false,
    }
}
