//! Values, and aggregates among them.
ghost use Rattle.std.specs.Prelude.{◌≡◌};
ghost use Rattle.sql_to_u.specs.Sizes.{scalar_size, value_size, with_factors};
ghost use Rattle.sql_to_u.specs.Listed.{argument_size_written, item_sizes_listed, row_sizes, values_size_listed};

use crate::aggregate::counts_rows;
use crate::product::{GroupSize, Product, Row, no_group};
use crate::size::{Size, beside, both, leaf, nothing, over, squash_if, under};
use crate::sizing::block::{group_size, joined_size};
use plain_data::Boxed;
use scope_core::items::Parts;
use scope_core::{Items, RBlock, RVal};

/// The equalities of the items with the values of a row.
#[cycle(sizes)]
pub fn add_items(
    before: Product,
    items: &Items<RVal>,
    group: GroupSize,
    row: Row,
    views: &[Size],
) -> Product
    ensures { result ≡ with_factors before (item_sizes_listed views.now group items.now (row_sizes row)) }
{
    let Parts {
        before: front,
        last,
    } = items.parts();
    let mut factors = before;
    let mut rest = row;
    for part in front {
        let values = part.get().as_slice();
        factors = add_values(factors, values, group, rest, views);
        rest = rest.after(values.len());
    }
    add_values(factors, last, group, rest, views)
}

/// The same of values that stand in one slice.
#[cycle(sizes)]
fn add_values(
    before: Product,
    items: &[RVal],
    group: GroupSize,
    row: Row,
    views: &[Size],
) -> Product
    ensures { result ≡ with_factors before (item_sizes_listed views.now group items.now (row_sizes row)) }
{
    let mut factors = before;
    for (index, item) in items.iter().enumerate() {
        if let Some(size) = row.get(index) {
            factors = factors.with(both(value_size(item, group, views), size));
        }
    }
    factors
}

/// Of a value, as it stands where the members of the innermost group are these.
#[cycle(sizes)]
#[tactic(auto, using(crate::proofs::sizes::SizeLaws::at_nodes))]
pub fn value_size(value: &RVal, group: GroupSize, views: &[Size]) -> Size
    ensures { result ≡ value_size views.now value.now group }
{
    match value {
        RVal::Col { .. } => leaf(),
        RVal::Key { .. } => leaf(),
        RVal::Lit { .. } => leaf(),
        RVal::Fun { args, .. } => under(values_size(nothing(), args.as_slice(), group, views)),
        RVal::Agg { fun, distinct, arg } => {
            let value = argument_size(arg, counts_rows(*fun, *distinct), views);
            let inside = group.factors.with(both(value, leaf())).size();
            under(squash_if(*distinct, over(group.columns, inside)))
        }
        RVal::Sub { block } => scalar_size(block.get(), views),
    }
}

#[cycle(sizes)]
fn argument_size(arg: &Option<Boxed<RVal>>, counting: bool, views: &[Size]) -> Size
    ensures { result ≡ argument_size_written views.now counting arg.now }
{
    match arg {
        None => leaf(),
        Some(value) => {
            if counting {
                return leaf();
            }
            value_size(value.get(), no_group(), views)
        }
    }
}

/// Of values beside each other, after some.
#[cycle(sizes)]
pub fn values_size(before: Size, values: &[RVal], group: GroupSize, views: &[Size]) -> Size
    ensures { result ≡ values_size_listed views.now group values.now before }
{
    let mut whole = before;
    for value in values {
        whole = beside(whole, value_size(value, group, views));
    }
    whole
}

/// Of the one item of a scalar subquery.
#[cycle(sizes)]
#[tactic(auto, using(crate::proofs::sizes::SizeLaws::scalars))]
fn scalar_size(block: &RBlock, views: &[Size]) -> Size
    ensures { result ≡ scalar_size views.now block.now }
{
    match block.items.first() {
        None => leaf(),
        Some(item) => value_size(item, group_size(block, joined_size(block, views)), views),
    }
}
