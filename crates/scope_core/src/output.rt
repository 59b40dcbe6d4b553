//! The columns of a query's answer, by name.
ghost use Rattle.std.specs.Prelude.{◌≡◌, ◌∷◌, [], true, IfSome, length, option_map};
ghost use Rattle.std.specs.List.{flat_map};
ghost use Rattle.std.specs.Option.{option_or};
ghost use Rattle.sql_model.specs.Headings.{item_columns, own_name};
ghost use Rattle.scope_core.specs.Lent.{list_columns};

use crate::guide::Guide;
use crate::heading::Heading;
use sql_model::{Expr, Item, Name};
use std::marker::Model;

/// What the columns of a query's answer are made of: the items of the block that names them, over what stands behind the names of its FROM.
#[derive(Drop)]
pub struct Projection<'k, 'a> {
    items: &'a [Item],
    headings: Vec<Heading<'k, 'a>>,
    width: usize,
}

impl<'k, 'a> Model for Projection<'k, 'a> {
    ghost use Rattle.std.specs.Prelude.{◌≡◌, List, length};
    ghost use Rattle.sql_model.specs.Frames.{ColumnName};
    ghost use Rattle.scope_core.specs.Lent.{list_columns};

    ghost Value = { List ColumnName };

    ghost view = { λ p. list_columns p.items.now p.headings.items };

    ghost invariant = { λ p. p.width ≡ length (list_columns p.items.now p.headings.items) };
}

impl<'k, 'a> Projection<'k, 'a> {
    /// These items over these headings; `width` is how many columns they have.
    pub fn new(
        items: &'a [Item],
        headings: Vec<Heading<'k, 'a>>,
        width: usize,
    ) -> Projection<'k, 'a>
        requires { width ≡ length (list_columns items.now headings.items) }
        ensures { result ≡ list_columns items.entry.now headings.entry.items }
    {
        Projection {
            items,
            headings,
            width,
        }
    }

    /// How many columns there are.
    pub fn width(&self) -> usize
        ensures { result ≡ length self.now }
    {
        self.width
    }

    /// The columns, handed on where they are all those of one source.
    #[tactic(auto, using(crate::proofs::resolving::Outputs::items))]
    pub fn into_only(self) -> Option<Guide<'k, 'a>>
        ensures { IfSome result (λ columns. columns ≡ self.entry) }
    {
        let Projection {
            items,
            mut headings,
            ..
        } = self;
        if !are_all_of_one(items, headings.as_slice()) {
            return None;
        }
        let heading = headings.pop()?;
        Some(heading.into_columns())
    }
}

/// Whether items are all columns of a block's only source.
#[tactic(auto, using(crate::proofs::resolving::Outputs::items))]
fn are_all_of_one(items: &[Item], headings: &[Heading]) -> bool
    ensures one { result ≡ true → length headings.now ≡ 1 }
    ensures all { result ≡ true → list_columns items.now headings.now ≡ flat_map (λ h. h.columns) headings.now }
{
    if items.len() != 1 {
        return false;
    }
    headings.len() == 1 && is_all(&items[0], &headings[0])
}

/// Whether an item is all columns of its block's only source.
#[tactic(auto, using(crate::proofs::resolving::Outputs::items))]
fn is_all(item: &Item, source: &Heading) -> bool
    ensures { result ≡ true → item_columns item.now (source.now ∷ []) ≡ source.now.columns }
{
    match item {
        Item::Star { .. } => true,
        Item::AliasStar { alias, .. } => source.is_alias(alias),
        Item::Value { .. } => false,
    }
}

/// The alias of an item, or else the name of the column that it is.
pub fn item_name<'a>(expr: &'a Expr, name: &'a Option<Name>) -> Option<&'a Name>
    ensures { option_map (λ n. n.now) result ≡ option_or name.now (own_name expr.now) }
{
    match (name, expr) {
        (Some(alias), _) => Some(alias),
        (None, Expr::Col { name, .. }) => Some(name),
        _ => None,
    }
}
