//! Lists that take no more room than they need.
ghost use Rattle.std.specs.Prelude.{◌≡◌, ◌++◌, ◌∷◌, [], OnOk};

use plain_data::List;
use sql_model::NoMemory;
use std::alloc::Global;

/// Appends an item to a list that seldom has more than one. A list without items takes room for this one alone, where `List::push` would take
/// room for four.
pub fn push<T: Drop>(list: &mut List<T>, alloc: Global, item: T) -> Result<(), NoMemory>
    ensures ok { OnOk result (list.new ≡ list.old ++ item ∷ []) }
{
    if list.is_empty() {
        *list = List::from_vec(Vec::with_capacity(alloc, 1)?);
    }
    list.push(item)?;
    Ok(())
}

/// The list without room for more.
pub fn fitted<T: Drop>(list: List<T>) -> List<T>
    ensures { result ≡ list }
{
    let mut items = list.into_vec();
    items.shrink_to_fit();
    List::from_vec(items)
}
