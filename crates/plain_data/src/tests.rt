use crate::{Boxed, List, Shared};
use std::test::Fail;

/// A tree that holds itself through both types.
#[derive(Drop)]
struct Tree {
    label: u8,
    first: Option<Boxed<Tree>>,
    others: List<Tree>,
}

#[test]
fn a_list_is_edited_in_place(rt: HostRuntime) -> Result<(), Fail> {
    let mut list = List::from_vec([3u8, 5, 7].to_vec(rt.alloc())?);
    assert!(rt; !list.is_empty());
    assert_eq!(rt; list.len(), 3);
    *list.at_mut(1) = 6;
    list.push(9)?;
    for item in list.as_mut_slice() {
        *item /= 3;
    }
    assert_eq!(rt; list.as_slice(), [1u8, 2, 2, 3].as_slice());
    assert_eq!(rt; list.into_vec().as_slice(), [1u8, 2, 2, 3].as_slice());
    assert!(rt; List::<u8>::new(rt.alloc()).is_empty());
    Ok(())
}

#[test]
fn a_box_is_edited_in_place(rt: HostRuntime) -> Result<(), Fail> {
    let mut boxed = Boxed::new(rt.alloc(), 4u8)?;
    *boxed.get_mut() += 1;
    assert_eq!(rt; *boxed.get(), 5);
    assert_eq!(rt; boxed.into_inner(), 5);
    Ok(())
}

#[test]
fn what_is_shared_outlives_its_first_owner(rt: HostRuntime) -> Result<(), Fail> {
    let first = Shared::new(rt.alloc(), 4u8)?;
    let second = first.share()?;
    drop(first);
    assert_eq!(rt; *second.get(), 4);
    Ok(())
}

#[test]
fn a_tree_holds_itself_through_both(rt: HostRuntime) -> Result<(), Fail> {
    let alloc = rt.alloc();
    let leaf = Tree {
        label: 1,
        first: None,
        others: List::new(alloc),
    };
    let root = Tree {
        label: 2,
        first: Some(Boxed::new(alloc, leaf)?),
        others: List::new(alloc),
    };
    let label = root.first.as_ref().map_or(0, |first| first.get().label);
    assert_eq!(rt; label, 1);
    assert_eq!(rt; (root.label, root.others.len()), (2, 0));
    Ok(())
}
