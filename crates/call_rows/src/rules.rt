//! The two sides of rules.

use crate::fault::CallFault;
use crate::read;
use crate::write::two_texts;
use std::alloc::Global;
use u_rules::{InstanceFault, instance, sizes};
use u_terms::{Boxed, Facts};

/// `sides RULE ARGUMENT ..`: the two sides of the instance, or why there is none.
pub fn sides(alloc: Global, facts: &Facts, words: &str) -> Result<String, CallFault> {
    let (rule, args) = read::instance(alloc, words)?;
    match instance(alloc, facts, rule, &args) {
        Ok((left, right)) => {
            let left = Boxed::new(alloc, left)?;
            two_texts(alloc, left.get(), Boxed::new(alloc, right)?.get())
        }
        Err(InstanceFault::BadInstance { why }) => Ok(format!(in alloc; "{why:?}")?),
        Err(InstanceFault::NoMemory) => Err(CallFault::NoMemory),
    }
}

/// `sizes RULE ARGUMENT ..`: the nodes and the depth of the left and of the right side.
pub fn side_sizes(alloc: Global, facts: &Facts, words: &str) -> Result<String, CallFault> {
    let (rule, args) = read::instance(alloc, words)?;
    let sizes = sizes(facts, rule, &args);
    let (left_nodes, left_depth) = (sizes.left_nodes, sizes.left_depth);
    let (right_nodes, right_depth) = (sizes.right_nodes, sizes.right_depth);
    Ok(format!(in alloc; "{left_nodes} {left_depth} {right_nodes} {right_depth}")?)
}
