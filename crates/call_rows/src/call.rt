//! The calls by their names.

use crate::alike::alike;
use crate::behind::{appended, appended_along, copied, copied_along, repeated};
use crate::checks::{check, paired};
use crate::entailed::{derived, entails, links};
use crate::fault::CallFault;
use crate::lines::line;
use crate::moves::moved;
use crate::normal::{normal_form, rests, step_count};
use crate::places::{part, step};
use crate::readers::{copied_query, folds_to_word, query_tree, spelled_name, statement_trees};
use crate::rules::{side_sizes, sides};
use std::alloc::Global;
use u_terms::Facts;

/// What a call is answered, as text.
pub fn answer(alloc: Global, facts: &Facts, call: &str) -> Result<String, CallFault> {
    let (name, words) = call.split_once(' ').unwrap_or((call, ""));
    match name {
        "alike" => alike(alloc, words),
        "append" => appended(alloc, facts, words),
        "append-along" => appended_along(alloc, facts, words),
        "check" => check(alloc, facts, words),
        "copy" => copied(alloc, facts, words),
        "copy-along" => copied_along(alloc, facts, words),
        "copy-query" => copied_query(alloc, words),
        "derive" => derived(alloc, facts, words),
        "entails" => entails(alloc, words),
        "line" => line(alloc, words),
        "links" => links(alloc, words),
        "move" => moved(alloc, facts, words),
        "name" => spelled_name(alloc, words),
        "normal" => normal_form(alloc, facts, words),
        "pair" => paired(alloc, facts, words),
        "part" => part(alloc, words),
        "query" => query_tree(alloc, words),
        "repeat" => repeated(alloc, facts, words),
        "rests" => rests(alloc, facts, words),
        "sides" => sides(alloc, facts, words),
        "sizes" => side_sizes(alloc, facts, words),
        "statements" => statement_trees(alloc, words),
        "step" => step(alloc, facts, words),
        "steps" => step_count(alloc, facts, words),
        "word" => folds_to_word(alloc, words),
        _ => Err(CallFault::NoSuchCall),
    }
}
