//! What it comes to that a derivation between the terms of two filtered unions is sought: of small ones that are alike one is found with a budget for
//! all lists of a block's entries, but for want of memory.
#![tactic(auto)]

pub mod laws;
