//! Grammars as data: what a list of tokens spells, after which lists a text may go on, and what one token of lookahead tells.
//!
//! A grammar is a function from names to forms (`specs/Form.antt`), over any tokens that have kinds. One relation says which
//! tokens spell which value and which are a prefix, with a limit on depth and length or with none (`specs/Language.antt`). Any limit is
//! a language of the texts that keep it (`specs/Limits.antt`). What a reader is to do with tokens stands in `specs/Reading.antt`. All
//! of it is definitions in `specs/`, facts in [`laws`], and the steps of readers as lemmas in `proofs/`.
#![tactic(auto)]

pub mod laws;
