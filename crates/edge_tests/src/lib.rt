//! Tests alone: tokens and the numbers of statuses against what is written out here, and files of the system, of which no clause says what they hold.
#![tactic(auto)]

#[cfg(test)]
mod files;
#[cfg(test)]
mod statuses;
#[cfg(test)]
mod tokens;
