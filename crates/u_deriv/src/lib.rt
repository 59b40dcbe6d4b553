//! Paths into a term, the subterm at a path, steps that rewrite a term in place, and the laws of contexts and of steps.
#![tactic(auto)]

mod applying;
mod edit;
mod fault;
pub mod laws;
mod outlines;
mod path;
mod place;
mod replacing;
mod run;
mod sides;
mod spending;
mod step;
mod subterm;
mod way;

pub use applying::{apply, exchange};
pub use fault::StepFault;
pub use path::Path;
pub use place::Place;
pub use replacing::replace;
pub use run::Run;
pub use spending::{Measured, exchange_spending, measure};
pub use std::alloc::AllocError as NoMemory;
pub use step::Step;
pub use subterm::at;
