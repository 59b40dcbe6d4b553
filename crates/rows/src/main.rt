//! `rows`: runs worked rows, which are written as data (docs/ROWS.md), and tells those that come out otherwise.
#![tactic(auto)]

mod fault;
mod field;
mod files;
mod line;
mod outcome;
mod row;
mod runs;

use crate::files::report_file;
use anyhow::Result;
use row_text::Tally;
use std::env;
use std::process::ExitCode;
use std::rt::{Env, Files};

/// The status where a text of rows cannot be read.
const UNREAD: u8 = 2;

// Runs the rows of each file that is named, and tells of them all.
fn report_files(rt: &(impl Env + Files + Print + AllocGlobal)) -> Result<Tally> {
    let mut tally = Tally::default();
    for file in env::args(rt)?.skip(1) {
        report_file(rt, file.as_str(), &mut tally)?;
    }
    rt.println(&tally)?;
    Ok(tally)
}

fn main(rt: HostRuntime) -> ExitCode {
    match report_files(&rt) {
        Ok(tally) => ExitCode::from(tally.code()),
        Err(error) => {
            let _ = println!(rt; "{error:#}");
            ExitCode::from(UNREAD)
        }
    }
}
