//! `call_rows`: makes calls that are written as rows (docs/ROWS.md), and tells those that are answered otherwise.
#![tactic(auto)]

mod alike;
mod behind;
mod call;
mod checks;
mod entailed;
mod facts;
mod fault;
mod files;
mod known;
mod lines;
mod moves;
mod normal;
mod places;
mod read;
mod readers;
mod rules;
mod trees;
mod write;

use crate::files::report_file;
use anyhow::Result;
use row_text::Tally;
use std::env;
use std::process::ExitCode;
use std::rt::{Env, Files};

/// The status where a text of rows cannot be read.
const UNREAD: u8 = 2;

// Makes the calls of each file that is named, and tells of them all.
fn report_files(rt: &(impl Env + Files + Print + AllocGlobal)) -> Result<Tally> {
    let mut tally = Tally::default();
    for file in env::args(rt)?.skip(1) {
        report_file(rt, file.as_str(), &mut tally)?;
    }
    rt.println(&tally)?;
    Ok(tally)
}

fn main(rt: HostRuntime) -> ExitCode {
    match report_files(&rt) {
        Ok(tally) => ExitCode::from(tally.code()),
        Err(error) => {
            let _ = println!(rt; "{error:#}");
            ExitCode::from(UNREAD)
        }
    }
}
