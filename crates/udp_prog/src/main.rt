//! `udp`: seeks and checks proofs that two SQL queries always return the same bag of rows.
#![tactic(auto)]

ghost use Rattle.std.specs.Prelude.{◌≡◌};
ghost use Rattle.std.specs.Process.{exit_status};
ghost use Rattle.udp_run.specs.Answer.{code_of};

use std::process::ExitCode;
use std::{env, io};
use udp_io::{FileStore, StdSink};
use udp_run::Status;
use udp_start::start;

// The words after the program's name.
fn words(rt: &HostRuntime) -> io::Result<Vec<String>> {
    let words: Vec<String> = env::args(rt)?.skip(1).collect(rt.alloc())?;
    Ok(words)
}

// How the process ends where the run ended so.
fn exit_code(status: Status) -> ExitCode
    ensures { exit_status result ≡ code_of status }
{
    ExitCode::from(status.code())
}

/// Runs over the files of the system and standard output, and ends with the run's status. Where the words cannot be read it
/// writes nothing and ends with 8 for want of memory, and else with 9.
fn main(rt: HostRuntime) -> ExitCode {
    match words(&rt) {
        Ok(words) => {
            let mut store = FileStore::new(&rt);
            let mut out = StdSink::new(io::writer(&rt));
            exit_code(start(rt.alloc(), &words, &mut store, &mut out))
        }
        Err(error) if error.kind() == io::ErrorKind::OutOfMemory => ExitCode::from(8),
        Err(_) => ExitCode::from(9),
    }
}
