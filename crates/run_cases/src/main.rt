//! Runs the host on cases of standard input. A case has a title, the words of each run, the status with which each must end, the
//! request file, and what each must write:
//!
//! ```text
//! # ahead of a file, a line may be a comment
//! case several workers write the same report
//! $ poolhost run
//! $ poolhost run --workers 4
//! status 0
//! file
//! module e 0061736d01000000
//! {20
//! call e f* 1
//! }\
//! call e g{30 x} 1\
//! report
//! module e ok
//! {21
//! @ refused export
//! }\
//! end
//! ```
//!
//! What stands behind the number in `{20 x}` stands so many times. A `*` in it is the number of the time, from 0, and a `@` the next of
//! the numbers from 1 on. A `\` at the end of a line takes its line feed away. In place of `file`, `file by poolhost make 7 20` takes
//! what these words write.
//!
//! Each run that ends or writes otherwise is printed, and then the status is 1. It is 2 if the cases can't be read.
#![tactic(auto)]

mod cases;
mod runs;
mod texts;

use crate::cases::Case;
use crate::runs::{Tally, check};
use anyhow::{Context, Error, ensure};
use std::alloc::Global;
use std::io;
use std::process::ExitCode;
use std::sync::Wait;
use std::thread::Threads;

// Makes the runs of all cases.
fn check_all<R: Print + Threads + Wait + Sync>(
    rt: &R,
    alloc: Global,
    cases: &str,
) -> Result<Tally, Error> {
    let mut tally = Tally::default();
    let mut case = Case::new(alloc);
    for line in cases.lines() {
        case.read(alloc, line)
            .context(format_args!("{}: {line}", case.title))?;
        if case.is_whole() {
            check(rt, alloc, &case, &mut tally)?;
            case = Case::new(alloc);
        }
    }
    ensure!(case.title.is_empty(), "{}: no end", case.title);
    Ok(tally)
}

// The status of the program.
fn status_of<R: Input + Print + Threads + Wait + Sync>(rt: &R, alloc: Global) -> Result<u8, Error> {
    let cases = io::read_to_string(alloc, rt.reader())?;
    let Tally { cases, runs, wrong } = check_all(rt, alloc, cases.as_str())?;
    if wrong == 0 {
        println!(rt; "{runs} runs of {cases} cases ended and wrote as they must")?;
        return Ok(0);
    }
    println!(rt; "{wrong} of {runs} runs of {cases} cases were wrong")?;
    Ok(1)
}

fn main(rt: HostRuntime) -> ExitCode {
    match status_of(&rt, rt.alloc()) {
        Ok(status) => ExitCode::from(status),
        Err(error) => {
            let _ = println!(rt; "{error:#}");
            ExitCode::from(2)
        }
    }
}
