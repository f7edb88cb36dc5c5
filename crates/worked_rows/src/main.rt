//! Runs commands of `wreplay` one after the other and writes what each wrote.
//!
//! The commands stand in the file `commands`, one a line: words, of which one with spaces stands between two `'`, perhaps
//! ` < FILE` for the standard input, perhaps ` > FILE` for a file that keeps the standard output for the commands behind
//! it. What they write is compared with
//! what a model made apart says (`bench/rows`).
#![tactic(auto)]

mod command;
mod shelf;

use crate::command::made;
use crate::shelf::Shelf;
use std::fs;
use std::process::ExitCode;

fn main(rt: HostRuntime) -> anyhow::Result<ExitCode> {
    let text = fs::read_to_string(&rt, "commands")?;
    let mut shelf = Shelf::new(rt);
    for line in text.lines() {
        print!(rt; "{}", made(&rt, rt.alloc(), &mut shelf, line)?)?;
    }
    Ok(ExitCode::SUCCESS)
}
