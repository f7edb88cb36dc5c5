//! Work for measurements, which `make bench` runs.
//!
//! Steps of scripts, accesses of a memory, the same under locks by threads at once, decoding and validating of a module
//! (`decoded`, `validated`: they count exactly), and one thread alone (`run_bytes`: how it stands, and after how many
//! steps).
#![tactic(auto)]

mod accesses;
mod alone;
mod decoding;
mod ended;
mod fault;
mod locks;
mod parts;
mod plain;
mod rounds;
mod scripts;
mod stages;
mod steps;
mod versioned;
mod whole;

use crate::accesses::accesses_asked;
use crate::decoding::rounds_asked;
use crate::locks::locks_asked;
use crate::stages::run_bytes;
use crate::steps::steps_asked;
use std::process::ExitCode;
use std::sync::Wait;
use std::thread::Threads;
use std::{env, fs};

/// How the words go.
const USAGE: &str = "\
usage: wreplay_bench steps parts|read|kept STEPS
       wreplay_bench accesses slice-load|slice-store|load|load-of-kind|store PAGES BLOCK COUNT
       wreplay_bench locks mutex|readers|apart|same THREADS COUNT
       wreplay_bench decode decode|validate FILE TIMES
       wreplay_bench machine MODULE PLAN";

/// Says how the words go.
fn refuse(rt: &HostRuntime) -> anyhow::Result<ExitCode> {
    eprintln!(rt; "{USAGE}")?;
    Ok(ExitCode::from(2))
}

/// Writes a number, or says how the words go.
fn write_number(rt: &HostRuntime, number: Option<u64>) -> anyhow::Result<ExitCode> {
    match number {
        None => refuse(rt),
        Some(number) => {
            println!(rt; "{number}")?;
            Ok(ExitCode::SUCCESS)
        }
    }
}

/// Decodes a module, or decodes and validates it, again and again, and writes how many times it was one.
fn decode(rt: &HostRuntime, mode: &str, path: &str, times: &str) -> anyhow::Result<ExitCode> {
    let bytes = fs::read(rt, path)?;
    let count = rounds_asked(rt.alloc(), mode, &bytes, times)?;
    write_number(rt, count.map(u64::from))
}

/// Runs thread 0 of a plan alone, and writes how many steps it made and how it stands then.
fn run_thread(rt: &HostRuntime, module: &str, plan: &str) -> anyhow::Result<ExitCode> {
    let bytes = fs::read(rt, module)?;
    let text = fs::read(rt, plan)?;
    match run_bytes(rt.alloc(), &bytes, &text) {
        Ok(ended) => {
            println!(rt; "{ended}")?;
            Ok(ExitCode::SUCCESS)
        }
        Err(fault) => {
            eprintln!(rt; "{fault}")?;
            Ok(ExitCode::from(2))
        }
    }
}

/// Does what the words behind the command ask for. `at_once` makes the threads of a measurement.
fn run<T: Threads + Wait + Sync>(
    rt: &HostRuntime,
    at_once: &T,
    command: &str,
    words: &[String],
) -> anyhow::Result<ExitCode> {
    match (command, words) {
        ("steps", [mode, steps]) => {
            let sum = steps_asked(rt.alloc(), mode.as_str(), steps.as_str())?;
            write_number(rt, sum)
        }
        ("accesses", [mode, pages, block, count]) => {
            let words = [
                mode.as_str(),
                pages.as_str(),
                block.as_str(),
                count.as_str(),
            ];
            let sum = accesses_asked(rt.alloc(), words)?;
            write_number(rt, sum)
        }
        ("locks", [mode, threads, count]) => {
            let words = [mode.as_str(), threads.as_str(), count.as_str()];
            let made = locks_asked(at_once, rt.alloc(), words)?;
            write_number(rt, made)
        }
        ("decode", [mode, path, times]) => {
            decode(rt, mode.as_str(), path.as_str(), times.as_str())
        }
        ("machine", [module, plan]) => run_thread(rt, module.as_str(), plan.as_str()),
        _ => refuse(rt),
    }
}

fn main(rt: HostRuntime) -> anyhow::Result<ExitCode> {
    let words: Vec<String> = env::args(&rt)?.collect(rt.alloc())?;
    match words.as_slice() {
        [_, command, rest @ ..] => run(&rt, &rt, command.as_str(), rest),
        _ => refuse(&rt),
    }
}
