#![tactic(auto)]
//! Runs the cases of `cases.jsonl`, and then those of `options.jsonl`, through the program's command, with input and output
//! in memory, and compares output and exit status with the case. Prints each case that differs and the number of cases that
//! agree. In `options.jsonl` each option of each command decides what some case expects: `checks/options` tells which.
//!
//! Then runs random traces through random caches with several workers, under several plans, and
//! compares each report with that of the sequential run. Some traces are short; in the long ones
//! workers roll back or run in windows. Prints how many agree.
//!
//! A case is a line with its name, the program's arguments (`args`), the bytes of standard input
//! (`stdin`), texts by the names of their files (`files`), all of standard output (`stdout`) or texts that stand in it
//! (`holds`), the exit status and, where it is fixed, standard error (`stderr`).

mod case;
mod drawn;
mod given;
mod run;
mod tally;

use anyhow::{Context, Result};
use case::Case;
use std::alloc::Global;
use std::fs;
use std::random::RandomSource;
use std::sync::Wait;
use std::thread::Threads;
use std::time::Clock;
use tally::Tally;

/// How many short traces are drawn.
const SHORT: u64 = 40;

/// How many long traces are drawn of sparse requests, and of dense ones.
const LONG: u64 = 6;

fn main(rt: HostRuntime) -> Result<()> {
    let alloc = rt.alloc();
    let text = fs::read_to_string(&rt, "cases.jsonl").context("reading cases.jsonl")?;
    let cases = stored(&rt, alloc, &text)?;
    println!(rt; "{} agree, {} differ", cases.agree, cases.differ)?;
    let text = fs::read_to_string(&rt, "options.jsonl").context("reading options.jsonl")?;
    let options = stored(&rt, alloc, &text)?;
    println!(rt;
        "{} runs of options agree, {} differ",
        options.agree, options.differ
    )?;
    let short = drawn::compare_short(&rt, alloc, SHORT)?;
    println!(rt; "{} drawn runs agree, {} differ", short.agree, short.differ)?;
    let long = drawn::compare_long(&rt, alloc, LONG)?;
    println!(rt;
        "{} long drawn runs agree, {} differ",
        long.agree, long.differ
    )?;
    Ok(())
}

/// Runs the cases of a text, one a line, and counts those that agree.
fn stored<R: Print + Threads + Wait + Clock + RandomSource + Sync>(
    rt: &R,
    alloc: Global,
    text: &str,
) -> Result<Tally> {
    let mut tally = Tally::default();
    for line in text.lines() {
        tally.count(agrees(rt, alloc, line)?);
    }
    Ok(tally)
}

/// Runs the case of a line, and tells whether the program does what it says. Prints its name where not.
fn agrees<R: Print + Threads + Wait + Clock + RandomSource + Sync>(
    rt: &R,
    alloc: Global,
    line: &str,
) -> Result<bool> {
    let case = Case::parse(alloc, line).context("parsing a case")?;
    let agrees = case.agrees(rt, alloc)?;
    if !agrees {
        println!(rt; "{} differs", case.name())?;
    }
    Ok(agrees)
}
