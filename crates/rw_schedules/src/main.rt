#![tactic(auto)]
//! Runs random schedules, and continues the worlds that they lead to in rounds, under several plans and
//! with workers held back. Prints how many agree with the sequential run.
//!
//! With a number as argument it runs that many schedules for each trace, and also prints what is
//! outstanding in those worlds and what rounds and gates did, which depends on the timing of threads.

mod gate;
mod outstanding;
mod schedules;

use anyhow::{Context, Result, bail};
use schedules::Counts;
use std::alloc::Global;
use std::env;
use std::sync::Wait;
use std::thread::Threads;

/// How many schedules are drawn for each trace where nothing is said: few, so that it ends in seconds on a slow machine too.
const WORLDS: u64 = 64;

fn main(rt: HostRuntime) -> Result<()> {
    let alloc = rt.alloc();
    let words: Vec<String> = env::args(&rt).context("reading the words")?.collect(alloc)?;
    match words.as_slice() {
        [] | [_] => tell(&rt, &schedules::compare(&rt, alloc, WORLDS)?),
        [_, seeds] => tell_all(&rt, alloc, seeds),
        _ => bail!("no words, or how many schedules are drawn"),
    }
}

/// Runs so many drawn worlds of each trace, and tells what the rounds did. It is an error where a run differs.
fn tell_all<R: Print + Threads + Wait + Sync>(rt: &R, alloc: Global, seeds: &str) -> Result<()> {
    let seeds = seeds.parse().context("how many seeds")?;
    let counts = schedules::compare(rt, alloc, seeds)?;
    tell(rt, &counts)?;
    println!(rt;
        "{} worlds with stragglers, {} with debts, {} with anti-messages on their way",
        counts.stragglers, counts.debts, counts.antis
    )?;
    println!(rt;
        "{} events executed, {} undone, {} letters through rings",
        counts.executed, counts.undone, counts.ring
    )?;
    println!(rt;
        "{} waits at gates, {} let go after all tries",
        counts.waits, counts.misses
    )?;
    if counts.other_worlds > 0 || counts.other_runs > 0 {
        bail!("some differ");
    }
    Ok(())
}

/// Prints what agreed.
fn tell<R: Print>(rt: &R, counts: &Counts) -> Result<()> {
    println!(rt;
        "{} drawn worlds begin in order, {} differ",
        counts.worlds, counts.other_worlds
    )?;
    println!(rt;
        "{} runs from drawn worlds agree, {} differ",
        counts.runs, counts.other_runs
    )?;
    Ok(())
}
