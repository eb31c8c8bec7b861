//! Single calls of the library, by their names. Each is set up, made and told on standard output: its whole right answer, or
//! why there is none.
use crate::cache_calls::{EVICTION, PROMOTION, SPLIT_AND_MERGE};
use crate::process_calls::{CANCELLING, FILL, STRAGGLER};
use crate::setback::Setback;
use crate::{cache_calls, process_calls, round_calls, simulate_calls};
use std::alloc::Global;
use std::sync::Wait;
use std::thread::Threads;
use std::time::Clock;

/// The names of the calls.
const NAMES: [&str; 11] = [
    "eviction",
    "promotion",
    "split-and-merge",
    "arrive-fill",
    "arrive-cancelling",
    "arrive-straggler",
    "round",
    "run",
    "simulate-serial",
    "simulate-warp",
    "simulate-journal",
];

/// Prints the names of the calls.
pub fn tell_names<R: Print>(rt: &R) -> Result<(), Setback> {
    for name in NAMES {
        println!(rt; "{name}")?;
    }
    Ok(())
}

/// Makes each call, and tells its name and what it answers.
pub fn call_all<R: Print + Threads + Wait + Clock + Sync>(
    rt: &R,
    alloc: Global,
) -> Result<(), Setback> {
    for name in NAMES {
        println!(rt; "{name}")?;
        call(rt, alloc, name)?;
    }
    Ok(())
}

/// Makes the call of this name, and tells what it answers.
pub fn call<R: Print + Threads + Wait + Clock + Sync>(
    rt: &R,
    alloc: Global,
    name: &str,
) -> Result<(), Setback> {
    match name {
        "eviction" => cache_calls::tell(rt, alloc, &EVICTION),
        "promotion" => cache_calls::tell(rt, alloc, &PROMOTION),
        "split-and-merge" => cache_calls::tell(rt, alloc, &SPLIT_AND_MERGE),
        "arrive-fill" => process_calls::tell(rt, alloc, &FILL),
        "arrive-cancelling" => process_calls::tell(rt, alloc, &CANCELLING),
        "arrive-straggler" => process_calls::tell(rt, alloc, &STRAGGLER),
        "round" => round_calls::tell_round(rt, alloc),
        "run" => round_calls::tell_run(rt, alloc),
        "simulate-serial" => simulate_calls::tell_serial(rt, alloc),
        "simulate-warp" => simulate_calls::tell_warp(rt, alloc),
        "simulate-journal" => simulate_calls::tell_journal(rt, alloc),
        _ => Err(Setback::Other),
    }
}
