#![tactic(auto)]
//! Makes single calls of the library and prints what they answer: all calls, or the one that is named.
//! The argument `names` prints the names. This allows trying one call while its requests for memory are
//! refused, one after another.

mod cache_calls;
mod calls;
mod process_calls;
mod round_calls;
mod setback;
mod simulate_calls;

use setback::Setback;
use std::alloc::Global;
use std::env;
use std::io::{self, ErrorKind};
use std::rt::Env;
use std::sync::Wait;
use std::thread::Threads;
use std::time::Clock;

fn main(rt: HostRuntime) -> io::Result<()> {
    if let Err(setback) = tell(&rt, rt.alloc()) {
        println!(rt; "{}", setback.words())?;
    }
    Ok(())
}

/// Tells what the program's words ask for.
fn tell<R>(rt: &R, alloc: Global) -> Result<(), Setback>
where
    R: Env + Print + AllocGlobal + Threads + Wait + Clock + Sync,
{
    let words = words(rt, alloc)?;
    match words.as_slice() {
        [] | [_] => calls::call_all(rt, alloc),
        [_, word] if word.as_str() == "names" => calls::tell_names(rt),
        [_, name] => calls::call(rt, alloc, name.as_str()),
        _ => Err(Setback::Other),
    }
}

/// The program's words, its name first.
fn words<R: Env + AllocGlobal>(rt: &R, alloc: Global) -> Result<Vec<String>, Setback> {
    match env::args(rt) {
        Ok(words) => Ok(words.collect(alloc)?),
        Err(error) if error.kind() == ErrorKind::OutOfMemory => Err(Setback::Memory),
        Err(_) => Err(Setback::Other),
    }
}
