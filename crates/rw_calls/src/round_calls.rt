//! `run_round` and `run` of rounds: two workers, and a fill that comes late to the edge.
use crate::setback::Setback;
use rw_photo::{Config, Photo, Policy, Shape};
use rw_ripqwarp::{Outcome, Plan, beginning};
use rw_rounds::{Open, Sim, World, run, run_round};
use rw_vt::END;
use std::alloc::Global;
use std::sync::Wait;
use std::thread::Threads;

/// Two requests of one object at one edge, the second right after the fill that the first one asks for.
pub const TRACE: &[u8] = b"time,edge,object,size\n5,0,7,4\n22,0,7,4\n";

/// An edge and an origin under least recently used.
pub fn config() -> Result<Config, Setback> {
    let Some(shape) = Shape::new(8, 1_048_576, 64) else {
        return Err(Setback::Other);
    };
    let config = Config::new(1, 1, Policy::Lru, shape, shape, 3, 3, 10);
    config.ok_or(Setback::Other)
}

/// The plan of the command line where nothing but the workers is said.
pub fn plan(workers: u32) -> Plan {
    Plan {
        workers,
        turns: 16,
        batch: 64,
        window: END,
        ring: 64,
        max_rounds: 65536,
        lazy: false,
    }
}

/// Runs the trace by two workers, and tells what that leaves.
pub fn tell_run<R: Print + Threads + Wait + Sync>(rt: &R, alloc: Global) -> Result<(), Setback> {
    let world = opened(alloc, &config()?)?;
    let (outcome, _traffic) = run(rt, alloc, world, plan(2), &Open)?;
    tell(rt, &outcome)
}

/// Makes one round of two workers. How far that leads depends on when each thread has its turns; so one worker goes on from
/// there, and what is told is what that leaves.
pub fn tell_round<R: Print + Threads + Wait + Sync>(rt: &R, alloc: Global) -> Result<(), Setback> {
    let world = opened(alloc, &config()?)?;
    let sim = run_round(rt, alloc, Sim::open(world, plan(2))?, &Open)?;
    let (outcome, _traffic) = run(rt, alloc, sim.into_world(), plan(1), &Open)?;
    tell(rt, &outcome)
}

/// The world of the trace in which nothing is done yet.
fn opened(alloc: Global, config: &Config) -> Result<World<Photo>, Setback> {
    let (starts, initial) = beginning(alloc, TRACE, config)?;
    Ok(World::open(alloc, Photo::new(*config), starts, initial)?)
}

/// Tells what each cache has executed, and what it has counted.
fn tell<R: Print>(rt: &R, outcome: &Outcome<Photo>) -> Result<(), Setback> {
    for journal in &outcome.journals {
        println!(rt; "executed {journal:?}")?;
    }
    for state in &outcome.states {
        println!(rt; "counted {:?}", state.counters())?;
    }
    Ok(())
}
