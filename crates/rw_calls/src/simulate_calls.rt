//! `simulate` in each mode, to a writer in memory that has room for the text.
use crate::round_calls::{TRACE, config, plan};
use crate::setback::Setback;
use rw_photo::{Config, Policy, Shape};
use rw_ripqwarp::{Mode, Out, schedule, simulate};
use std::alloc::Global;
use std::sync::Wait;
use std::thread::Threads;
use std::time::Clock;

/// More bytes than any of the texts has.
const ROOM: usize = 1024;

/// One request.
const ONE: &[u8] = b"time,edge,object,size\n5,0,7,4\n";

/// Steps of which the fifth is refused: the anti-message of a message whose event is still done.
const STEPS: &str = "E0 D0 E1 U0 D1 U1 D1 D1 E0 D0 D0 E1 D0 E0 C1099511627776";

/// Runs the trace of two requests on one thread.
pub fn tell_serial<R: Print + Threads + Wait + Clock + Sync>(
    rt: &R,
    alloc: Global,
) -> Result<(), Setback> {
    tell(rt, alloc, TRACE, &config()?, Mode::Serial)
}

/// Runs it in rounds of two workers.
pub fn tell_warp<R: Print + Threads + Wait + Clock + Sync>(
    rt: &R,
    alloc: Global,
) -> Result<(), Setback> {
    tell(rt, alloc, TRACE, &config()?, Mode::Warp(plan(2)))
}

/// Makes the steps over the trace of one request, with nothing stored.
pub fn tell_journal<R: Print + Threads + Wait + Clock + Sync>(
    rt: &R,
    alloc: Global,
) -> Result<(), Setback> {
    let Some(shape) = Shape::new(1, 10, 1) else {
        return Err(Setback::Other);
    };
    let Some(config) = Config::new(1, 1, Policy::Off, shape, shape, 3, 3, 10) else {
        return Err(Setback::Other);
    };
    let steps = schedule(alloc, STEPS)?;
    tell(rt, alloc, ONE, &config, Mode::Journal(steps))
}

/// Tells how many bytes the run has written, and those bytes.
fn tell<R: Print + Threads + Wait + Clock + Sync>(
    rt: &R,
    alloc: Global,
    trace: &[u8],
    config: &Config,
    mode: Mode,
) -> Result<(), Setback> {
    let mut out = Out::new(Vec::with_capacity(alloc, ROOM)?);
    let answer = simulate(rt, alloc, trace, config, mode, &mut out);
    let failures = out.failures();
    let written = out.into_inner();
    println!(rt; "written {} failures {failures}", written.len())?;
    let _traffic = answer?;
    let text = str::from_utf8(&written).map_err(|_| Setback::Other)?;
    print!(rt; "{text}")?;
    Ok(())
}
