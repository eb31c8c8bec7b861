// Reports and journals to writers that fail, and a plan that is refused.
use crate::pipe::{Hiccup, Pipe, holds};
use rw_photo::{Config, Policy, Shape};
use rw_ripqwarp::{
    Mode, Out, Plan, SimFault, Traffic, any_schedule, one_report, schedule, simulate,
};
use rw_trace::TraceFault;
use std::alloc::Global;
use std::io::Write;
use std::sync::Wait;
use std::thread::Threads;
use std::time::Clock;

/// The trace of one request; its report with nothing stored has 409 bytes.
const TRACE: &[u8] = b"time,edge,object,size\n5,0,7,4\n";

/// An edge and an origin that store nothing.
fn nothing_stored() -> Option<Config> {
    let shape = Shape::new(1, 10, 1)?;
    Config::new(1, 1, Policy::Off, shape, shape, 3, 3, 10)
}

/// What the simulator answers where nothing is stored.
fn simulated<W: Write, R: Threads + Wait + Clock + Sync>(
    rt: &R,
    alloc: Global,
    trace: &[u8],
    mode: Mode,
    out: &mut Out<W>,
) -> Option<Result<Traffic, SimFault>> {
    let config = nothing_stored()?;
    Some(simulate(rt, alloc, trace, &config, mode, out))
}

/// Whether a writer that fails so holds so many bytes of the report, with so many failures told and counted.
fn is_held<R: Threads + Wait + Clock + Sync>(
    rt: &R,
    alloc: Global,
    (most, fails_in, flush_fails): (usize, u32, bool),
    bytes: usize,
    failures: u64,
) -> bool {
    let mut out = Out::new(Pipe::new(alloc, most, fails_in, flush_fails));
    let is_told = match simulated(rt, alloc, TRACE, Mode::Serial, &mut out) {
        Some(Ok(traffic)) => failures == 0 && traffic == Traffic::default(),
        Some(Err(SimFault::Output)) => failures == 1,
        _ => false,
    };
    let is_counted = out.failures() == failures;
    let held = out.into_inner().held;
    is_told && is_counted && held.len() == bytes
}

/// The most bytes a write, from which write on it fails, and whether the flush does; what is then held, and failures counted.
const WRITERS: [((usize, u32, bool), usize, u64); 5] = [
    ((100, 2, false), 200, 1),
    ((0, 9, false), 0, 1),
    ((1000, 9, true), 409, 1),
    ((1, 1000, false), 409, 0),
    ((1, 408, false), 408, 1),
];

#[test]
fn a_writer_that_fails_cuts_the_report_off(rt: HostRuntime) {
    for (writer, bytes, failures) in &WRITERS {
        let is_held = is_held(&rt, rt.alloc(), *writer, *bytes, *failures);
        assert!(rt; is_held, "{bytes} bytes and {failures} failures");
    }
}

/// Whether a writer that fails at one of its calls alone holds so many bytes of the report and was called so often, with so
/// many failures told and counted.
fn is_held_after<R: Threads + Wait + Clock + Sync>(
    rt: &R,
    alloc: Global,
    fails_at: u32,
    (bytes, calls, failures): (usize, u32, u64),
) -> bool {
    let mut out = Out::new(Hiccup::new(alloc, fails_at));
    let is_told = match simulated(rt, alloc, TRACE, Mode::Serial, &mut out) {
        Some(Ok(_)) => failures == 0,
        Some(Err(SimFault::Output)) => failures == 1,
        _ => false,
    };
    let is_counted = out.failures() == failures;
    let writer = out.into_inner();
    is_told && is_counted && writer.calls == calls && writer.held.len() == bytes
}

/// At which call a writer fails, and how many bytes it then holds, how often it was called, and how many failures are counted.
/// There are five writes, of 100 bytes and the last of 9, and a flush.
const CALLS: [(u32, (usize, u32, u64)); 5] = [
    (0, (0, 1, 1)),
    (2, (200, 3, 1)),
    (4, (400, 5, 1)),
    (5, (409, 6, 1)),
    (6, (409, 6, 0)),
];

#[test]
fn nothing_is_tried_after_a_failure(rt: HostRuntime) {
    for (fails_at, held) in &CALLS {
        let is_held = is_held_after(&rt, rt.alloc(), *fails_at, *held);
        assert!(rt; is_held, "at call {fails_at}");
    }
}

/// The report of [`TRACE`] with nothing stored, whole.
const REPORT: &str = "\
edge 0 requests 1 hits 0 misses 1 coalesced 0 late 1 bypassed 0 inserted 0 evicted 0 reinserted 0 promoted 0 writes 0 splits 0 merges 0
origin 0 requests 1 hits 0 misses 1 coalesced 0 late 0 bypassed 0 inserted 0 evicted 0 reinserted 0 promoted 0 writes 0 splits 0 merges 0
total requests 2 hits 0 misses 2 coalesced 0 late 1 bypassed 0 inserted 0 evicted 0 reinserted 0 promoted 0 writes 0 splits 0 merges 0
";

/// Two requests at once, whose answers come with equal numbers.
const TWO: &[u8] = b"time,edge,object,size\n5,0,7,4\n5,0,8,4\n";

/// Steps in which the origin first answers the second request, and takes that back.
const STEPS: &str = "E0 E0 D1 E1 D0 E1 U1 E1 D1 D1 D0 E1 D0 E0 E0 C1099511627776";

/// What these steps answer, and the journal of all that is committed.
const JOURNAL: &str = "\
step 5 refused 4 Straggler
process 0 time 5 source 0 number 0 request 7 4
process 0 time 5 source 0 number 1 request 8 4
process 0 time 21 source 2 number 0 fill 7 4
process 0 time 21 source 2 number 1 fill 8 4
process 1 time 8 source 1 number 0 miss 7 4 0
process 1 time 8 source 1 number 1 miss 8 4 0
floor 1099511627776
finished yes
";

/// Whether a writer that takes a byte a write, and is interrupted from one write on, holds the text up to there.
fn is_cut_off_at<R: Threads + Wait + Clock + Sync>(
    rt: &R,
    alloc: Global,
    trace: &[u8],
    mode: Mode,
    text: &str,
    fails_in: u32,
) -> bool {
    let mut out = Out::new(Pipe::new(alloc, 1, fails_in, false));
    let is_whole = fails_in as usize == text.len();
    let is_told = match simulated(rt, alloc, trace, mode, &mut out) {
        Some(Ok(_)) => is_whole && out.failures() == 0,
        Some(Err(SimFault::Output)) => !is_whole && out.failures() == 1,
        _ => false,
    };
    let is_held = match text.as_bytes().get(..fails_in as usize) {
        Some(held) => holds(out, held),
        None => false,
    };
    is_told && is_held
}

#[test]
fn a_report_is_cut_off_at_each_of_its_bytes(rt: HostRuntime) {
    let alloc = rt.alloc();
    for fails_in in 0..=409 {
        let is_cut_off = is_cut_off_at(&rt, alloc, TRACE, Mode::Serial, REPORT, fails_in);
        assert!(rt; is_cut_off, "at byte {fails_in}");
    }
}

/// The same of the journal.
fn is_journal_cut_off_at<R: Threads + Wait + Clock + Sync>(
    rt: &R,
    alloc: Global,
    fails_in: u32,
) -> bool {
    match schedule(alloc, STEPS) {
        Ok(steps) => is_cut_off_at(rt, alloc, TWO, Mode::Journal(steps), JOURNAL, fails_in),
        Err(_) => false,
    }
}

#[test]
fn a_journal_is_cut_off_at_each_of_its_bytes(rt: HostRuntime) {
    let alloc = rt.alloc();
    for fails_in in 0..=JOURNAL.len() as u32 {
        assert!(rt;
            is_journal_cut_off_at(&rt, alloc, fails_in),
            "at byte {fails_in}"
        );
    }
}

/// Why the run of a trace in rounds by the plan of no worker has no report; `None` where something is written.
fn without_workers<R: Threads + Wait + Clock + Sync>(
    rt: &R,
    alloc: Global,
    trace: &[u8],
) -> Option<SimFault> {
    let plan = Plan {
        workers: 0,
        turns: 16,
        batch: 64,
        window: 1,
        ring: 64,
        max_rounds: 1,
        lazy: false,
    };
    let mut out = Out::new(Vec::new(alloc));
    let fault = simulated(rt, alloc, trace, Mode::Warp(plan), &mut out)?.err()?;
    out.into_inner().is_empty().then_some(fault)
}

#[test]
fn a_plan_out_of_range_is_refused_after_the_trace(rt: HostRuntime) {
    let alloc = rt.alloc();
    let refused = without_workers(&rt, alloc, TRACE);
    assert!(rt; matches!(refused, Some(SimFault::Plan)));
    let refused = without_workers(&rt, alloc, b"");
    assert!(rt; matches!(refused, Some(SimFault::Trace(TraceFault::Header))));
}

#[test]
fn what_is_proved_of_the_whole_is_stated(_rt: HostRuntime) {
    any_schedule();
    one_report();
}

#[test]
fn the_limits_are_stated(_rt: HostRuntime) {
    rw_vt::every_limit();
    rw_trace::every_limit();
    rw_blocks::every_limit();
    rw_ripq::every_limit();
    rw_photo::every_limit();
    rw_import::every_limit();
    rw_plot::every_limit();
    rw_sweep::every_limit();
}
