// What several workers do with a trace, by the very call that the command `warp` makes: in windows where requests are dense, else in
// rounds that run ahead and take back. The report is that of one thread each time. The first 16,384 events are executed in order.
use rw_photo::{Config, Policy, Shape};
use rw_ripqwarp::{Mode, Out, Plan, Traffic, simulate};
use std::alloc::Global;
use std::fmt::Write as _;
use std::io;
use std::io::ErrorKind;
use std::sync::Wait;
use std::thread::Threads;
use std::time::Clock;

/// How dense the requests of a trace are.
#[derive(Clone, Copy)]
enum Density {
    /// 20,000 requests at 4 edges, one in 4 ticks.
    Sparse,
    /// 20,000 requests at 32 edges, 64 in each tick.
    Dense,
    /// 20,000 requests at 32 edges, 512 in each tick.
    Denser,
    /// 120,000 requests at 200 edges, 512 in each tick.
    Long,
}

impl Density {
    /// How many requests there are.
    fn requests(self) -> u64 {
        match self {
            Density::Sparse | Density::Dense | Density::Denser => 20_000,
            Density::Long => 120_000,
        }
    }

    /// How many edges there are.
    fn edges(self) -> u32 {
        match self {
            Density::Sparse => 4,
            Density::Dense | Density::Denser => 32,
            Density::Long => 200,
        }
    }

    /// When the request `row` is made, and at which edge, where this is drawn for it.
    fn place(self, row: u64, drawn: u64) -> (u64, u64) {
        match self {
            Density::Sparse => (row.saturating_mul(4), drawn % 4),
            Density::Dense => (row / 64, drawn % 32),
            Density::Denser => (row / 512, drawn % 32),
            Density::Long => (row / 512, drawn % 200),
        }
    }
}

/// Small caches under LRU, of so many edges and an origin.
fn caches(edges: u32) -> Option<Config> {
    let edge_shape = Shape::new(8, 65536, 4)?;
    let origin_shape = Shape::new(8, 65536, 16)?;
    Config::new(edges, 1, Policy::Lru, edge_shape, origin_shape, 3, 3, 10)
}

/// What the command `warp` takes for a plan, with so many workers.
fn plan(workers: u32, lazy: bool) -> Plan {
    Plan {
        workers,
        turns: 16,
        batch: 64,
        window: 1 << 40,
        ring: 64,
        max_rounds: 65536,
        lazy,
    }
}

/// A trace of requests for 500 objects that are drawn by chance.
fn trace(alloc: Global, density: Density) -> Result<Vec<u8>, io::Error> {
    let mut text = String::new(alloc);
    text.push_str("time,edge,object,size\n")?;
    let mut state: u64 = 1;
    for row in 0..density.requests() {
        state = state
            .wrapping_mul(6_364_136_223_846_793_005)
            .wrapping_add(1_442_695_040_888_963_407);
        let drawn = state >> 33;
        let (time, edge) = density.place(row, drawn);
        let object = (drawn >> 8) % 500;
        let size = 1000 + (drawn >> 3) % 997;
        if writeln!(text, "{time},{edge},{object},{size}").is_err() {
            return Err(io::Error::from(ErrorKind::OutOfMemory));
        }
    }
    Ok(text.into_bytes())
}

/// What a run of a trace by this mode did, and its report.
fn ran<R: Threads + Wait + Clock + Sync>(
    rt: &R,
    alloc: Global,
    trace: &[u8],
    edges: u32,
    mode: Mode,
) -> Option<(Traffic, Vec<u8>)> {
    let config = caches(edges)?;
    let mut out = Out::new(Vec::new(alloc));
    let traffic = simulate(rt, alloc, trace, &config, mode, &mut out).ok()?;
    Some((traffic, out.into_inner()))
}

/// What the workers of a plan did with a trace, if their report is that of one thread.
fn did<R: Threads + Wait + Clock + Sync>(
    rt: &R,
    alloc: Global,
    density: Density,
    plan: Plan,
) -> Option<Traffic> {
    let trace = trace(alloc, density).ok()?;
    let edges = density.edges();
    let (_, report) = ran(rt, alloc, trace.as_slice(), edges, Mode::Serial)?;
    let (traffic, text) = ran(rt, alloc, trace.as_slice(), edges, Mode::Warp(plan))?;
    (text.as_slice() == report.as_slice()).then_some(traffic)
}

// In windows nothing is taken back, and what is sent from one worker to another goes through their rings.
#[test]
fn dense_requests_go_through_windows(rt: HostRuntime) {
    for (density, workers) in [
        (Density::Dense, 4),
        (Density::Denser, 12),
        (Density::Denser, 16),
        (Density::Long, 4),
    ] {
        let traffic = did(&rt, rt.alloc(), density, plan(workers, false));
        let is_so =
            matches!(traffic, Some(did) if did.undone == 0 && did.kept == 0 && did.ring > 0);
        assert!(rt; is_so, "by {workers} workers");
    }
}

// Neither in windows nor in order is anything taken back, so there were rounds.
#[test]
fn sparse_requests_go_through_rounds(rt: HostRuntime) {
    for lazy in [false, true] {
        let traffic = did(&rt, rt.alloc(), Density::Sparse, plan(2, lazy));
        let is_so = matches!(traffic, Some(did) if did.undone > 0);
        assert!(rt; is_so, "lazily: {lazy}");
    }
}
