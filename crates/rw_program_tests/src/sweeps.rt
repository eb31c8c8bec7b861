// Tables of a trace over a grid, by one worker and by more, and faults.
use crate::grids::{axes, grid, sweeping};
use crate::pipe::{Pipe, holds};
use rw_photo::{Levels, Policy};
use rw_progress::{Progress, Silent};
use rw_report::Format;
use rw_ripqwarp::{Out, SimFault};
use rw_sweep::{Grid, GridFault, Outlook, Part, Sweeping, sweep, sweep_stream};
use rw_trace::TraceFault;
use std::alloc::Global;
use std::thread::Threads;

/// Two requests for two objects of 4 bytes. Each misses at the edge, and 3 ticks later at the origin, which asks the backend; the
/// fill comes 13 ticks after that and answers one request.
const TRACE: &[u8] = b"time,edge,object,size\n5,0,7,4\n100,0,8,4\n";

/// What is counted then: nothing is stored, or each object at both caches, in a block that is not full.
const TABLE: &[u8] =
    b"policy,sections,block,edge_blocks,origin_blocks,edges,origins,up,down,back,caches,requests,hits,misses,coalesced,late,bypassed,inserted,evicted,reinserted,promoted,writes,splits,merges,hit_bytes,request_bytes,hit_ratio,byte_hit_ratio,flash_bytes,written_bytes,backend_requests,backend_bytes,inserted_bytes,drive_writes_a_day,reclaim,warm_up,ticks_a_second,rows,span,digest\noff,1,10,1,2,1,1,3,3,10,edges,2,0,2,0,2,0,0,0,0,0,0,0,0,0,8,0.000000,0.000000,10,0,0,0,0,,0,0,0,2,95,2635451442\noff,1,10,1,2,1,1,3,3,10,origins,2,0,2,0,0,0,0,0,0,0,0,0,0,0,8,0.000000,0.000000,20,0,2,8,0,,0,0,0,2,95,2635451442\noff,1,10,1,2,1,1,3,3,10,all,4,0,4,0,2,0,0,0,0,0,0,0,0,0,16,0.000000,0.000000,30,0,2,8,0,,0,0,0,2,95,2635451442\nlru,1,10,1,2,1,1,3,3,10,edges,2,0,2,0,2,0,2,0,0,0,0,0,0,0,8,0.000000,0.000000,10,0,0,0,8,,0,0,0,2,95,2635451442\nlru,1,10,1,2,1,1,3,3,10,origins,2,0,2,0,0,0,2,0,0,0,0,0,0,0,8,0.000000,0.000000,20,0,2,8,8,,0,0,0,2,95,2635451442\nlru,1,10,1,2,1,1,3,3,10,all,4,0,4,0,2,0,4,0,0,0,0,0,0,0,16,0.000000,0.000000,30,0,2,8,16,,0,0,0,2,95,2635451442\nslru2,1,10,1,2,1,1,3,3,10,edges,2,0,2,0,2,0,2,0,0,0,0,0,0,0,8,0.000000,0.000000,10,0,0,0,8,,0,0,0,2,95,2635451442\nslru2,1,10,1,2,1,1,3,3,10,origins,2,0,2,0,0,0,2,0,0,0,0,0,0,0,8,0.000000,0.000000,20,0,2,8,8,,0,0,0,2,95,2635451442\nslru2,1,10,1,2,1,1,3,3,10,all,4,0,4,0,2,0,4,0,0,0,0,0,0,0,16,0.000000,0.000000,30,0,2,8,16,,0,0,0,2,95,2635451442\n";

/// The grid of an edge and an origin under so many of three policies.
fn grid_under(alloc: Global, policies: usize) -> Option<Grid> {
    let all = [Policy::Off, Policy::Lru, Policy::Slru(Levels::new(2)?)];
    grid(alloc, all.get(..policies)?, &[1])
}

/// Writes the table of a trace under so many policies, by so many workers. Want of memory for the grid is as that of a sweep.
fn swept<R: Threads + Sync>(
    rt: &R,
    alloc: Global,
    policies: usize,
    trace: &[u8],
    workers: u32,
    out: &mut Out<Pipe>,
) -> Result<(), SimFault> {
    let Some(grid) = grid_under(alloc, policies) else {
        return Err(SimFault::Memory);
    };
    let sweeping = sweeping(&grid, None, workers);
    sweep(rt, alloc, trace, &sweeping, &mut Silent, out)
}

/// Whether so many workers write the table of two requests under three policies.
fn is_table<R: Threads + Sync>(rt: &R, alloc: Global, workers: u32) -> bool {
    let mut out = Out::new(Pipe::new(alloc, 1000, 9, false));
    let is_swept = swept(rt, alloc, 3, TRACE, workers, &mut out).is_ok();
    holds(out, TABLE) && is_swept
}

#[test]
fn three_policies_over_two_requests(rt: HostRuntime) {
    for workers in &[0, 1, 3, 64, 1000] {
        assert!(rt; is_table(&rt, rt.alloc(), *workers), "by {workers}");
    }
}

/// How often somebody was told, what last, and of how many.
#[derive(Clone, Copy)]
struct Told {
    times: u64,
    last: u64,
    of: u64,
    writes: u64,
}

impl Progress for Told {
    fn begin(&mut self, from: u64, to: u64) {
        self.last = from;
        self.of = to;
    }

    fn reach(&mut self, at: u64) {
        self.times = self.times.saturating_add(1);
        self.last = at;
    }

    fn about_to_write(&mut self) {
        self.writes = self.writes.saturating_add(1);
    }
}

/// What one worker tells of a sweep over a grid; `None` where it fails.
fn told_of<R: Threads + Sync>(rt: &R, alloc: Global, grid: &Grid) -> Option<Told> {
    let mut out = Out::new(Vec::new(alloc));
    let mut told = Told {
        times: 0,
        last: 0,
        of: 0,
        writes: 0,
    };
    let sweeping = sweeping(grid, None, 1);
    let is_swept = sweep(rt, alloc, TRACE, &sweeping, &mut told, &mut out).is_ok();
    is_swept.then_some(told)
}

/// Whether one worker tells of each configuration of a grid of three.
fn is_each_told<R: Threads + Sync>(rt: &R, alloc: Global) -> bool {
    let Some(grid) = grid_under(alloc, 3) else {
        return false;
    };
    let is_told = match told_of(rt, alloc, &grid) {
        Some(told) => told.times == 6 && told.last == 3 && told.of == 3 && told.writes == 3,
        None => false,
    };
    is_told && grid.len() == 3 && !grid.is_empty()
}

#[test]
fn one_worker_tells_of_each_configuration(rt: HostRuntime) {
    assert!(rt; is_each_told(&rt, rt.alloc()));
}

/// Whether the grid of no policy is empty, and leaves the header alone.
fn is_header_left<R: Threads + Sync>(rt: &R, alloc: Global) -> bool {
    let Some(grid) = grid_under(alloc, 0) else {
        return false;
    };
    let mut out = Out::new(Vec::new(alloc));
    let sweeping = sweeping(&grid, None, 4);
    let is_swept = sweep(rt, alloc, TRACE, &sweeping, &mut Silent, &mut out).is_ok();
    let table = out.into_inner();
    is_swept && grid.is_empty() && table.as_slice().ends_with(b",span,digest\n")
}

#[test]
fn no_policy_leaves_the_header(rt: HostRuntime) {
    assert!(rt; is_header_left(&rt, rt.alloc()));
}

/// Whether blocks of this size and these numbers of them make no grid, for this reason.
fn is_refused(
    alloc: Global,
    block: u64,
    edge_blocks: &[u64],
    origin_blocks: &[u64],
    fault: GridFault,
) -> bool {
    match axes(alloc, &[Policy::Off], block, edge_blocks, origin_blocks) {
        Ok(axes) => Grid::new(alloc, axes).err() == Some(fault),
        Err(_) => false,
    }
}

#[test]
fn out_of_range_or_too_many_is_no_grid(rt: HostRuntime) {
    let alloc = rt.alloc();
    assert!(rt; is_refused(alloc, 0, &[1], &[2], GridFault::OutOfRange));
    assert!(rt; is_refused(alloc, 10, &[1; 257], &[1; 256], GridFault::TooMany));
}

/// Whether a trace with a row at no edge is refused there, with nothing written.
fn is_edge_refused<R: Threads + Sync>(rt: &R, alloc: Global) -> bool {
    let bad = b"time,edge,object,size\n5,1,7,4\n";
    let mut out = Out::new(Pipe::new(alloc, 100, 2, false));
    let swept = swept(rt, alloc, 3, bad, 2, &mut out);
    let is_told = matches!(swept, Err(SimFault::Trace(TraceFault::EdgeRange(0))));
    holds(out, b"") && is_told
}

/// Whether a writer of at most so many bytes a write that fails from one of its writes on cuts a sweep off, told and counted
/// once, where it holds this text.
fn is_cut_off<R: Threads + Sync>(
    rt: &R,
    alloc: Global,
    workers: u32,
    (most, fails_in): (usize, u32),
    text: &[u8],
) -> bool {
    let mut out = Out::new(Pipe::new(alloc, most, fails_in, false));
    let swept = swept(rt, alloc, 3, TRACE, workers, &mut out);
    let is_told = matches!(swept, Err(SimFault::Output)) && out.failures() == 1;
    holds(out, text) && is_told
}

#[test]
fn faults_of_a_sweep(rt: HostRuntime) {
    let alloc = rt.alloc();
    assert!(rt; is_edge_refused(&rt, alloc));
    assert!(rt; is_cut_off(&rt, alloc, 2, (100, 2), &TABLE[..200]));
}

/// The first lines of the table.
fn first_lines(count: usize) -> &'static [u8] {
    let mut left = count;
    for (end, byte) in TABLE.iter().enumerate() {
        if left == 0 {
            return &TABLE[..end];
        }
        if *byte == b'\n' {
            left -= 1;
        }
    }
    TABLE
}

/// How many workers sweep, after how many writes their writer fails, and how many lines it then holds.
const CUT_OFF: [(u32, u32, usize); 8] = [
    (1, 0, 0),
    (2, 0, 0),
    (1, 1, 1),
    (2, 1, 1),
    (1, 2, 4),
    (2, 2, 4),
    (1, 3, 7),
    (2, 3, 7),
];

#[test]
fn a_writer_that_fails_holds_whole_lines(rt: HostRuntime) {
    for (workers, fails_in, lines) in &CUT_OFF {
        let pipe = (1000, *fails_in);
        let is_cut_off = is_cut_off(&rt, rt.alloc(), *workers, pipe, first_lines(*lines));
        assert!(rt; is_cut_off, "by {workers} in {fails_in}");
    }
}

/// What is counted in each 50 ticks where nothing is stored: a request in the first and in the third.
const OVER_TIME: &[u8] =
    b"policy,sections,block,edge_blocks,origin_blocks,edges,origins,up,down,back,from,to,caches,requests,hits,misses,coalesced,late,bypassed,inserted,evicted,reinserted,promoted,writes,splits,merges,hit_bytes,request_bytes,hit_ratio,byte_hit_ratio,flash_bytes,written_bytes,backend_requests,backend_bytes,inserted_bytes\noff,1,10,1,2,1,1,3,3,10,0,50,edges,1,0,1,0,1,0,0,0,0,0,0,0,0,0,4,0.000000,0.000000,10,0,0,0,0\noff,1,10,1,2,1,1,3,3,10,0,50,origins,1,0,1,0,0,0,0,0,0,0,0,0,0,0,4,0.000000,0.000000,20,0,1,4,0\noff,1,10,1,2,1,1,3,3,10,0,50,all,2,0,2,0,1,0,0,0,0,0,0,0,0,0,8,0.000000,0.000000,30,0,1,4,0\noff,1,10,1,2,1,1,3,3,10,50,100,edges,0,0,0,0,0,0,0,0,0,0,0,0,0,0,0,0.000000,0.000000,10,0,0,0,0\noff,1,10,1,2,1,1,3,3,10,50,100,origins,0,0,0,0,0,0,0,0,0,0,0,0,0,0,0,0.000000,0.000000,20,0,0,0,0\noff,1,10,1,2,1,1,3,3,10,50,100,all,0,0,0,0,0,0,0,0,0,0,0,0,0,0,0,0.000000,0.000000,30,0,0,0,0\noff,1,10,1,2,1,1,3,3,10,100,150,edges,1,0,1,0,1,0,0,0,0,0,0,0,0,0,4,0.000000,0.000000,10,0,0,0,0\noff,1,10,1,2,1,1,3,3,10,100,150,origins,1,0,1,0,0,0,0,0,0,0,0,0,0,0,4,0.000000,0.000000,20,0,1,4,0\noff,1,10,1,2,1,1,3,3,10,100,150,all,2,0,2,0,1,0,0,0,0,0,0,0,0,0,8,0.000000,0.000000,30,0,1,4,0\n";

/// What is counted in all ticks, in one interval: the counts of the table.
const IN_ONE: &[u8] =
    b"policy,sections,block,edge_blocks,origin_blocks,edges,origins,up,down,back,from,to,caches,requests,hits,misses,coalesced,late,bypassed,inserted,evicted,reinserted,promoted,writes,splits,merges,hit_bytes,request_bytes,hit_ratio,byte_hit_ratio,flash_bytes,written_bytes,backend_requests,backend_bytes,inserted_bytes\noff,1,10,1,2,1,1,3,3,10,0,1000,edges,2,0,2,0,2,0,0,0,0,0,0,0,0,0,8,0.000000,0.000000,10,0,0,0,0\noff,1,10,1,2,1,1,3,3,10,0,1000,origins,2,0,2,0,0,0,0,0,0,0,0,0,0,0,8,0.000000,0.000000,20,0,2,8,0\noff,1,10,1,2,1,1,3,3,10,0,1000,all,4,0,4,0,2,0,0,0,0,0,0,0,0,0,16,0.000000,0.000000,30,0,2,8,0\n";

/// What is counted from tick 50 on: the second request.
const WARM: &[u8] =
    b"policy,sections,block,edge_blocks,origin_blocks,edges,origins,up,down,back,caches,requests,hits,misses,coalesced,late,bypassed,inserted,evicted,reinserted,promoted,writes,splits,merges,hit_bytes,request_bytes,hit_ratio,byte_hit_ratio,flash_bytes,written_bytes,backend_requests,backend_bytes,inserted_bytes,drive_writes_a_day,reclaim,warm_up,ticks_a_second,rows,span,digest\noff,1,10,1,2,1,1,3,3,10,edges,1,0,1,0,1,0,0,0,0,0,0,0,0,0,4,0.000000,0.000000,10,0,0,0,0,,0,50,0,2,95,2635451442\noff,1,10,1,2,1,1,3,3,10,origins,1,0,1,0,0,0,0,0,0,0,0,0,0,0,4,0.000000,0.000000,20,0,1,4,0,,0,50,0,2,95,2635451442\noff,1,10,1,2,1,1,3,3,10,all,2,0,2,0,1,0,0,0,0,0,0,0,0,0,8,0.000000,0.000000,30,0,1,4,0,,0,50,0,2,95,2635451442\n";

/// What is counted under `lru`, at place 1, from tick 50 on, in intervals of 60 ticks: the second request, which the origin stores when
/// it asks the backend, and then its fill, which the edge stores.
const PART_OVER_TIME: &[u8] =
    b"place,policy,sections,block,edge_blocks,origin_blocks,edges,origins,up,down,back,from,to,caches,requests,hits,misses,coalesced,late,bypassed,inserted,evicted,reinserted,promoted,writes,splits,merges,hit_bytes,request_bytes,hit_ratio,byte_hit_ratio,flash_bytes,written_bytes,backend_requests,backend_bytes,inserted_bytes\n1,lru,1,10,1,2,1,1,3,3,10,50,110,edges,1,0,1,0,0,0,0,0,0,0,0,0,0,0,4,0.000000,0.000000,10,0,0,0,0\n1,lru,1,10,1,2,1,1,3,3,10,50,110,origins,1,0,1,0,0,0,1,0,0,0,0,0,0,0,4,0.000000,0.000000,20,0,1,4,4\n1,lru,1,10,1,2,1,1,3,3,10,50,110,all,2,0,2,0,0,0,1,0,0,0,0,0,0,0,8,0.000000,0.000000,30,0,1,4,4\n1,lru,1,10,1,2,1,1,3,3,10,110,170,edges,0,0,0,0,1,0,1,0,0,0,0,0,0,0,0,0.000000,0.000000,10,0,0,0,4\n1,lru,1,10,1,2,1,1,3,3,10,110,170,origins,0,0,0,0,0,0,0,0,0,0,0,0,0,0,0,0.000000,0.000000,20,0,0,0,0\n1,lru,1,10,1,2,1,1,3,3,10,110,170,all,0,0,0,0,1,0,1,0,0,0,0,0,0,0,0,0.000000,0.000000,30,0,0,0,4\n";

/// What a sweep of a trace writes, or why it does not; read as it is run, or not.
fn text_of<R: Threads + Sync>(
    rt: &R,
    alloc: Global,
    trace: &'static [u8],
    sweeping: &Sweeping<'_>,
    streamed: bool,
) -> Result<Vec<u8>, SimFault> {
    let mut out = Out::new(Vec::new(alloc));
    if streamed {
        sweep_stream(rt, alloc, trace, sweeping, &mut Silent, &mut out)?;
    } else {
        sweep(rt, alloc, trace, sweeping, &mut Silent, &mut out)?;
    }
    Ok(out.into_inner())
}

/// Whether this is written of two requests under so many policies, or under those of a part, read as they are run or not, by one
/// worker and by two.
fn is_written<R: Threads + Sync>(
    rt: &R,
    alloc: Global,
    policies: usize,
    part: Option<Part>,
    outlook: Outlook,
    text: &[u8],
) -> bool {
    let Some(grid) = grid_under(alloc, policies) else {
        return false;
    };
    let mut is_written = true;
    for (workers, streamed) in &[(1, false), (2, false), (1, true), (2, true), (64, true)] {
        let sweeping = Sweeping {
            grid: &grid,
            part,
            workers: *workers,
            outlook,
        };
        is_written &= match text_of(rt, alloc, TRACE, &sweeping, *streamed) {
            Ok(written) => written.as_slice() == text,
            Err(_) => false,
        };
    }
    is_written
}

/// What is told as text in intervals of so many ticks, from a tick on.
fn outlook(warm_up: Option<u64>, every: Option<u64>) -> Outlook {
    let format = Format::Text;
    Outlook {
        warm_up,
        every,
        format,
    }
}

#[test]
fn a_stream_leaves_the_same_table(rt: HostRuntime) {
    let alloc = rt.alloc();
    assert!(rt; is_written(&rt, alloc, 3, None, outlook(None, None), TABLE));
    assert!(rt; is_written(&rt, alloc, 0, None, outlook(None, None), first_lines(1)));
}

#[test]
fn a_table_over_time_adds_up_to_the_table(rt: HostRuntime) {
    let alloc = rt.alloc();
    assert!(rt; is_written(&rt, alloc, 1, None, outlook(None, Some(50)), OVER_TIME));
    assert!(rt; is_written(&rt, alloc, 1, None, outlook(None, Some(1000)), IN_ONE));
}

#[test]
fn a_table_from_a_time_on_and_a_part_over_time(rt: HostRuntime) {
    let alloc = rt.alloc();
    assert!(rt; is_written(&rt, alloc, 1, None, outlook(Some(50), None), WARM));
    let part = Part::new(1, 3);
    let since = outlook(Some(50), Some(60));
    assert!(rt; is_written(&rt, alloc, 3, part, since, PART_OVER_TIME));
}

/// Why a sweep of a trace under three policies that is read as it is run writes nothing, if it does not.
fn stream_fault<R: Threads + Sync>(
    rt: &R,
    alloc: Global,
    trace: &'static [u8],
    outlook: Outlook,
) -> Option<SimFault> {
    let grid = grid_under(alloc, 3)?;
    let sweeping = Sweeping {
        grid: &grid,
        part: None,
        workers: 2,
        outlook,
    };
    text_of(rt, alloc, trace, &sweeping, true).err()
}

#[test]
fn faults_of_a_stream(rt: HostRuntime) {
    let alloc = rt.alloc();
    let late = b"time,edge,object,size\n100,0,7,4\n5,0,8,4\n9,1,8,4\n";
    let fault = stream_fault(&rt, alloc, late, outlook(None, None));
    assert!(rt; matches!(fault, Some(SimFault::Trace(TraceFault::Order(1)))));
    let fault = stream_fault(&rt, alloc, b"time\n", outlook(None, None));
    assert!(rt; matches!(fault, Some(SimFault::Trace(TraceFault::Header))));
    let fault = stream_fault(&rt, alloc, TRACE, outlook(None, Some(0)));
    assert!(rt; matches!(fault, Some(SimFault::Plan)));
}
