// The program's words, what it says on standard error, and its exit status.
use crate::pipe::Pipe;
use rw_command::{
    Fault, Out, ScheduleFault, SimFault, Source, SourceFault, Stderr, command, command_at,
};
use rw_trace::TraceFault;
use std::alloc::{AllocError, Global};
use std::io::Write;
use std::random::RandomSource;
use std::sync::Wait;
use std::thread::Threads;
use std::time::Clock;

/// The trace of one request; its report with nothing stored has 409 bytes, as that of a trace without one.
pub(crate) const TRACE: &[u8] = b"time,edge,object,size\n5,0,7,4\n";

/// Whether a fault is told by this line and status.
fn is_told<F: Into<Fault>>(alloc: Global, fault: F, line: &str, status: u8) -> bool {
    let fault = fault.into();
    let mut err = Stderr {
        writer: Vec::new(alloc),
        is_terminal: false,
    };
    err.tell(&fault);
    err.writer.as_slice() == line.as_bytes() && fault.status() == status
}

// What the stored cases can't make the program say.
#[test]
fn a_fault_is_one_line_and_a_status(rt: HostRuntime) {
    let alloc = rt.alloc();
    let many = SimFault::Trace(TraceFault::TooManyRows);
    assert!(rt; is_told(alloc, Fault::Plan, "plan\n", 2));
    assert!(rt; is_told(alloc, many, "trace: too many rows\n", 3));
    assert!(rt; is_told(alloc, SimFault::Plan, "plan\n", 2));
    assert!(rt; is_told(alloc, SimFault::NoThread, "no thread\n", 6));
    assert!(rt; is_told(alloc, SimFault::Exhausted, "exhausted\n", 7));
    assert!(rt; is_told(alloc, SimFault::Output, "output\n", 8));
}

#[test]
fn want_of_memory_is_memory_wherever_it_is(rt: HostRuntime) {
    let alloc = rt.alloc();
    assert!(rt; is_told(alloc, Fault::Memory, "memory\n", 5));
    assert!(rt; is_told(alloc, ScheduleFault::Memory, "memory\n", 5));
    assert!(rt; is_told(alloc, SourceFault::Memory, "memory\n", 5));
    assert!(rt; is_told(alloc, SimFault::Memory, "memory\n", 5));
}

/// A trace on standard input; there is no file.
#[derive(Drop)]
struct Given {
    trace: &'static [u8],
}

impl Source for Given {
    type Reader = &'static [u8];

    fn open(&mut self, path: &str) -> Result<&'static [u8], SourceFault> {
        if path == "-" {
            Ok(self.trace)
        } else {
            Err(SourceFault::Read)
        }
    }

    fn bytes(&mut self, alloc: Global, path: &str) -> Result<Vec<u8>, SourceFault> {
        if path != "-" {
            return Err(SourceFault::Read);
        }
        Vec::from_slice(alloc, self.trace).map_err(|_| SourceFault::Memory)
    }
}

/// Adds the words of a command line.
pub(crate) fn push_words(
    alloc: Global,
    text: &str,
    words: &mut Vec<String>,
) -> Result<(), AllocError> {
    for word in text.split(' ') {
        words.push(String::from_str(alloc, word)?)?;
    }
    Ok(())
}

/// The words of a command line.
pub(crate) fn words_of(alloc: Global, text: &str) -> Result<Vec<String>, AllocError> {
    let mut words = Vec::new(alloc);
    push_words(alloc, text, &mut words)?;
    Ok(words)
}

/// Does what `text`, a command line, asks of a trace; its exit status, and how many bytes are then written.
fn ripqwarp<E: Write, R: Threads + Wait + Clock + RandomSource + Sync>(
    rt: &R,
    alloc: Global,
    text: &str,
    trace: &'static [u8],
    err: &mut E,
) -> Option<(u8, usize)> {
    let words = words_of(alloc, text).ok()?;
    let mut out = Out::new(Vec::new(alloc));
    let status = command(rt, alloc, words, &mut Given { trace }, &mut out, err);
    Some((status, out.into_inner().len()))
}

/// Whether a command line has this exit status, with so many bytes written, and this on standard error.
pub(crate) fn is_answered<R: Threads + Wait + Clock + RandomSource + Sync>(
    rt: &R,
    alloc: Global,
    words: &str,
    trace: &'static [u8],
    answer: (u8, usize),
    told: &str,
) -> bool {
    let mut err = Vec::new(alloc);
    let answered = ripqwarp(rt, alloc, words, trace, &mut err);
    is_answer(answered, answer) && err.as_slice() == told.as_bytes()
}

/// Whether a command line was tried, with this exit status and so many bytes written.
pub(crate) fn is_answer(answered: Option<(u8, usize)>, (status, written): (u8, usize)) -> bool {
    matches!(answered, Some((ended, bytes)) if ended == status && bytes == written)
}

/// Sweeps over lists with an item that is none, each with what is told of it.
const NO_LISTS: [(&str, &str); 5] = [
    (
        "ripqwarp sweep --policy lru,slru9 nothing",
        "error: invalid value 'slru9' for '--policy': a list of off, lru and slru2 to slru8, with commas between them\n",
    ),
    (
        "ripqwarp sweep --sections 1,,2 nothing",
        "error: invalid value '' for '--sections': a number from 1 to 16, or a range such as 16..1024x2\n",
    ),
    (
        "ripqwarp sweep --block 0 nothing",
        "error: invalid value '0' for '--block': 1 to 268435456 bytes, with K, M, G or T for powers of 1024, or a range such as 16..1024x2\n",
    ),
    (
        "ripqwarp sweep --edge-blocks 16..65537x2 nothing",
        "error: invalid value '16..65537x2' for '--edge-blocks': a number from 1 to 65536, or a range such as 16..1024x2\n",
    ),
    (
        "ripqwarp sweep --origin-blocks 4..64x1 nothing",
        "error: invalid value '4..64x1' for '--origin-blocks': a number from 1 to 65536, or a range such as 16..1024x2\n",
    ),
];

// They are told before the trace is read.
#[test]
fn a_list_that_is_none_is_told(rt: HostRuntime) {
    let alloc = rt.alloc();
    for (words, told) in &NO_LISTS {
        assert!(rt;
            is_answered(&rt, alloc, words, TRACE, (2, 0), told),
            "for {words}"
        );
    }
}

/// Plots that are refused for their words alone, each with what is told of it.
const NO_PLOTS: [(&str, &str); 2] = [
    (
        "ripqwarp plot --of backend_requests --caches edges nothing",
        "error: --of backend_requests: edges never ask the backend; give --caches origins or --caches all\n",
    ),
    (
        "ripqwarp plot --of backend_bytes --caches edges nothing",
        "error: --of backend_bytes: edges never ask the backend; give --caches origins or --caches all\n",
    ),
];

// They are told before the table is read.
#[test]
fn a_plot_of_what_edges_never_ask_is_told(rt: HostRuntime) {
    let alloc = rt.alloc();
    for (words, told) in &NO_PLOTS {
        assert!(rt;
            is_answered(&rt, alloc, words, TRACE, (2, 0), told),
            "for {words}"
        );
    }
}

/// A log of two rows, of which the second is half a unit behind the first.
const LOG: &[u8] = b"10,a,5\n10.5,b,6\n";

/// Two requests of 4 bytes each. Each misses at the edge, and 3 ticks later at the origin; its answer comes 13 ticks after that, and
/// nothing is stored.
pub(crate) const APART: &[u8] = b"time,edge,object,size\n5,0,7,4\n100,0,8,4\n";

/// What is counted of them in each 50 ticks, up to the first mark at which nothing is left to do.
const OVER_TIME: &[u8] =
    b"from,to,caches,requests,hits,misses,coalesced,late,bypassed,inserted,evicted,reinserted,promoted,writes,splits,merges,hit_bytes,request_bytes,hit_ratio,byte_hit_ratio,flash_bytes,written_bytes,backend_requests,backend_bytes,inserted_bytes\n0,50,edges,1,0,1,0,1,0,0,0,0,0,0,0,0,0,4,0.000000,0.000000,10,0,0,0,0\n0,50,origins,1,0,1,0,0,0,0,0,0,0,0,0,0,0,4,0.000000,0.000000,20,0,1,4,0\n0,50,all,2,0,2,0,1,0,0,0,0,0,0,0,0,0,8,0.000000,0.000000,30,0,1,4,0\n50,100,edges,0,0,0,0,0,0,0,0,0,0,0,0,0,0,0,0.000000,0.000000,10,0,0,0,0\n50,100,origins,0,0,0,0,0,0,0,0,0,0,0,0,0,0,0,0.000000,0.000000,20,0,0,0,0\n50,100,all,0,0,0,0,0,0,0,0,0,0,0,0,0,0,0,0.000000,0.000000,30,0,0,0,0\n100,150,edges,1,0,1,0,1,0,0,0,0,0,0,0,0,0,4,0.000000,0.000000,10,0,0,0,0\n100,150,origins,1,0,1,0,0,0,0,0,0,0,0,0,0,0,4,0.000000,0.000000,20,0,1,4,0\n100,150,all,2,0,2,0,1,0,0,0,0,0,0,0,0,0,8,0.000000,0.000000,30,0,1,4,0\n";

/// The same from tick 100 on.
const LAST_ONE: &[u8] =
    b"from,to,caches,requests,hits,misses,coalesced,late,bypassed,inserted,evicted,reinserted,promoted,writes,splits,merges,hit_bytes,request_bytes,hit_ratio,byte_hit_ratio,flash_bytes,written_bytes,backend_requests,backend_bytes,inserted_bytes\n100,150,edges,1,0,1,0,1,0,0,0,0,0,0,0,0,0,4,0.000000,0.000000,10,0,0,0,0\n100,150,origins,1,0,1,0,0,0,0,0,0,0,0,0,0,0,4,0.000000,0.000000,20,0,1,4,0\n100,150,all,2,0,2,0,1,0,0,0,0,0,0,0,0,0,8,0.000000,0.000000,30,0,1,4,0\n";

/// What `text`, a command line, writes of a trace, if its exit status is 0.
pub(crate) fn written<R: Threads + Wait + Clock + RandomSource + Sync>(
    rt: &R,
    alloc: Global,
    text: &str,
    trace: &'static [u8],
) -> Option<Vec<u8>> {
    let words = words_of(alloc, text).ok()?;
    let mut out = Out::new(Vec::new(alloc));
    let mut err = Vec::new(alloc);
    let status = command(rt, alloc, words, &mut Given { trace }, &mut out, &mut err);
    (status == 0).then_some(out.into_inner())
}

/// Whether two command lines write the same, each of its trace.
pub(crate) fn write_the_same<R: Threads + Wait + Clock + RandomSource + Sync>(
    rt: &R,
    alloc: Global,
    first: (&str, &'static [u8]),
    second: (&str, &'static [u8]),
) -> bool {
    let one = written(rt, alloc, first.0, first.1);
    let other = written(rt, alloc, second.0, second.1);
    match (one, other) {
        (Some(one), Some(other)) => one.as_slice() == other.as_slice(),
        _ => false,
    }
}

/// Runs of them that ask for a table, each with what it writes.
const TABLES: [(&str, &[u8]); 4] = [
    (
        "ripqwarp serial - --policy off --block 10 --edge-blocks 1 --origin-blocks 2 --every 50",
        OVER_TIME,
    ),
    (
        "ripqwarp serial - --policy off --block 10 --edge-blocks 1 --origin-blocks 2 --every 50 --stream",
        OVER_TIME,
    ),
    (
        "ripqwarp serial - --policy off --block 10 --edge-blocks 1 --origin-blocks 2 --every 50 --warm-up 100",
        LAST_ONE,
    ),
    (
        "ripqwarp serial - --policy off --block 10 --edge-blocks 1 --origin-blocks 2 --every 50 --warm-up 100 --stream",
        LAST_ONE,
    ),
];

#[test]
fn a_run_tells_of_each_interval(rt: HostRuntime) {
    let alloc = rt.alloc();
    for (words, table) in &TABLES {
        let is_table = match written(&rt, alloc, words, APART) {
            Some(text) => text.as_slice() == *table,
            None => false,
        };
        assert!(rt; is_table, "for {words}");
    }
}

// Nothing is stored, so what is counted from tick 50 on is the report of the second request alone.
#[test]
fn a_run_that_is_read_as_it_goes_leaves_the_same_report(rt: HostRuntime) {
    let alloc = rt.alloc();
    let second: &[u8] = b"time,edge,object,size\n100,0,8,4\n";
    let report = ("ripqwarp serial - --policy off", APART);
    let streamed = ("ripqwarp serial - --policy off --stream", APART);
    assert!(rt; write_the_same(&rt, alloc, report, streamed));
    let report = ("ripqwarp serial - --policy off", second);
    let warm = ("ripqwarp serial - --policy off --warm-up 50", APART);
    assert!(rt; write_the_same(&rt, alloc, report, warm));
    let streamed = (
        "ripqwarp serial - --policy off --warm-up 50 --stream",
        APART,
    );
    assert!(rt; write_the_same(&rt, alloc, report, streamed));
}

/// Runs of rows out of order, and of commands that do not take these options, each with its exit status and what is told of it.
const NOT_STREAMED: [(&str, u8, &str); 5] = [
    ("ripqwarp serial - --stream", 3, "trace: row 1: order\n"),
    (
        "ripqwarp serial - --stream --every 50",
        3,
        "trace: row 1: order\n",
    ),
    ("ripqwarp serial nothing --stream", 4, "file: cannot read\n"),
    (
        "ripqwarp warp - --stream",
        2,
        "error: --stream: warp does not take it; serial and sweep do\n",
    ),
    (
        "ripqwarp journal - --every=5",
        2,
        "error: --every: journal does not take it; serial and sweep do\n",
    ),
];

#[test]
fn faults_of_runs_that_are_read_as_they_go(rt: HostRuntime) {
    let alloc = rt.alloc();
    let late = b"time,edge,object,size\n100,0,7,4\n5,0,8,4\n9,1,8,4\n";
    for (words, status, told) in &NOT_STREAMED {
        assert!(rt;
            is_answered(&rt, alloc, words, late, (*status, 0), told),
            "for {words}"
        );
    }
}

/// A binary log of three records: the requests of [`APART`], and between them one of no size.
const RECORDS: &[u8] = b"\x05\0\0\0\x07\0\0\0\0\0\0\0\x04\0\0\0\xff\xff\xff\xff\xff\xff\xff\xff\
    \x32\0\0\0\x09\0\0\0\0\0\0\0\0\0\0\0\xff\xff\xff\xff\xff\xff\xff\xff\
    \x64\0\0\0\x08\0\0\0\0\0\0\0\x04\0\0\0\xff\xff\xff\xff\xff\xff\xff\xff";

/// Runs of a binary log, each with a run of the trace that it writes the same as. A log says how many ticks a second has, and so does a
/// sweep's table.
const OF_RECORDS: [(&str, &str); 4] = [
    (
        "ripqwarp serial - --policy off --stream --from oracle-general --ticks 1 --epoch 0",
        "ripqwarp serial - --policy off",
    ),
    (
        "ripqwarp serial - --policy lru --every 50 --stream --from oracle-general --ticks 1 --epoch 0",
        "ripqwarp serial - --policy lru --every 50",
    ),
    (
        "ripqwarp sweep - --policy off,lru --stream --from oracle-general --ticks 1 --epoch 0",
        "ripqwarp sweep - --policy off,lru --ticks-a-second 1",
    ),
    (
        "ripqwarp sweep - --warm-up 50 --stream --from oracle-general --ticks 1 --epoch 0 --edge-by object",
        "ripqwarp sweep - --warm-up 50 --ticks-a-second 1",
    ),
];

#[test]
fn a_binary_log_runs_as_its_trace_does(rt: HostRuntime) {
    let alloc = rt.alloc();
    for (log, trace) in &OF_RECORDS {
        assert!(rt;
            write_the_same(&rt, alloc, (*log, RECORDS), (*trace, APART)),
            "for {log}"
        );
    }
}

/// What is told of runs of a binary log, each with its exit status.
const OF_LOGS: [(&str, u8, &str); 8] = [
    (
        "ripqwarp sweep - --list --from oracle-general --policy lru --stream",
        0,
        "",
    ),
    (
        "ripqwarp serial - --stream --from oracle-general --ticks 1000000000 --policy off",
        0,
        "serial kept 2 clamped 0 left out: length 0 time 0 edge 0 object 0 size 1 kind 0\n",
    ),
    (
        "ripqwarp serial - --stream --from oracle-general --epoch 6 --policy off",
        0,
        "serial kept 1 clamped 0 left out: length 0 time 1 edge 0 object 0 size 1 kind 0\n",
    ),
    (
        "ripqwarp sweep - --stream --from oracle-general --policy off",
        0,
        "sweep kept 2 clamped 0 left out: length 0 time 0 edge 0 object 0 size 1 kind 0\n",
    ),
    (
        "ripqwarp serial - --from oracle-general",
        2,
        "error: --from oracle-general: only with --stream\n",
    ),
    (
        "ripqwarp sweep - --ticks 5 --stream",
        2,
        "error: --ticks: only with --from oracle-general\n",
    ),
    (
        "ripqwarp serial - --edge-by object",
        2,
        "error: --edge-by: only with --from oracle-general\n",
    ),
    (
        "ripqwarp serial nothing --stream --from oracle-general",
        4,
        "file: cannot read\n",
    ),
];

#[test]
fn what_is_left_out_of_a_binary_log_is_told(rt: HostRuntime) {
    let alloc = rt.alloc();
    for (words, status, told) in &OF_LOGS {
        let mut err = Vec::new(alloc);
        let answered = ripqwarp(&rt, alloc, words, RECORDS, &mut err);
        let is_ended = matches!(answered, Some((ended, _)) if ended == *status);
        assert!(rt;
            is_ended && err.as_slice() == told.as_bytes(),
            "for {words}"
        );
    }
}

// The second record is before the first, and behind it stands one of no size: what is named is its number in the log.
#[test]
fn a_binary_log_out_of_order_is_told(rt: HostRuntime) {
    let alloc = rt.alloc();
    let turned: &[u8] = b"\x05\0\0\0\x07\0\0\0\0\0\0\0\x04\0\0\0\0\0\0\0\0\0\0\0\
        \x05\0\0\0\x07\0\0\0\0\0\0\0\0\0\0\0\0\0\0\0\0\0\0\0\
        \x04\0\0\0\x08\0\0\0\0\0\0\0\x04\0\0\0\0\0\0\0\0\0\0\0";
    for words in [
        "ripqwarp serial - --stream --from oracle-general --epoch 0",
        "ripqwarp sweep - --stream --from oracle-general --epoch 0",
    ] {
        let told = "trace: row 2: order\n";
        assert!(rt;
            is_answered(&rt, alloc, words, turned, (3, 0), told),
            "for {words}"
        );
    }
}

#[test]
fn a_stream_shows_how_many_rows_are_read(rt: HostRuntime) -> Result<(), AllocError> {
    let alloc = rt.alloc();
    for (text, name) in [
        ("ripqwarp serial - --policy off --stream", "serial"),
        ("ripqwarp sweep - --policy off --stream", "sweep"),
    ] {
        let words = words_of(alloc, text)?;
        let mut out = Out::new(Vec::new(alloc));
        let mut err = Stderr {
            writer: Vec::new(alloc),
            is_terminal: true,
        };
        let source = &mut Given { trace: APART };
        let status = command_at(&rt, alloc, words, source, &mut out, &mut err);
        let shown = format!(in alloc; "\r\x1b[K{name} 0 rows read\r\x1b[K")?;
        assert!(rt;
            status == 0 && err.writer.as_slice() == shown.as_bytes(),
            "for {text}"
        );
    }
    Ok(())
}

/// How many lines a text has.
fn lines(text: &[u8]) -> usize {
    let mut count = 0_usize;
    for byte in text {
        if *byte == b'\n' {
            count = count.wrapping_add(1);
        }
    }
    count
}

/// Sweeps over 64, 128 and 256 blocks under two policies; the exit status, and how many lines are then written.
fn sweep_of_six<R: Threads + Wait + Clock + RandomSource + Sync>(
    rt: &R,
    alloc: Global,
    err: &mut Stderr<Vec<u8>>,
) -> Option<(u8, usize)> {
    let text = "ripqwarp sweep --policy off,lru --edge-blocks 64..300x2 --workers 1 -";
    let words = words_of(alloc, text).ok()?;
    let mut out = Out::new(Vec::new(alloc));
    let source = &mut Given { trace: TRACE };
    let status = command_at(rt, alloc, words, source, &mut out, err);
    Some((status, lines(out.into_inner().as_slice())))
}

/// Whether that sweep is done, of a header and three lines for each of six configurations, and shows how far it is on a
/// terminal alone.
fn is_swept<R: Threads + Wait + Clock + RandomSource + Sync>(
    rt: &R,
    alloc: Global,
    terminal: bool,
) -> bool {
    let mut err = Stderr {
        writer: Vec::new(alloc),
        is_terminal: terminal,
    };
    let is_done = is_answer(sweep_of_six(rt, alloc, &mut err), (0, 19));
    let is_told = if terminal {
        err.writer
            .as_slice()
            .ends_with(b"\r\x1b[Ksweep 6 of 6\r\x1b[K")
    } else {
        err.writer.is_empty()
    };
    is_done && is_told
}

#[test]
fn a_sweep_shows_how_far_it_is_on_a_terminal_alone(rt: HostRuntime) {
    let alloc = rt.alloc();
    assert!(rt; is_swept(&rt, alloc, false));
    assert!(rt; is_swept(&rt, alloc, true));
}

/// Whether a command line has this exit status and so many bytes written, whether standard error is interrupted for ever or
/// takes nothing.
fn is_answered_in_vain<R: Threads + Wait + Clock + RandomSource + Sync>(
    rt: &R,
    alloc: Global,
    words: &str,
    fails_in: u32,
    answer: (u8, usize),
) -> bool {
    let mut err = Pipe::new(alloc, 0, fails_in, true);
    is_answer(ripqwarp(rt, alloc, words, TRACE, &mut err), answer)
}

/// Command lines, each with its exit status and how many bytes are written, for a writer that is interrupted for ever and one
/// that takes nothing.
const IN_VAIN: [(&str, u32, (u8, usize)); 4] = [
    ("ripqwarp warp - --policy off --workers 1", 0, (0, 409)),
    ("ripqwarp warp - --policy off --workers 1", 9, (0, 409)),
    ("ripqwarp serial nothing", 0, (4, 0)),
    ("ripqwarp serial nothing", 9, (4, 0)),
];

// They change neither what is done nor its status.
#[test]
fn a_failing_standard_error_is_ignored(rt: HostRuntime) {
    let alloc = rt.alloc();
    for (words, fails_in, answer) in &IN_VAIN {
        let is_answered = is_answered_in_vain(&rt, alloc, words, *fails_in, *answer);
        assert!(rt; is_answered, "for {words}, in {fails_in}");
    }
}

/// A part of a sweep over one combination.
const PART: &[u8] =
    b"place,policy,sections,block,edge_blocks,origin_blocks,edges,origins,up,down,back,caches,requests,hits,misses,coalesced,late,bypassed,inserted,evicted,reinserted,promoted,writes,splits,merges,hit_bytes,request_bytes,hit_ratio,byte_hit_ratio,flash_bytes,written_bytes,backend_requests,backend_bytes,inserted_bytes,drive_writes_a_day,reclaim,warm_up,ticks_a_second,rows,span,digest\n0,lru,1,10,2,2,1,1,3,3,10,edges,1,0,1,0,1,0,0,0,0,0,0,0,0,0,4,0.000000,0.000000,20,0,0,0,0,,0,0,0,2,95,2635451442\n0,lru,1,10,2,2,1,1,3,3,10,origins,1,0,1,0,0,0,0,0,0,0,0,0,0,0,4,0.000000,0.000000,20,0,1,4,0,,0,0,0,2,95,2635451442\n0,lru,1,10,2,2,1,1,3,3,10,all,2,0,2,0,1,0,0,0,0,0,0,0,0,0,8,0.000000,0.000000,40,0,1,4,0,,0,0,0,2,95,2635451442\n";

/// The table of a sweep over two combinations.
const TABLE: &[u8] =
    b"policy,sections,block,edge_blocks,origin_blocks,edges,origins,up,down,back,caches,requests,hits,misses,coalesced,late,bypassed,inserted,evicted,reinserted,promoted,writes,splits,merges,hit_bytes,request_bytes,hit_ratio,byte_hit_ratio,flash_bytes,written_bytes,backend_requests,backend_bytes,inserted_bytes,drive_writes_a_day,reclaim,warm_up,ticks_a_second,rows,span,digest\nlru,1,10,2,2,1,1,3,3,10,edges,1,0,1,0,1,0,0,0,0,0,0,0,0,0,4,0.000000,0.000000,20,0,0,0,0,,0,0,0,2,95,2635451442\nlru,1,10,2,2,1,1,3,3,10,origins,1,0,1,0,0,0,0,0,0,0,0,0,0,0,4,0.000000,0.000000,20,0,1,4,0,,0,0,0,2,95,2635451442\nlru,1,10,2,2,1,1,3,3,10,all,2,0,2,0,1,0,0,0,0,0,0,0,0,0,8,0.000000,0.000000,40,0,1,4,0,,0,0,0,2,95,2635451442\nlru,1,10,4,2,1,1,3,3,10,edges,1,0,1,0,1,0,0,0,0,0,0,0,0,0,4,0.000000,0.000000,40,0,0,0,0,,0,0,0,2,95,2635451442\nlru,1,10,4,2,1,1,3,3,10,origins,1,0,1,0,0,0,0,0,0,0,0,0,0,0,4,0.000000,0.000000,20,0,1,4,0,,0,0,0,2,95,2635451442\nlru,1,10,4,2,1,1,3,3,10,all,2,0,2,0,1,0,0,0,0,0,0,0,0,0,8,0.000000,0.000000,60,0,1,4,0,,0,0,0,2,95,2635451442\n";

/// A command line of each command in each of its ways to write, and what it reads.
const WRITING: [(&str, &[u8]); 22] = [
    ("ripqwarp --help", b""),
    ("ripqwarp warp --help", b""),
    ("ripqwarp serial -", TRACE),
    ("ripqwarp serial - --stream", TRACE),
    ("ripqwarp serial - --every 5", TRACE),
    ("ripqwarp serial - --stream --warm-up 5", TRACE),
    ("ripqwarp serial - --stream --from oracle-general", RECORDS),
    ("ripqwarp warp -", TRACE),
    ("ripqwarp warp - --workers 1", TRACE),
    ("ripqwarp journal - --schedule E0", TRACE),
    ("ripqwarp import - --time 0 --object 1 --size 2", LOG),
    (
        "ripqwarp import - --stream --time 0 --object 1 --size 2",
        LOG,
    ),
    (
        "ripqwarp import - --from oracle-general --max-left-out 34",
        RECORDS,
    ),
    ("ripqwarp sweep - --policy off", TRACE),
    ("ripqwarp sweep - --policy off --part 0/2 --every 5", TRACE),
    ("ripqwarp sweep - --policy off --stream", TRACE),
    ("ripqwarp sweep - --policy off --format json", TRACE),
    ("ripqwarp sweep --list", b""),
    ("ripqwarp serial - --format json", TRACE),
    ("ripqwarp size - --target 0.5 --edge-blocks 1..2", TRACE),
    ("ripqwarp join -", PART),
    ("ripqwarp plot -", TABLE),
];

/// Whether a command line whose writer fails in so many writes has the exit status 8, and `output` on standard error alone.
fn fails_to_write<R: Threads + Wait + Clock + RandomSource + Sync>(
    rt: &R,
    alloc: Global,
    (words, given): (&str, &'static [u8]),
    (fails_in, flush_fails): (u32, bool),
) -> bool {
    let Ok(words) = words_of(alloc, words) else {
        return false;
    };
    let mut out = Out::new(Pipe::new(alloc, 1 << 20, fails_in, flush_fails));
    let mut err = Vec::new(alloc);
    let source = &mut Given { trace: given };
    let status = command(rt, alloc, words, source, &mut out, &mut err);
    status == 8 && err.as_slice() == b"output\n".as_slice()
}

// A full disk: no command may then end as if all were written.
#[test]
fn a_command_that_cannot_write_ends_with_8(rt: HostRuntime) {
    let alloc = rt.alloc();
    for (words, given) in &WRITING {
        for how in [(0, false), (1 << 20, true)] {
            assert!(rt;
                fails_to_write(&rt, alloc, (*words, *given), how),
                "for {words}"
            );
        }
    }
}

/// Whether the line on standard error of a command line is the one that its exit status has: for this status, that of a fault
/// of the command line, one that begins like this, and for want of memory `memory`.
fn agree<R: Threads + Wait + Clock + RandomSource + Sync>(
    rt: &R,
    alloc: Global,
    words: &str,
    begins: &str,
    status: u8,
) -> bool {
    let mut held = [0; 800];
    let mut left = held.as_mut_slice();
    let Some((ended, _)) = ripqwarp(rt, alloc, words, TRACE, &mut left) else {
        return false;
    };
    let length = 800_usize.saturating_sub(left.len());
    let line = held.get(..length).unwrap_or(&[]);
    if ended == 5 {
        line == b"memory\n".as_slice()
    } else {
        ended == status && line.starts_with(begins.as_bytes())
    }
}

/// Command lines, each with how the line of its fault begins, and its exit status.
const FAULTS: [(&str, &str, u8); 3] = [
    ("ripqwarp serial --edges 0 -", "error: invalid value '0'", 2),
    ("ripqwarp journal - --schedule E", "schedule: word 0\n", 2),
    ("ripqwarp serial nothing", "file: cannot read\n", 4),
];

// Where a request for memory is refused, these answer 5 with that line, and no other status.
#[test]
fn a_line_and_its_status_agree(rt: HostRuntime) {
    let alloc = rt.alloc();
    for (words, begins, status) in &FAULTS {
        assert!(rt; agree(&rt, alloc, words, begins, *status), "for {words}");
    }
}
