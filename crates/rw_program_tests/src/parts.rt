// Long traces, which several threads read in parts, and those that one thread reads all the same.
use crate::shown::is_shown;
use rw_trace::{Row, read, read_in_parts};
use std::alloc::{AllocError, Global};
use std::thread::Threads;

/// The text of a trace, a row a tick, each of 14 bytes, where `line` stands in place of row `number`.
fn trace(alloc: Global, rows: u32, number: u32, line: &str) -> Result<String, AllocError> {
    let mut text = String::new(alloc);
    write!(text, "time,edge,object,size\n")?;
    for at in 0..rows {
        if at == number {
            write!(text, "{line}\n")?;
        } else {
            write!(text, "{},0,7,4\n", at % 1_000_000 + 1_000_000)?;
        }
    }
    Ok(text)
}

/// Whether these parts are what one thread reads.
fn are_as_one(alloc: Global, text: &[u8], first: &[Row], rest: &[Row]) -> bool {
    let Ok(rows) = read(alloc, text, 1) else {
        return false;
    };
    let rows = rows.as_slice();
    rows.len().checked_sub(first.len()) == Some(rest.len())
        && rows.starts_with(first)
        && rows.ends_with(rest)
}

/// Whether so many threads read so many rows in each part, which are what one thread reads.
fn is_read<R: Threads + Sync>(
    rt: &R,
    alloc: Global,
    text: &[u8],
    readers: u32,
    (first_rows, rest_rows): (usize, usize),
) -> bool {
    let Ok((first, rest)) = read_in_parts(rt, alloc, text, 1, readers) else {
        return false;
    };
    first.len() == first_rows && rest.len() == rest_rows && are_as_one(alloc, text, &first, &rest)
}

/// Traces by the number of their rows, and a line in place of one of these; how many threads read each, and how many rows in
/// each of two parts. 20000 rows are long enough for two threads, and 40000 for four.
const READ: [(u32, u32, &str, u32, (usize, usize)); 6] = [
    (20_000, 20_000, "", 2, (9_999, 10_001)),
    // A quote behind the middle does no harm.
    (20_000, 19_999, "\"1019999\",0,7,4", 2, (9_999, 10_001)),
    // One thread reads a short trace, and one with a quote before the middle.
    (100, 100, "", 2, (100, 0)),
    (20_000, 0, "\"1000000\",0,7,4", 2, (20_000, 0)),
    // Each half of a longer trace is read in two parts.
    (40_000, 40_000, "", 4, (19_999, 20_001)),
    (40_000, 25_000, "\"1025000\",0,7,4", 4, (19_999, 20_001)),
];

#[test]
fn a_long_trace_is_read_in_parts(rt: HostRuntime) {
    let alloc = rt.alloc();
    for (rows, number, line, readers, parts) in &READ {
        let is_read = match trace(alloc, *rows, *number, line) {
            Ok(text) => is_read(&rt, alloc, text.as_bytes(), *readers, *parts),
            Err(_) => false,
        };
        assert!(rt; is_read, "for row {number} of {rows}");
    }
}

/// Whether so many threads refuse a trace, with this line.
fn is_refused<R: Threads + Sync>(
    rt: &R,
    alloc: Global,
    text: &[u8],
    readers: u32,
    line: &str,
) -> bool {
    matches!(read_in_parts(rt, alloc, text, 1, readers), Err(fault) if is_shown(&fault, line))
}

/// Traces as above, and the line of the fault of each.
const FAULTS: [(u32, u32, &str, u32, &str); 4] = [
    (20_000, 3, "x", 2, "trace: row 3: length"),
    (20_000, 15_000, "1015000,1,7,4", 2, "trace: row 15000: edge"),
    (40_000, 12_000, "x", 4, "trace: row 12000: length"),
    (40_000, 39_999, "1039999,1,7,4", 4, "trace: row 39999: edge"),
];

#[test]
fn a_fault_of_any_part_has_its_row(rt: HostRuntime) {
    let alloc = rt.alloc();
    for (rows, number, line, readers, fault) in &FAULTS {
        let is_refused = match trace(alloc, *rows, *number, line) {
            Ok(text) => is_refused(&rt, alloc, text.as_bytes(), *readers, fault),
            Err(_) => false,
        };
        assert!(rt; is_refused, "for row {number} of {rows}");
    }
}
