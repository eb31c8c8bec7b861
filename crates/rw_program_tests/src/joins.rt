// Parts of a sweep: cut and joined again they are the sweep, and each fault of a part has its line.
use crate::grids::{grid, sweeping};
use crate::shown::is_shown;
use rw_photo::Policy;
use rw_progress::Silent;
use rw_ripqwarp::Out;
use rw_sweep::{Grid, Part, join, join_of_parts, list, parts_make_the_sweep, sweep};
use std::alloc::Global;
use std::io::Write;
use std::thread::Threads;
use std::{io, slice};

/// Two requests for two objects of 4 bytes.
const TRACE: &[u8] = b"time,edge,object,size\n5,0,7,4\n100,0,8,4\n";

/// The header of a part.
const HEADER: &[u8] =
    b"place,policy,sections,block,edge_blocks,origin_blocks,edges,origins,up,down,back,caches,requests,hits,misses,coalesced,late,bypassed,inserted,evicted,reinserted,promoted,writes,splits,merges,hit_bytes,request_bytes,hit_ratio,byte_hit_ratio,flash_bytes,written_bytes,backend_requests,backend_bytes,inserted_bytes,drive_writes_a_day,reclaim,warm_up,ticks_a_second,rows,span,digest\n";

/// The grid of one policy, and 1 to 5 blocks on the edge.
fn five(alloc: Global) -> Option<Grid> {
    grid(alloc, &[Policy::Lru], &[1, 2, 3, 4, 5])
}

/// The table of a grid, or of a part of it.
fn table<R: Threads + Sync>(
    rt: &R,
    alloc: Global,
    grid: &Grid,
    part: Option<Part>,
) -> Option<Vec<u8>> {
    let sweeping = sweeping(grid, part, 1);
    let mut out = Out::new(Vec::new(alloc));
    sweep(rt, alloc, TRACE, &sweeping, &mut Silent, &mut out).ok()?;
    Some(out.into_inner())
}

/// Adds the tables of so many parts of a grid, that of the last one first.
fn push_parts<R: Threads + Sync>(
    rt: &R,
    alloc: Global,
    grid: &Grid,
    count: u32,
    parts: &mut Vec<Vec<u8>>,
) -> Option<()> {
    for index in (0..count).rev() {
        let part = Part::new(index, count)?;
        let table = table(rt, alloc, grid, Some(part))?;
        parts.push(table).ok()?;
    }
    Some(())
}

/// The table of a grid of five configurations, joined of so many parts.
fn joined<R: Threads + Sync>(rt: &R, alloc: Global, grid: &Grid, count: u32) -> Option<Vec<u8>> {
    let mut parts = Vec::new(alloc);
    push_parts(rt, alloc, grid, count, &mut parts)?;
    join(alloc, parts.as_slice(), Some(5)).ok()
}

/// Whether so many parts make the table of a grid of five configurations.
fn make_the_table<R: Threads + Sync>(rt: &R, alloc: Global, count: u32) -> bool {
    let Some(grid) = five(alloc) else {
        return false;
    };
    match (
        joined(rt, alloc, &grid, count),
        table(rt, alloc, &grid, None),
    ) {
        (Some(joined), Some(whole)) => joined.as_slice() == whole.as_slice(),
        _ => false,
    }
}

#[test]
fn parts_make_the_table(rt: HostRuntime) {
    parts_make_the_sweep();
    join_of_parts();
    for count in &[1, 2, 5, 7] {
        assert!(rt; make_the_table(&rt, rt.alloc(), *count), "of {count}");
    }
}

/// Whether this is listed of a part of the grid.
fn is_listed(alloc: Global, part: Part, text: &[u8]) -> bool {
    match five(alloc) {
        Some(grid) => matches!(list(alloc, &grid, part), Ok(listed) if listed.as_slice() == text),
        None => false,
    }
}

#[test]
fn a_part_is_listed(rt: HostRuntime) {
    let text =
        b"place,policy,sections,block,edge_blocks,origin_blocks,edges,origins,up,down,back\n1,lru,1,10,2,2,1,1,3,3,10\n4,lru,1,10,5,2,1,1,3,3,10\n";
    assert!(rt; matches!(Part::new(1, 3), Some(part) if is_listed(rt.alloc(), part, text)));
    assert!(rt; Part::new(3, 3).is_none() && Part::new(0, 0).is_none());
    assert!(rt; Part::whole().count == 1);
}

/// Whether joining this text is told so, by the number of bytes or the line of the fault.
fn is_told(alloc: Global, text: Vec<u8>, of: Option<u64>, line: &str) -> bool {
    match join(alloc, slice::from_ref(&text), of) {
        Ok(table) => is_shown(&format_args!("{} bytes", table.len()), line),
        Err(fault) => is_shown(&fault, line),
    }
}

/// The lines of a place, of as many caches as are asked for.
fn lines(text: &mut Vec<u8>, place: &str, count: usize) -> io::Result<()> {
    for caches in ["edges", "origins", "all"].iter().take(count) {
        write!(
            text,
            "{place},lru,8,1,4,4,1,1,3,3,10,{caches},1,2,3,4,5,6,7,8,9,10,11,12,13,14,15,0.500000,1.000000,65536,77,99,6,7,0.001000,0,0,1000,4,95,5\n"
        )?;
    }
    Ok(())
}

/// A part of these lines, each place with so many.
fn part_of(alloc: Global, places: &[(&str, usize)]) -> io::Result<Vec<u8>> {
    let mut text = Vec::from_slice(alloc, HEADER)?;
    for (place, count) in places {
        lines(&mut text, place, *count)?;
    }
    Ok(text)
}

/// Places, each with the number of its lines, how many places are asked for, and what joining a part of these comes to.
static PLACES: [(&[(&str, usize)], Option<u64>, &str); 8] = [
    (&[("1", 3), ("0", 3)], Some(2), "1117 bytes"),
    (&[("0", 3), ("2", 3)], None, "join: place 1: missing"),
    (&[("0", 3)], Some(2), "join: place 1: missing"),
    (
        &[("0", 3), ("1", 3)],
        Some(1),
        "join: place 1: more than are asked for",
    ),
    (
        &[("0", 3), ("1", 3), ("0", 1)],
        None,
        "join: place 0: twice",
    ),
    (
        &[("0", 3), ("1", 2)],
        None,
        "join: place 1: not three lines",
    ),
    (&[("00", 3)], None, "join: file 0 row 0 column 0: number"),
    (&[("65536", 3)], None, "join: file 0 row 0 column 0: number"),
];

/// Whether joining a part of these lines is told so.
fn is_part_told(alloc: Global, places: &[(&str, usize)], of: Option<u64>, line: &str) -> bool {
    match part_of(alloc, places) {
        Ok(text) => is_told(alloc, text, of, line),
        Err(_) => false,
    }
}

#[test]
fn each_fault_of_a_place_has_its_line(rt: HostRuntime) {
    for (places, of, line) in &PLACES {
        assert!(rt; is_part_told(rt.alloc(), places, *of, line), "for {line}");
    }
}

/// Texts, each with the line of its fault.
const FAULTS: [(&[u8], &str); 5] = [
    (b"0,lru,8,1,4,4\n", "join: file 0 row 0: length"),
    (
        b"0,lru,8,1,4,4,1,1,3,3,10,edges,1,2,3,4,5,6,7,8,9,10,11,12,13,14,15,0.500000,1.000000,65536,77,99,6,7,,0,0,0,4,95,5",
        "join: file 0: cut off",
    ),
    (
        b"0,lru,8,1,4,4,1,1,3,3,10,some,1,2,3,4,5,6,7,8,9,10,11,12,13,14,15,0.500000,1.000000,65536,77,99,6,7,,0,0,0,4,95,5\n",
        "join: file 0 row 0 column 11: number",
    ),
    (
        b"0,lru,8,1,4,4,1,1,3,3,10,edges,1,2,3,4,5,6,7,8,9,10,11,12,13,14,15,0.50000,1.000000,65536,77,99,6,7,,0,0,0,4,95,5\n",
        "join: file 0 row 0 column 27: number",
    ),
    (
        b"0,lru,8,1,4,4,1,1,3,3,10,edges,1,2,3,4,5,6,7,8,9,10,11,12,13,14,15,0.500000,1.000000,65536,77,99,6,7,1.5,0,0,0,4,95,5\n",
        "join: file 0 row 0 column 34: number",
    ),
];

/// Whether joining a text of this header and body alone is told so.
fn is_body_told(alloc: Global, header: &[u8], body: &[u8], line: &str) -> bool {
    let mut text = Vec::new(alloc);
    if text.extend_from_slice(header).is_err() || text.extend_from_slice(body).is_err() {
        return false;
    }
    is_told(alloc, text, None, line)
}

#[test]
fn each_fault_of_a_line_has_its_line(rt: HostRuntime) {
    let alloc = rt.alloc();
    for (body, line) in &FAULTS {
        assert!(rt; is_body_told(alloc, HEADER, body, line), "for {line}");
    }
    assert!(rt; is_body_told(alloc, &HEADER[6..], b"", "join: file 0: header"));
}
