// Pictures of tables: the fault of each text that is refused, and pieces of what is drawn.
use crate::shown::is_shown;
use rw_plot::{Caches, Drawing, FlashOf, Measure, PlotFault, escape, plot};
use std::alloc::{AllocError, Global};

/// The header of a sweep.
const HEADER: &[u8] =
    b"policy,sections,block,edge_blocks,origin_blocks,edges,origins,up,down,back,caches,requests,hits,misses,coalesced,late,bypassed,inserted,evicted,reinserted,promoted,writes,splits,merges,hit_bytes,request_bytes,hit_ratio,byte_hit_ratio,flash_bytes,written_bytes,backend_requests,backend_bytes,inserted_bytes,drive_writes_a_day,reclaim,warm_up,ticks_a_second,rows,span,digest\n";

/// The header of a sweep with fewer columns, none of them for the numbers of caches, the delays and the backend's bytes.
const SHORT_HEADER: &[u8] =
    b"policy,sections,block,edge_blocks,origin_blocks,caches,requests,hits,misses,coalesced,late,bypassed,inserted,evicted,reinserted,promoted,writes,splits,merges,hit_bytes,request_bytes,hit_ratio,byte_hit_ratio,flash_bytes,written_bytes,backend_requests\n";

/// The header of a table of one configuration over time.
const TIME_HEADER: &[u8] =
    b"from,to,caches,requests,hits,misses,coalesced,late,bypassed,inserted,evicted,reinserted,promoted,writes,splits,merges,hit_bytes,request_bytes,hit_ratio,byte_hit_ratio,flash_bytes,written_bytes,backend_requests,backend_bytes\n";

/// The header of a sweep's table over time.
const SWEEP_TIME_HEADER: &[u8] =
    b"policy,sections,block,edge_blocks,origin_blocks,edges,origins,up,down,back,from,to,caches,requests,hits,misses,coalesced,late,bypassed,inserted,evicted,reinserted,promoted,writes,splits,merges,hit_bytes,request_bytes,hit_ratio,byte_hit_ratio,flash_bytes,written_bytes,backend_requests,backend_bytes,inserted_bytes\n";

/// A body behind a header.
fn behind(alloc: Global, header: &[u8], body: &[u8]) -> Result<Vec<u8>, AllocError> {
    let mut text = Vec::from_slice(alloc, header)?;
    text.extend_from_slice(body)?;
    Ok(text)
}

/// What the tables are called.
const NAME: &str = "a&b.csv";

/// A drawing of a measure, of the caches and the flash that are drawn by default, at a thousand ticks a second.
fn drawing_of(measure: Measure) -> Drawing {
    Drawing {
        measure,
        caches: None,
        x: None,
        ticks_a_second: 1000,
    }
}

/// Whether a text is not drawn, with this line.
fn is_refused(alloc: Global, text: &[u8], line: &str) -> bool {
    matches!(plot(alloc, NAME, text, drawing_of(Measure::HitRatio)), Err(fault) if is_shown(&fault, line))
}

/// Whether a body behind a header is not drawn, with this line.
fn is_body_refused(alloc: Global, header: &[u8], body: &[u8], line: &str) -> bool {
    matches!(behind(alloc, header, body), Ok(text) if is_refused(alloc, text.as_slice(), line))
}

/// Bodies behind the header of a sweep, each with the line of its fault.
const FAULTS: [(&[u8], &str); 10] = [
    (b"", "sweep: nothing to plot"),
    (b"a,8\n", "sweep: row 0: length"),
    (
        b"a,8,1,4,4,2,1,5,5,9,edges,1,2,3,4,5,6,7,8,9,10,11,12,13,14,15,0.500000,1.000000,65536,77,99,400,300,0.100000,false,0,1000,13,2000,0\n",
        "sweep: nothing to plot",
    ),
    (
        b"a,8,1,4,4,2,1,5,5,9,some,1,2,3,4,5,6,7,8,9,10,11,12,13,14,15,0.500000,1.000000,65536,77,99,400,300,0.100000,false,0,1000,13,2000,0\n",
        "sweep: row 0: caches",
    ),
    (
        b"a,8,x,4,4,2,1,5,5,9,some,1,2,3,4,5,6,7,8,9,10,11,12,13,14,15,0.500000,1.000000,65536,77,99,400,300,0.100000,false,0,1000,13,2000,0\n",
        "sweep: row 0 column 2: number",
    ),
    (
        b"a,8,1,4,4,2,1,5,5,9,all,1,2,3,4,5,6,7,8,9,10,11,12,13,14,15,0.50000,1.000000,65536,77,99,400,300,0.100000,false,0,1000,13,2000,0\n",
        "sweep: row 0 column 26: number",
    ),
    (
        b"a,8,1,4,4,2,1,5,5,9,all,1,2,3,4,5,6,7,8,9,10,11,12,13,14,15,0.500000,1.000001,65536,77,99,400,300,0.100000,false,0,1000,13,2000,0\n",
        "sweep: row 0 column 27: number",
    ),
    (
        b"a,8,1,4,4,2,1,5,5,9,all,1,2,3,4,5,6,7,8,9,10,11,12,13,14,15,0.500000,1.000000,0,77,99,400,300,0.100000,false,0,1000,13,2000,0\n",
        "sweep: row 0 column 28: number",
    ),
    (
        b"a,8,1,4,4,2,1,5,5,9,all,1,2,3,4,5,6,7,8,9,10,11,12,13,14,15,0.500000,1.000000,1,77,99,400,300,0.100000,false,0,1000,13,2000,0\na,8,1,4,4,2,1,5,5,9,all,1,2,3,4,5,6,7,8,9,10,11,12,13,14,x,0.500000,1.000000,1,18446744073709551616,99,400,300,0.100000,false,0,1000,13,2000,0\n",
        "sweep: row 1 column 29: number",
    ),
    (
        b"a,8,1,4,4,2,1,5,5,9,edges,1,2,3,4,5,6,7,8,9,10,11,12,13,14,15,0.500000,1.000000,1,77,99,400,300,0.100000,false,0,1000,13,2000,0\na,8,1,4,4,,1,2\n",
        "sweep: row 1: length",
    ),
];

#[test]
fn each_fault_has_its_line(rt: HostRuntime) {
    for (body, line) in &FAULTS {
        assert!(rt;
            is_body_refused(rt.alloc(), HEADER, body, line),
            "for {line}"
        );
    }
}

/// Bodies behind the header of a table of one configuration over time, each with the line of its fault.
const TIME_FAULTS: [(&[u8], &str); 8] = [
    (b"", "sweep: nothing to plot"),
    (b"0,2000,all,10\n", "sweep: row 0: length"),
    (
        b"0,2000,all,10,6,4,1,0,0,3,0,0,0,2,0,0,600,1000,0.600000,0.600000,4096,2048,1,90\n9,9,all,10,6,4,1,0,0,3,0,0,0,2,0,0,600,1000,0.600000,0.600000,4096,2048,1,90\n",
        "sweep: row 1 column 1: number",
    ),
    (
        b"-1,2000,none,10,6,4,1,0,0,3,0,0,0,2,0,0,600,1000,0.600000,0.600000,4096,2048,1,90\n",
        "sweep: row 0 column 0: number",
    ),
    (
        b"0,2000,none,10,6,4,1,0,0,3,0,0,0,2,0,0,x,1000,0.600000,0.600000,4096,2048,1,90\n",
        "sweep: row 0: caches",
    ),
    (
        b"0,2000,all,10,6,4,1,0,0,3,0,0,0,2,0,0,x,1000,0.600000,0.600000,0,2048,1,90\n",
        "sweep: row 0 column 20: number",
    ),
    (
        b"0,2000,all,10,6,4,1,0,0,3,0,0,0,2,0,0,600,1000,1.000001,0.600000,4096,2048,1,90\n",
        "sweep: row 0 column 18: number",
    ),
    (
        b"0,2000,all,10,6,4,1,0,0,3,0,0,0,2,0,0,600,1000,0.600000,0.600000,4096,2048,1,18446744073709551616\n",
        "sweep: row 0 column 23: number",
    ),
];

/// Bodies behind the header of a sweep's table over time, each with the line of its fault.
const SWEEP_TIME_FAULTS: [(&[u8], &str); 5] = [
    (
        b"lru,8,1024,4,6,2,1,5,5,9,0,2000,edges,10,6,4,1,0,0,3,0,0,0,2,0,0,600,1000,0.600000,0.600000,4096,2048,0,0,300\n",
        "sweep: nothing to plot",
    ),
    (
        b"lru,8,1024,x,6,2,1,5,5,9,5,4,all,10,6,4,1,0,0,3,0,0,0,2,0,0,600,1000,0.600000,0.600000,4096,2048,0,0,300\n",
        "sweep: row 0 column 3: number",
    ),
    (
        b"lru,8,1024,4,6,2,1,5,5,9,5,4,all,10,6,4,1,0,0,3,0,0,0,2,0,0,600,1000,0.600000,0.600000,4096,2048,0,0,300\n",
        "sweep: row 0 column 11: number",
    ),
    (
        b"lru,8,1024,4,6,2,1,5,5,9,0,2000,all,10,6,4,1,0,0,3,0,0,0,2,0,0,600,1000,0.600000,0.60000,4096,2048,0,0,300\n",
        "sweep: row 0 column 29: number",
    ),
    (
        b"lru,8,1024,4,6,2,1,5,5,9,0,2000,all,10,6,4,1,0,0,3,0,0,0,2,0,0,600,1000,0.600000,0.600000,4096,2048,0,,300\n",
        "sweep: row 0 column 33: number",
    ),
];

#[test]
fn each_fault_over_time_has_its_line(rt: HostRuntime) {
    for (body, line) in &TIME_FAULTS {
        assert!(rt;
            is_body_refused(rt.alloc(), TIME_HEADER, body, line),
            "for {line}"
        );
    }
    for (body, line) in &SWEEP_TIME_FAULTS {
        assert!(rt;
            is_body_refused(rt.alloc(), SWEEP_TIME_HEADER, body, line),
            "for {line}"
        );
    }
}

#[test]
fn a_table_may_lack_the_bytes_of_the_backend(rt: HostRuntime) {
    let drawing = drawing_of(Measure::BackendBytes);
    let answer = plot(rt.alloc(), NAME, SHORT_HEADER, drawing);
    assert!(rt; matches!(answer, Err(PlotFault::NoBackendBytes)));
    assert!(rt; is_shown(&PlotFault::NoBackendBytes, "sweep: no column backend_bytes"));
}

#[test]
fn another_header_is_refused(rt: HostRuntime) {
    let alloc = rt.alloc();
    assert!(rt; is_refused(alloc, b"", "sweep: header"));
    assert!(rt; is_refused(alloc, b"policy,sections\n", "sweep: header"));
    assert!(rt; is_refused(alloc, NO_SIZES, "sweep: header"));
    assert!(rt; is_refused(alloc, NO_CACHES, "sweep: header"));
    assert!(rt; is_refused(alloc, NEITHER, "sweep: header"));
}

/// The header of a table over time with a policy, but without the sizes that belong to it.
const NO_SIZES: &[u8] =
    b"policy,from,to,caches,hit_ratio,byte_hit_ratio,flash_bytes,written_bytes,backend_requests\n";

/// The header of a table over time without a column that says of which caches its rows tell.
const NO_CACHES: &[u8] =
    b"from,to,hit_ratio,byte_hit_ratio,flash_bytes,written_bytes,backend_requests\n";

/// A header with neither policies nor intervals.
const NEITHER: &[u8] =
    b"caches,hit_ratio,byte_hit_ratio,flash_bytes,written_bytes,backend_requests\n";

/// What is drawn of a body behind a header, as text.
fn drawn(alloc: Global, header: &[u8], body: &[u8], drawing: Drawing) -> Option<String> {
    let text = behind(alloc, header, body).ok()?;
    let picture = plot(alloc, NAME, text.as_slice(), drawing).ok()?;
    String::from_utf8(picture).ok()
}

/// Whether this piece is in what is drawn of a body behind a header.
fn is_drawn(alloc: Global, header: &[u8], body: &[u8], drawing: Drawing, piece: &str) -> bool {
    matches!(drawn(alloc, header, body, drawing), Some(picture) if picture.as_str().contains(piece))
}

/// A point.
const POINT: &[u8] =
    b"a<b,8,1024,4,6,2,1,5,5,9,all,1,2,3,4,5,6,7,8,9,10,11,12,13,14,15,0.500000,1.000000,65536,20480,1500000,400,300,0.100000,false,0,1000,13,2000,0\n";

/// What is drawn of it, by what is measured.
const PIECES: [(Measure, &str); 7] = [
    (
        Measure::HitRatio,
        "a&lt;b: Hit ratio 0.500000; flash of all caches 64 KiB (65536 bytes); 8 sections",
    ),
    (Measure::HitRatio, ">64 KiB</text>"),
    (
        Measure::HitRatio,
        "<title>Hit ratio by flash size, all caches: a&amp;b.csv</title>",
    ),
    (Measure::BackendRequests, ">1.4 M</text>"),
    (Measure::FlashWrites, ">20 KiB</text>"),
    (
        Measure::BackendBytes,
        "a&lt;b: Backend bytes 400 bytes; flash of all caches 64 KiB (65536 bytes); 8 sections",
    ),
    (
        Measure::HitRatio,
        "4 edge blocks, 6 origin blocks, 2 edges, 1 origins, up 5 ticks, down 5 ticks, back 9 ticks</title>",
    ),
];

#[test]
fn a_point_has_its_numbers(rt: HostRuntime) {
    for (measure, piece) in &PIECES {
        assert!(rt;
            is_drawn(rt.alloc(), HEADER, POINT, drawing_of(*measure), piece),
            "for {piece}"
        );
    }
}

/// The same point, of a sweep with fewer columns.
const SHORT_POINT: &[u8] =
    b"a<b,8,1024,4,6,all,1,2,3,4,5,6,7,8,9,10,11,12,13,14,15,0.500000,1.000000,65536,20480,1500000\n";

/// What is drawn of it, by what is measured.
const SHORT_PIECES: [(Measure, &str); 2] = [
    (
        Measure::HitRatio,
        "a&lt;b: Hit ratio 0.500000; flash of all caches 64 KiB (65536 bytes); 8 sections, blocks of 1024 bytes, 4 edge blocks, 6 origin blocks</title>",
    ),
    (Measure::BackendRequests, ">1.4 M</text>"),
];

#[test]
fn a_sweep_of_fewer_columns_is_drawn(rt: HostRuntime) {
    for (measure, piece) in &SHORT_PIECES {
        assert!(rt;
            is_drawn(
                rt.alloc(),
                SHORT_HEADER,
                SHORT_POINT,
                drawing_of(*measure),
                piece
            ),
            "for {piece}"
        );
    }
}

/// The columns that each table of a sweep has, from the right, with one that is not drawn, and one that stands there twice.
const FROM_THE_RIGHT: &[u8] =
    b"backend_requests,written_bytes,flash_bytes,byte_hit_ratio,hit_ratio,hit_ratio,note,caches,origin_blocks,edge_blocks,block,sections,policy\n";

#[test]
fn columns_are_found_by_their_names(rt: HostRuntime) {
    let alloc = rt.alloc();
    let body = b"1,2048,65536,0.250000,0.500000,0.750000,any text,all,6,4,1024,8,lru\n";
    let hits = "lru: Hit ratio 0.500000; flash of all caches 64 KiB";
    assert!(rt;
        is_drawn(
            alloc,
            FROM_THE_RIGHT,
            body,
            drawing_of(Measure::HitRatio),
            hits
        )
    );
    let bytes = "lru: Byte hit ratio 0.250000; flash of all caches 64 KiB";
    assert!(rt;
        is_drawn(
            alloc,
            FROM_THE_RIGHT,
            body,
            drawing_of(Measure::ByteHitRatio),
            bytes
        )
    );
    let wrong = b"1,2048,65536,0.250000,0.500000,0.750000,any text,all,6,-4,1024,8,lru\n";
    let line = "sweep: row 0 column 9: number";
    assert!(rt; is_body_refused(alloc, FROM_THE_RIGHT, wrong, line));
}

/// Two seconds of one configuration, at a thousand ticks a second.
const SECONDS: &[u8] =
    b"0,2000,edges,10,6,4,1,0,0,3,0,0,0,2,0,0,600,1000,0.600000,0.600000,4096,2048,0,0\n0,2000,origins,3,0,3,0,0,0,3,0,0,0,1,0,0,0,400,0.000000,0.000000,4096,1024,3,400\n0,2000,all,13,6,7,1,0,0,6,0,0,0,3,0,0,600,1400,0.461538,0.428571,8192,3072,3,400\n";

/// What is drawn of them, by what is measured.
const TIME_PIECES: [(Measure, &str); 8] = [
    (
        Measure::HitRatio,
        "<title>Hit ratio over time: a&amp;b.csv</title>",
    ),
    (
        Measure::HitRatio,
        "edge caches: Hit ratio 0.600000; from tick 0 to 2000</title>",
    ),
    (Measure::HitRatio, ">origin caches</text>"),
    (
        Measure::ByteHitRatio,
        "all caches: Byte hit ratio 0.428571;",
    ),
    (Measure::HitRatio, ">Time (seconds)</text>"),
    (
        Measure::FlashWrites,
        "all caches: Bytes written to flash per second 1536 bytes;",
    ),
    (
        Measure::BackendRequests,
        "origin caches: Backend requests per second 1.5;",
    ),
    (
        Measure::BackendBytes,
        "all caches: Backend bytes per second 200 bytes;",
    ),
];

#[test]
fn intervals_have_their_rates(rt: HostRuntime) {
    for (measure, piece) in &TIME_PIECES {
        assert!(rt;
            is_drawn(
                rt.alloc(),
                TIME_HEADER,
                SECONDS,
                drawing_of(*measure),
                piece
            ),
            "for {piece}"
        );
    }
}

/// What is drawn of the flash of the edges alone, at so many ticks a second.
fn edges_at(ticks_a_second: u32) -> Drawing {
    Drawing {
        measure: Measure::FlashWrites,
        caches: Some(Caches::Edges),
        x: None,
        ticks_a_second,
    }
}

/// What is drawn of the flash of the edges, by the ticks of a second: of 2048 bytes in 2000 ticks.
const EDGE_PIECES: [(u32, &str); 4] = [
    (
        1,
        "<title>Bytes written to flash per second over time, edge caches: a&amp;b.csv</title>",
    ),
    (1, "edge caches: Bytes written to flash per second 1 bytes;"),
    (1, ">Time (minutes)</text>"),
    (
        1_000_000_000,
        "edge caches: Bytes written to flash per second 1024000000 bytes;",
    ),
];

#[test]
fn the_ticks_of_a_second_are_told(rt: HostRuntime) {
    for (ticks_a_second, piece) in &EDGE_PIECES {
        let drawing = edges_at(*ticks_a_second);
        assert!(rt;
            is_drawn(rt.alloc(), TIME_HEADER, SECONDS, drawing, piece),
            "for {piece}"
        );
    }
    assert!(rt;
        !is_drawn(
            rt.alloc(),
            TIME_HEADER,
            SECONDS,
            edges_at(1),
            "origin caches"
        )
    );
}

/// Two configurations of a sweep over a day, at a thousand ticks a second.
const DAY: &[u8] =
    b"lru,8,1024,4,6,2,1,5,5,9,0,86400000,all,10,6,4,1,0,0,3,0,0,0,2,0,0,600,1000,0.600000,0.600000,4096,2048,4,400,300\nlru,8,1024,8,6,2,1,5,5,9,0,86400000,all,10,7,3,1,0,0,3,0,0,0,2,0,0,700,1000,0.700000,0.700000,4096,2048,3,300,300\n";

/// What is drawn of their hit ratios.
const DAY_PIECES: [&str; 4] = [
    "<title>Hit ratio over time, all caches: a&amp;b.csv</title>",
    ">lru, 4 edge blocks</text>",
    "lru, 8 edge blocks: Hit ratio 0.700000; from tick 0 to 86400000; 8 sections, blocks of 1024 bytes, 8 edge blocks, 6 origin blocks, 2 edges, 1 origins, up 5 ticks, down 5 ticks, back 9 ticks</title>",
    ">Time (hours)</text>",
];

#[test]
fn configurations_have_lines_of_their_own(rt: HostRuntime) {
    for piece in &DAY_PIECES {
        let drawing = drawing_of(Measure::HitRatio);
        assert!(rt;
            is_drawn(rt.alloc(), SWEEP_TIME_HEADER, DAY, drawing, piece),
            "for {piece}"
        );
    }
}

/// A sweep of two sizes of the edges' flash and two of the origins', at two edges and one origin. Its rows are out of order.
const GRID: &[u8] =
    b"lru,8,1024,8,16,2,1,5,5,9,all,10,7,3,1,0,0,3,0,0,0,2,0,0,700,1000,0.700000,0.700000,32768,2048,2,400,300,0.100000,false,0,1000,13,2000,0\nlru,8,1024,4,32,2,1,5,5,9,all,10,6,4,1,0,0,3,0,0,0,2,0,0,600,1000,0.600000,0.600000,40960,2048,3,400,300,0.100000,false,0,1000,13,2000,0\nlru,8,1024,4,16,2,1,5,5,9,all,10,5,5,1,0,0,3,0,0,0,2,0,0,500,1000,0.500000,0.500000,24576,2048,4,400,300,0.100000,false,0,1000,13,2000,0\nlru,8,1024,8,32,2,1,5,5,9,all,10,8,2,1,0,0,3,0,0,0,2,0,0,800,1000,0.800000,0.800000,49152,2048,1,400,300,0.100000,false,0,1000,13,2000,0\n";

/// Rows of the grid whose origins have one size.
const ONE_ORIGIN: &[u8] =
    b"lru,8,1024,8,16,2,1,5,5,9,all,10,7,3,1,0,0,3,0,0,0,2,0,0,700,1000,0.700000,0.700000,32768,2048,2,400,300,0.100000,false,0,1000,13,2000,0\nlru,8,1024,4,16,2,1,5,5,9,all,10,5,5,1,0,0,3,0,0,0,2,0,0,500,1000,0.500000,0.500000,24576,2048,4,400,300,0.100000,false,0,1000,13,2000,0\n";

/// Hit ratios over some flash.
fn hits_over(x: Option<FlashOf>) -> Drawing {
    Drawing {
        measure: Measure::HitRatio,
        caches: None,
        x,
        ticks_a_second: 1000,
    }
}

/// What is drawn of the grid: with the edges' flash on the axis, also by default, lines of one size of the origins' each; and the
/// other way round.
const GRID_PIECES: [(Option<FlashOf>, &str); 11] = [
    (None, ">Flash of an edge (log scale)</text>"),
    (None, ">lru, 16 origin blocks</text>"),
    (
        Some(FlashOf::Edge),
        "<polyline class=\"line\" points=\"96.00,261.50 928.00,156.50 \"/>",
    ),
    (
        Some(FlashOf::Edge),
        "<polyline class=\"line\" points=\"96.00,209.00 928.00,104.00 \"/>",
    ),
    (
        Some(FlashOf::Edge),
        "; flash of an edge 8 KiB (8192 bytes); 8 sections",
    ),
    (
        Some(FlashOf::Origin),
        ">Flash of an origin (log scale)</text>",
    ),
    (Some(FlashOf::Origin), ">lru, 4 edge blocks</text>"),
    (
        Some(FlashOf::Origin),
        "<polyline class=\"line\" points=\"96.00,261.50 928.00,209.00 \"/>",
    ),
    (
        Some(FlashOf::Origin),
        "<polyline class=\"line\" points=\"96.00,156.50 928.00,104.00 \"/>",
    ),
    (
        Some(FlashOf::Total),
        ">Flash of all caches (log scale)</text>",
    ),
    (Some(FlashOf::Total), ">lru, 32 origin blocks</text>"),
];

#[test]
fn a_line_joins_rows_that_differ_in_one_size_alone(rt: HostRuntime) {
    for (x, piece) in &GRID_PIECES {
        assert!(rt;
            is_drawn(rt.alloc(), HEADER, GRID, hits_over(*x), piece),
            "for {piece}"
        );
    }
}

/// A sweep of two numbers of edges and two sizes of their flash.
const EDGES: &[u8] =
    b"lru,8,1024,4,16,2,1,5,5,9,all,10,5,5,1,0,0,3,0,0,0,2,0,0,500,1000,0.500000,0.500000,24576,2048,4,400,300,0.100000,false,0,1000,13,2000,0\nlru,8,1024,4,16,3,1,5,5,9,all,10,5,5,1,0,0,3,0,0,0,2,0,0,500,1000,0.600000,0.500000,24576,2048,4,400,300,0.100000,false,0,1000,13,2000,0\nlru,8,1024,8,16,2,1,5,5,9,all,10,5,5,1,0,0,3,0,0,0,2,0,0,500,1000,0.700000,0.500000,24576,2048,4,400,300,0.100000,false,0,1000,13,2000,0\nlru,8,1024,8,16,3,1,5,5,9,all,10,5,5,1,0,0,3,0,0,0,2,0,0,500,1000,0.800000,0.500000,24576,2048,4,400,300,0.100000,false,0,1000,13,2000,0\n";

/// A sweep of two delays from the origins to the backend and back.
const DELAYS: &[u8] =
    b"lru,8,1024,4,16,2,1,5,5,9,all,10,5,5,1,0,0,3,0,0,0,2,0,0,500,1000,0.500000,0.500000,24576,2048,4,400,300,0.100000,false,0,1000,13,2000,0\nlru,8,1024,4,16,2,1,5,5,7,all,10,5,5,1,0,0,3,0,0,0,2,0,0,500,1000,0.600000,0.500000,24576,2048,4,400,300,0.100000,false,0,1000,13,2000,0\n";

#[test]
fn a_line_keeps_the_numbers_of_caches_and_the_delays(rt: HostRuntime) {
    let alloc = rt.alloc();
    let x = hits_over(Some(FlashOf::Edge));
    assert!(rt; is_drawn(alloc, HEADER, EDGES, x, ">lru, 2 edges</text>"));
    assert!(rt; is_drawn(alloc, HEADER, EDGES, x, ">lru, 3 edges</text>"));
    let line = "<polyline class=\"line\" points=\"96.00,261.50 928.00,156.50 \"/>";
    assert!(rt; is_drawn(alloc, HEADER, EDGES, x, line));
    assert!(rt; is_drawn(alloc, HEADER, DELAYS, x, ">lru, back 7 ticks</text>"));
    assert!(rt; is_drawn(alloc, HEADER, DELAYS, x, ">lru, back 9 ticks</text>"));
}

#[test]
fn one_size_that_varies_needs_no_names(rt: HostRuntime) {
    let alloc = rt.alloc();
    let label = ">Flash of all caches (log scale)</text>";
    assert!(rt; is_drawn(alloc, HEADER, ONE_ORIGIN, hits_over(None), label));
    assert!(rt; is_drawn(alloc, HEADER, ONE_ORIGIN, hits_over(None), ">lru</text>"));
}

#[test]
fn time_leaves_no_axis_to_the_flash(rt: HostRuntime) {
    let alloc = rt.alloc();
    let line = "sweep: --x: expected a table by flash size, found one over time; leave --x out";
    for x in [FlashOf::Edge, FlashOf::Origin, FlashOf::Total] {
        let answer = plot(alloc, NAME, TIME_HEADER, hits_over(Some(x)));
        assert!(rt; matches!(answer, Err(fault) if is_shown(&fault, line)));
    }
}

/// Two policies under two numbers of sections.
const LOOKS: &[u8] =
    b"lru,4,1024,4,16,2,1,5,5,9,all,10,5,5,1,0,0,3,0,0,0,2,0,0,500,1000,0.500000,0.500000,24576,2048,4,400,300,0.100000,false,0,1000,13,2000,0\nlru,8,1024,4,16,2,1,5,5,9,all,10,5,5,1,0,0,3,0,0,0,2,0,0,500,1000,0.600000,0.500000,24576,2048,4,400,300,0.100000,false,0,1000,13,2000,0\nslru3,4,1024,4,16,2,1,5,5,9,all,10,5,5,1,0,0,3,0,0,0,2,0,0,500,1000,0.700000,0.500000,24576,2048,4,400,300,0.100000,false,0,1000,13,2000,0\nslru3,8,1024,4,16,2,1,5,5,9,all,10,5,5,1,0,0,3,0,0,0,2,0,0,500,1000,0.800000,0.500000,24576,2048,4,400,300,0.100000,false,0,1000,13,2000,0\n";

/// How their lines look, in the legend.
const LOOK_PIECES: [&str; 4] = [
    "<g class=\"colour0 dashes0\"><title>lru, 4 sections</title>",
    "<g class=\"colour0 dashes1\"><title>lru, 8 sections</title>",
    "<g class=\"colour1 dashes0\"><title>slru3, 4 sections</title>",
    "<g class=\"colour1 dashes1\"><title>slru3, 8 sections</title>",
];

#[test]
fn colours_tell_policies(rt: HostRuntime) {
    for piece in &LOOK_PIECES {
        assert!(rt;
            is_drawn(rt.alloc(), HEADER, LOOKS, hits_over(None), piece),
            "for {piece}"
        );
    }
}

/// Whether a text is escaped so.
fn is_escaped(alloc: Global, text: &[u8], escaped: &[u8]) -> bool {
    matches!(escape(alloc, text), Ok(answer) if answer.as_slice() == escaped)
}

#[test]
fn marks_are_escaped(rt: HostRuntime) {
    let escaped = b"&lt;a href=&quot;x&quot;&gt;&amp;&apos;";
    assert!(rt; is_escaped(rt.alloc(), b"<a href=\"x\">&'", escaped));
}
