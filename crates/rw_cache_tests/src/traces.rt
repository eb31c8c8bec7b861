// Traces: what is read from their bytes, and the fault of each that is refused.
use rw_trace::{Kind, MAX_ROWS, Row, TraceFault, read, read_up_to};
use std::alloc::Global;
use std::test::Fail;

/// The text of what is read: what each row holds, a purge's with its kind, or the fault's line.
fn told(alloc: Global, answer: &Result<Vec<Row>, TraceFault>) -> Result<String, Fail> {
    let mut text = String::new(alloc);
    match answer {
        Ok(rows) => {
            for row in rows {
                let end = match row.kind {
                    Kind::Get => ";",
                    Kind::Purge => " purge;",
                };
                let Row {
                    time,
                    edge,
                    object,
                    size,
                    ..
                } = *row;
                write!(text, "{time} {edge} {object} {size}{end}")?;
            }
        }
        Err(fault) => write!(text, "{fault}")?,
    }
    Ok(text)
}

/// Whether this is what is read from a trace of one edge.
fn is_read(alloc: Global, bytes: &[u8], want: &str) -> Result<bool, Fail> {
    let text = told(alloc, &read(alloc, bytes, 1))?;
    Ok(text.as_str() == want)
}

/// Whether this is what is read from a body behind the header, with one edge and at most `most` rows.
fn is_body(alloc: Global, body: &[u8], most: u64, want: &str) -> Result<bool, Fail> {
    let mut bytes = Vec::from_slice(alloc, b"time,edge,object,size\n")?;
    bytes.extend_from_slice(body)?;
    let answer = read_up_to(alloc, bytes.as_slice(), 1, most.min(MAX_ROWS));
    let text = told(alloc, &answer)?;
    Ok(text.as_str() == want)
}

/// Bodies behind the header, each with what is read.
const BODIES: [(&[u8], &str); 24] = [
    (b"", ""),
    (b"5,0,7,4\n", "5 0 7 4;"),
    (b"5,0,7\n", "trace: row 0: length"),
    (b"549755813888,0,7,4\n", "549755813888 0 7 4;"),
    (b"549755813889,0,7,4\n", "trace: row 0: time"),
    (b"5,0,7,0\n", "trace: row 0: size"),
    (b"5,1,7,4\n", "trace: row 0: edge"),
    (b"5,x,7,0\n", "trace: row 0 column 1: number"),
    (
        b"\"5\",0,7,4\n00005,0,18446744073709551615,4294967295\n",
        "5 0 7 4;5 0 18446744073709551615 4294967295;",
    ),
    (
        b"\"5\",0,7,4\n00005,0,18446744073709551615,4294967295",
        "5 0 7 4;5 0 18446744073709551615 4294967295;",
    ),
    (
        b"5,0,18446744073709551616,4\n",
        "trace: row 0 column 2: number",
    ),
    (
        b"000000000000000000005,0,7,4\n",
        "trace: row 0 column 0: number",
    ),
    (b"00000000000000000005,0,7,4\n", "5 0 7 4;"),
    (b" 5,0,7,4\n", "trace: row 0 column 0: number"),
    (b"+5,0,7,4\n", "trace: row 0 column 0: number"),
    (b"5,,7,4\n", "trace: row 0 column 1: number"),
    (b"5,0,7,\xff\n", "trace: row 0 column 3: number"),
    (b"549755813889,9,x,0\n", "trace: row 0: time"),
    (b"5,0,7,4,9\n", "trace: row 0: length"),
    (b"5,0,7,4\n5,9,7,4\nx\n", "trace: row 1: edge"),
    (b"5,0,7,4294967296\n", "trace: row 0: size"),
    (b"5,0,7,4\r\n\r\n\n6,0,8,1\r", "5 0 7 4;6 0 8 1;"),
    (
        b"5,0,99999999999999999999,4\n",
        "trace: row 0 column 2: number",
    ),
    (b"5,0,7,4\n\"\"\n", "trace: row 1: length"),
];

#[test]
fn a_body_gives_its_rows_or_its_first_fault(rt: HostRuntime) -> Result<(), Fail> {
    for (row, (body, want)) in BODIES.iter().enumerate() {
        assert!(rt; is_body(rt.alloc(), body, MAX_ROWS, want)?, "row {row}");
    }
    Ok(())
}

/// Whole traces, whose headers are looked at.
const HEADERS: [(&[u8], &str); 10] = [
    (b"", "trace: header"),
    (b"Time,edge,object,size\n", "trace: header"),
    (b"time,edge,object\n", "trace: header"),
    (b"time,edge,object,size,kind\n", ""),
    (b"time,edge,object,size,Kind\n", "trace: header"),
    (b"time,edge,object,kind,size\n", "trace: header"),
    (b"time,edge,object,size,\n", "trace: header"),
    (b"time,edge,object,size,kind,kind\n", "trace: header"),
    (b"\xef\xbb\xbftime,edge,object,size", ""),
    (b"\n\n\"time\",edge,object,size\n1,0,2,3", "1 0 2 3;"),
];

#[test]
fn a_header_is_its_four_words_or_five(rt: HostRuntime) -> Result<(), Fail> {
    for (row, (bytes, want)) in HEADERS.iter().enumerate() {
        assert!(rt; is_read(rt.alloc(), bytes, want)?, "row {row}");
    }
    Ok(())
}

/// Whole traces of both versions, with gets and purges.
const KINDS: [(&[u8], &str); 12] = [
    (
        b"time,edge,object,size,kind\n5,0,7,4,get\n40,0,7,9,purge\n6,0,8,1,\"purge\"\n",
        "5 0 7 4;40 0 7 9 purge;6 0 8 1 purge;",
    ),
    (b"time,edge,object,size\n5,0,7,4\n", "5 0 7 4;"),
    (
        b"time,edge,object,size,kind\n5,0,7,4\n",
        "trace: row 0: length",
    ),
    (
        b"time,edge,object,size,kind\n5,0,7,4,put\n",
        "trace: row 0: kind",
    ),
    (
        b"time,edge,object,size,kind\n5,0,7,0,put\n",
        "trace: row 0: size",
    ),
    (
        b"time,edge,object,size\n5,0,7,4,get\n",
        "trace: row 0: length",
    ),
    (
        b"time,edge,object,size,kind\n5,0,7,4,get,get\n",
        "trace: row 0: length",
    ),
    (
        b"time,edge,object,size,kind\n5,0,7,4,get\n5,0,7,4,Get\n",
        "trace: row 1: kind",
    ),
    (
        b"time,edge,object,size,kind\n5,0,7,4, purge\n",
        "trace: row 0: kind",
    ),
    (
        b"time,edge,object,size,kind\n5,0,7,4,\n",
        "trace: row 0: kind",
    ),
    (
        b"time,edge,object,size,kind\n5,0,7,4294967296,purge\n",
        "trace: row 0: size",
    ),
    (
        b"time,edge,object,size,kind\n5,0,7,x,put\n",
        "trace: row 0 column 3: number",
    ),
];

#[test]
fn a_row_is_a_get_or_a_purge(rt: HostRuntime) -> Result<(), Fail> {
    for (row, (bytes, want)) in KINDS.iter().enumerate() {
        assert!(rt; is_read(rt.alloc(), bytes, want)?, "row {row}");
    }
    Ok(())
}

/// Bodies behind the header, each with the most rows that are taken and with what is read.
const LIMITS: [(&[u8], u64, &str); 7] = [
    (b"5,0,7,4\n6,0,7,4\n", 2, "5 0 7 4;6 0 7 4;"),
    (b"5,0,7,4\n6,0,7,4\n7,0,7,4\n", 2, "trace: too many rows"),
    (b"5,0,7,4\n6,0,7,4\nx\n", 2, "trace: too many rows"),
    (b"5,0,7,4\n6,9,7,4\n7,0,7,4\n", 2, "trace: row 1: edge"),
    (b"", 0, ""),
    (b"x", 0, "trace: too many rows"),
    (b"5,0,7,4", 1, "5 0 7 4;"),
];

#[test]
fn one_row_too_many_is_told(rt: HostRuntime) -> Result<(), Fail> {
    for (row, (body, most, want)) in LIMITS.iter().enumerate() {
        assert!(rt; is_body(rt.alloc(), body, *most, want)?, "row {row}");
    }
    Ok(())
}

#[test]
fn memory_is_told(rt: HostRuntime) -> Result<(), Fail> {
    let text = told(rt.alloc(), &Err(TraceFault::Memory))?;
    assert_eq!(rt; text.as_str(), "memory");
    Ok(())
}
