// Imports: the trace of a log, what is counted as left out, and the line of each fault.
use crate::pipe::{Hiccup, Pipe};
use crate::shown::is_shown;
use rw_import::{
    Column, Counts, Dealing, Format, ImportFault, Imported, Layout, LeftOut, Options, Quotes,
    Streaming, format_of, import_csv, import_oracle, open_log, stream_csv, stream_oracle,
};
use rw_progress::Silent;
use rw_ripqwarp::Out;
use std::alloc::{AllocError, Global};
use std::fmt::Write as _;
use std::hash::RandomState;
use std::io;
use std::io::{ErrorKind, Read};
use std::random::RandomSource;

/// Four records, each of a time, an object, a size and a number that says nothing: good, of no size and the earliest time, good,
/// and cut off.
const FOUR: &[u8] = b"\
\x0a\x00\x00\x00\x07\x00\x00\x00\x00\x00\x00\x00\x64\x00\x00\x00\xff\xff\xff\xff\xff\xff\xff\xff\
\x09\x00\x00\x00\x2c\x01\x00\x00\x00\x00\x00\x00\x00\x00\x00\x00\xff\xff\xff\xff\xff\xff\xff\xff\
\x0c\x00\x00\x00\x07\x00\x00\x00\x00\x00\x00\x00\x32\x00\x00\x00\xff\xff\xff\xff\xff\xff\xff\xff\
\x0d\x00\x00\x00\x07";

/// 1000 ticks a unit and two edges in turn; any number of rows may be left out, but not all.
fn options(strict: bool) -> Option<Options> {
    Options::new(1000, 2, Dealing::ByRow, strict)?.with_max_left_out(100)
}

/// The log imported with these options.
fn imported(alloc: Global, log: &[u8], strict: bool) -> Option<Result<Imported, ImportFault>> {
    Some(import_oracle(alloc, log, &options(strict)?, &mut Silent))
}

/// Whether an import keeps so many rows, of this text, and leaves out so many for their length, time, edge, object, size and
/// kind.
fn is_kept(
    answer: Option<Result<Imported, ImportFault>>,
    (text, kept): (&[u8], u64),
    left_out: [u64; 6],
) -> bool {
    let Some(Ok(imported)) = answer else {
        return false;
    };
    imported.text.as_slice() == text
        && imported.kept == kept
        && by_cause(imported.left_out) == left_out
}

/// How many rows are left out for their length, time, edge, object, size and kind.
fn by_cause(left: LeftOut) -> [u64; 6] {
    [
        left.length,
        left.time,
        left.edge,
        left.object,
        left.size,
        left.kind,
    ]
}

#[test]
fn records_become_rows(rt: HostRuntime) {
    let text = b"time,edge,object,size\n0,0,7,100\n2000,1,7,50\n";
    assert!(rt;
        is_kept(
            imported(rt.alloc(), FOUR, false),
            (text, 2),
            [1, 0, 0, 0, 1, 0]
        )
    );
}

#[test]
fn an_empty_log_is_no_trace(rt: HostRuntime) {
    assert!(rt; is_refused(rt.alloc(), b"", "log: nothing kept: there is no row"));
}

#[test]
fn a_log_of_which_no_row_can_be_used_is_no_trace(rt: HostRuntime) -> io::Result<()> {
    let alloc = rt.alloc();
    let answer = imported(alloc, b"short", false);
    let Some(Err(fault)) = answer else {
        assert!(rt; false);
        return Ok(());
    };
    assert!(rt; is_shown(&fault, "log: nothing kept: record 1: cut off"));
    let answer = streamed(
        alloc,
        b"x,a,5\n",
        &numbered(&rt, None)?,
        streaming(None, false),
    );
    let line = "log: nothing kept: line 1: time: expected a number, found \"x\"";
    assert!(rt; is_cut_off(answer, line, b""));
    Ok(())
}

#[test]
fn more_rows_left_out_than_may_be_refuse_a_log(rt: HostRuntime) -> io::Result<()> {
    let alloc = rt.alloc();
    let log = b"1,a,5\n2,b,0\n3,c,7\n";
    let layout = numbered(&rt, None)?;
    for (most, is_few) in [(0, false), (33, false), (34, true), (100, true)] {
        let how = options(false).and_then(|options| options.with_max_left_out(most));
        let answer = how.map(|how| import_csv(alloc, log.as_slice(), &layout, &how, &mut Silent));
        assert!(rt; matches!(answer, Some(Ok(_))) == is_few);
    }
    let line = "log: 1 of 3 rows left out, more than --max-left-out 33 percent: \
                length 0 time 0 edge 0 object 0 size 1 kind 0; \
                line 2: size: expected a number from 1, found \"0\"";
    let how = options(false).and_then(|options| options.with_max_left_out(33));
    let streaming = how.map(|options| Streaming {
        options,
        epoch: None,
    });
    let answer = streamed(alloc, log.as_slice(), &layout, streaming);
    assert!(rt; is_cut_off(answer, line, b""));
    Ok(())
}

#[test]
fn a_line_end_in_a_field_refuses_a_log(rt: HostRuntime) -> io::Result<()> {
    let alloc = rt.alloc();
    let log = b"1,a,5\n2,\"b\nc\",6\n3,d,7\n";
    let line = "log: line 2: quote not closed";
    for quotes in [Quotes::OneLine, Quotes::Multiline, Quotes::Plain] {
        let layout = Layout {
            quotes,
            ..numbered(&rt, None)?
        };
        let how = options(false);
        let whole = how.map(|how| import_csv(alloc, log.as_slice(), &layout, &how, &mut Silent));
        let piecewise = streamed(alloc, log, &layout, streaming(None, false));
        match (quotes, whole) {
            (Quotes::OneLine, Some(Err(fault))) => {
                assert!(rt; is_shown(&fault, line));
                assert!(rt; is_cut_off(piecewise, line, b""));
            }
            (Quotes::Multiline, Some(Ok(imported))) => {
                assert!(rt; imported.kept == 3);
                let text = b"time,edge,object,size\n0,0,0,5\n1000,1,1,6\n2000,0,2,7\n";
                assert!(rt; is_written(piecewise, (text, 3), [0; 6]));
            }
            (Quotes::Plain, Some(Ok(imported))) => {
                assert!(rt; imported.kept == 2 && imported.left_out.length == 2);
                let text = b"time,edge,object,size\n0,0,0,5\n2000,1,1,7\n";
                assert!(rt; is_written(piecewise, (text, 2), [2, 0, 0, 0, 0, 0]));
            }
            _ => assert!(rt; false),
        }
    }
    Ok(())
}

#[test]
fn sizes_that_are_missing_or_too_large(rt: HostRuntime) -> io::Result<()> {
    let alloc = rt.alloc();
    let log = b"1,a,-\n1,b,0\n1,c,\n1,d,4294967296\n1,e,4294967295\n1,f,x\n";
    let layout = Layout {
        missing_size: Some(9),
        ..numbered(&rt, None)?
    };
    let text =
        b"time,edge,object,size\n0,0,0,9\n0,1,1,9\n0,0,2,9\n0,1,3,4294967295\n0,0,4,4294967295\n";
    let how = options(false);
    let answer = how.map(|how| import_csv(alloc, log.as_slice(), &layout, &how, &mut Silent));
    assert!(rt; matches!(&answer, Some(Ok(imported)) if imported.clamped == 1));
    assert!(rt; is_kept(answer, (text, 5), [0, 0, 0, 0, 1, 0]));
    let piecewise = streamed(alloc, log, &layout, streaming(None, false));
    assert!(rt; matches!(&piecewise, Some((Ok(counts), _)) if counts.clamped == 1));
    assert!(rt; is_written(piecewise, (text, 5), [0, 0, 0, 0, 1, 0]));
    Ok(())
}

#[test]
fn rows_of_one_second_are_spread(rt: HostRuntime) -> io::Result<()> {
    let alloc = rt.alloc();
    let log = b"5,a,1\n6,b,2\n5,a,3\n5.5,c,4\n5,d,5\n";
    let layout = Layout {
        whole_times: true,
        ..numbered(&rt, None)?
    };
    let text = b"time,edge,object,size\n0,0,0,1\n1000,1,1,2\n333,0,0,3\n666,1,2,5\n";
    let how = options(false).map(|how| how.with_spread(true));
    let answer = how.map(|how| import_csv(alloc, log.as_slice(), &layout, &how, &mut Silent));
    assert!(rt; matches!(&answer, Some(Ok(imported)) if imported.crowded == 0));
    assert!(rt; is_kept(answer, (text, 4), [0, 1, 0, 0, 0, 0]));
    let how = options(false);
    let answer = how.map(|how| import_csv(alloc, log.as_slice(), &layout, &how, &mut Silent));
    assert!(rt; matches!(&answer, Some(Ok(imported)) if imported.crowded == 2));
    Ok(())
}

#[test]
fn more_rows_than_ticks_share_ticks(rt: HostRuntime) -> io::Result<()> {
    let alloc = rt.alloc();
    let log = b"2,a,1\n2,b,1\n2,c,1\n3,d,1\n3,e,1\n3,f,1\n3,g,1\n";
    let layout = Layout {
        whole_times: true,
        ..numbered(&rt, None)?
    };
    let text =
        b"time,edge,object,size\n0,0,0,1\n0,1,1,1\n1,0,2,1\n2,1,3,1\n2,0,4,1\n3,1,5,1\n3,0,6,1\n";
    let how = Options::new(2, 2, Dealing::ByRow, false).map(|how| how.with_spread(true));
    let answer = how.map(|how| import_csv(alloc, log.as_slice(), &layout, &how, &mut Silent));
    assert!(rt; is_kept(answer, (text, 7), [0, 0, 0, 0, 0, 0]));
    Ok(())
}

#[test]
fn rows_of_one_time_and_object_are_crowded(rt: HostRuntime) -> io::Result<()> {
    let alloc = rt.alloc();
    let log = b"0,a,1\n0,b,1\n0,a,1\n1,a,1\n0,a,1\n1,c,1\n1,c,1\n";
    let how = options(false);
    let layout = numbered(&rt, None)?;
    let answer = how.map(|how| import_csv(alloc, log.as_slice(), &layout, &how, &mut Silent));
    assert!(rt; matches!(&answer, Some(Ok(imported)) if imported.crowded == 5));
    Ok(())
}

#[test]
fn a_log_in_another_format_is_named(rt: HostRuntime) -> Result<(), ImportFault> {
    let alloc = rt.alloc();
    let gzip = b"\x1f\x8b\x08\x00\x00";
    assert!(rt; format_of(gzip) == Some(Format::Gzip));
    assert!(rt; format_of(b"\x28\xb5\x2f\xfd") == Some(Format::Zstandard));
    assert!(rt; format_of(b"\xfd7zXZ\x00\x01") == Some(Format::Xz));
    assert!(rt; format_of(b"\xf0\xde\xbc\x9a\x78\x56\x34\x12") == Some(Format::Lcs));
    assert!(rt; format_of(b"\x1f").is_none());
    assert!(rt; format_of(FOUR).is_none());
    let line = "log: this is gzip; pipe it through gzip -dc";
    let refused = open_log(alloc, gzip.as_slice());
    assert!(rt; matches!(refused, Err(fault) if is_shown(&fault, line)));
    let mut text = Vec::new(alloc);
    let read = open_log(alloc, b"plain log".as_slice())?.read_to_end(&mut text);
    assert!(rt; read.is_ok() && text.as_slice() == b"plain log".as_slice());
    Ok(())
}

/// Whether a log is refused, with this line.
fn is_refused(alloc: Global, log: &[u8], line: &str) -> bool {
    matches!(imported(alloc, log, true), Some(Err(fault)) if is_shown(&fault, line))
}

#[test]
fn strict_names_the_first_row_left_out(rt: HostRuntime) {
    let alloc = rt.alloc();
    assert!(rt; is_refused(alloc, FOUR, "log: row 1 column 2: size"));
    assert!(rt; is_refused(alloc, b"short", "log: row 0: length"));
}

#[test]
fn options_have_ranges(rt: HostRuntime) {
    assert!(rt; Options::new(0, 1, Dealing::ByRow, false).is_none());
    assert!(rt; Options::new(1_000_000_001, 1, Dealing::ByRow, false).is_none());
    assert!(rt; Options::new(1, 0, Dealing::ByObject, false).is_none());
    assert!(rt; Options::new(1, 257, Dealing::ByObject, false).is_none());
    let widest = Options::new(1_000_000_000, 256, Dealing::ByObject, false);
    assert!(rt; widest.is_some());
    assert!(rt;
        widest
            .and_then(|options| options.with_max_left_out(101))
            .is_none()
    );
    assert!(rt;
        widest
            .and_then(|options| options.with_max_left_out(0))
            .is_some()
    );
}

/// Two columns by their names.
fn named(alloc: Global, first: &[u8], second: &[u8]) -> Result<(Column, Column), AllocError> {
    let first = Vec::from_slice(alloc, first)?;
    let second = Vec::from_slice(alloc, second)?;
    Ok((Column::Named(first), Column::Named(second)))
}

/// The layout in which all columns have names, but for that of the sizes.
fn layout<R: RandomSource>(rt: &R, alloc: Global) -> io::Result<Layout> {
    let (time, object) = named(alloc, b"t", b"o")?;
    let (edge, kind) = named(alloc, b"e", b"k")?;
    Ok(Layout {
        delimiter: b';',
        quotes: Quotes::OneLine,
        time,
        whole_times: false,
        object,
        size: Column::At(0),
        missing_size: None,
        edge: Some(edge),
        kind: Some(kind),
        keys: RandomState::new(rt)?,
    })
}

/// Nine rows of fields, imported in this layout.
fn fields_imported<R: RandomSource>(
    rt: &R,
    alloc: Global,
) -> Option<Result<Imported, ImportFault>> {
    let options = options(false)?;
    let layout = layout(rt, alloc).ok()?;
    let log =
        b"size;t;o;k;e\n5;10.5;b;GET;255\n6;9;a;get;256\n7;9.0000000009;a;Purge;3\n0;9;a;get;1\n8;12.25;b;get;0\n3;x;b;get;0\n3;1;;get;0\n3;1;b;no;0\n3;1\n";
    Some(import_csv(alloc, log.as_slice(), &layout, &options, &mut Silent))
}

#[test]
fn fields_become_rows(rt: HostRuntime) {
    let text = b"time,edge,object,size,kind\n1500,255,0,5,get\n0,3,1,7,purge\n3250,0,0,8,get\n";
    assert!(rt; is_kept(fields_imported(&rt, rt.alloc()), (text, 3), [1; 6]));
}

/// A source whose bytes are all this one.
#[derive(Clone, Copy)]
struct Same(u8);

impl RandomSource for Same {
    fn fill_bytes(&self, buf: &mut [u8]) -> io::Result<()> {
        for byte in buf {
            *byte = self.0;
        }
        Ok(())
    }
}

#[test]
fn objects_have_their_numbers_by_any_hash(rt: HostRuntime) {
    let text = b"time,edge,object,size,kind\n1500,255,0,5,get\n0,3,1,7,purge\n3250,0,0,8,get\n";
    for byte in [0, 1, 255] {
        let answer = fields_imported(&Same(byte), rt.alloc());
        assert!(rt; is_kept(answer, (text, 3), [1; 6]));
    }
}

/// How a log is streamed: 1000 ticks a unit, two edges in turn.
fn streaming(epoch: Option<u128>, strict: bool) -> Option<Streaming> {
    Some(Streaming {
        options: options(strict)?,
        epoch,
    })
}

/// The layout whose columns are numbered: time, object, size, and the kind where there is one.
fn numbered<R: RandomSource>(rt: &R, kind: Option<Column>) -> io::Result<Layout> {
    Ok(Layout {
        delimiter: b',',
        quotes: Quotes::OneLine,
        time: Column::At(0),
        whole_times: false,
        object: Column::At(1),
        size: Column::At(2),
        missing_size: None,
        edge: None,
        kind,
        keys: RandomState::new(rt)?,
    })
}

/// A writer that takes all.
fn sink(alloc: Global) -> Out<Pipe> {
    Out::new(Pipe::new(alloc, usize::MAX, u32::MAX, false))
}

/// The answer for a log of fields; none where its rows are to be spread.
fn stream_fields<R: Read + Drop, W: io::Write>(
    alloc: Global,
    log: R,
    layout: &Layout,
    streaming: &Streaming,
    out: &mut Out<W>,
) -> Option<Result<Counts, ImportFault>> {
    if streaming.options.spread {
        return None;
    }
    Some(stream_csv(alloc, log, layout, streaming, &mut Silent, out))
}

/// The answer for a binary log; none where its rows are to be spread.
fn stream_records<R: Read + Drop, W: io::Write>(
    alloc: Global,
    log: R,
    streaming: &Streaming,
    out: &mut Out<W>,
) -> Option<Result<Counts, ImportFault>> {
    if streaming.options.spread {
        return None;
    }
    Some(stream_oracle(alloc, log, streaming, &mut Silent, out))
}

/// The answer for a log of fields, and what was written.
fn streamed(
    alloc: Global,
    log: &[u8],
    layout: &Layout,
    streaming: Option<Streaming>,
) -> Option<(Result<Counts, ImportFault>, Vec<u8>)> {
    let mut out = sink(alloc);
    let answer = stream_fields(alloc, log, layout, &streaming?, &mut out)?;
    Some((answer, out.into_inner().held))
}

/// Whether so many rows were kept and left out by cause, and this text written.
fn is_written(
    answer: Option<(Result<Counts, ImportFault>, Vec<u8>)>,
    (text, kept): (&[u8], u64),
    left_out: [u64; 6],
) -> bool {
    let Some((Ok(counts), written)) = answer else {
        return false;
    };
    written.as_slice() == text && counts.kept == kept && by_cause(counts.left_out) == left_out
}

/// Whether a log was refused with this line, and this text written.
fn is_cut_off(
    answer: Option<(Result<Counts, ImportFault>, Vec<u8>)>,
    line: &str,
    text: &[u8],
) -> bool {
    let Some((Err(fault), written)) = answer else {
        return false;
    };
    is_shown(&fault, line) && written.as_slice() == text
}

/// Rows in order, of which one is before the first.
const ROWS: &[u8] = b"10,a,5\n10.5,b,6\n9.999,c,7\n10.5,a,8\nx,d,1\n11,c,9\n";

#[test]
fn fields_become_rows_as_they_are_read(rt: HostRuntime) -> io::Result<()> {
    let alloc = rt.alloc();
    let text = b"time,edge,object,size\n0,0,0,5\n500,1,1,6\n500,0,0,8\n1000,1,2,9\n";
    let answer = streamed(alloc, ROWS, &numbered(&rt, None)?, streaming(None, false));
    assert!(rt; is_written(answer, (text, 4), [0, 2, 0, 0, 0, 0]));
    let empty = streamed(alloc, b"", &numbered(&rt, None)?, streaming(None, true));
    assert!(rt; is_cut_off(empty, "log: nothing kept: there is no row", b""));
    Ok(())
}

#[test]
fn an_epoch_moves_the_rows(rt: HostRuntime) -> io::Result<()> {
    let alloc = rt.alloc();
    let text = b"time,edge,object,size\n2000,0,0,5\n2500,1,1,6\n2500,0,0,8\n3000,1,2,9\n";
    let early = streamed(
        alloc,
        ROWS,
        &numbered(&rt, None)?,
        streaming(Some(8_000_000_000), false),
    );
    assert!(rt; is_cut_off(early, "log: row 2: order", b""));
    let rows = b"10,a,5\n10.5,b,6\n10.5,a,8\n11,c,9\n";
    let moved = streamed(
        alloc,
        rows,
        &numbered(&rt, None)?,
        streaming(Some(8_000_000_000), true),
    );
    assert!(rt; is_written(moved, (text, 4), [0; 6]));
    let late = b"time,edge,object,size\n0,0,0,6\n0,1,1,8\n500,0,2,9\n";
    let cut = streamed(
        alloc,
        ROWS,
        &numbered(&rt, None)?,
        streaming(Some(10_500_000_000), false),
    );
    assert!(rt; is_written(cut, (late, 3), [0, 3, 0, 0, 0, 0]));
    Ok(())
}

#[test]
fn a_row_past_the_latest_time_is_left_out(rt: HostRuntime) -> io::Result<()> {
    let alloc = rt.alloc();
    let rows = b"1,a,5\n549755815,a,6\n549755813,a,7\n2,a,8\n";
    let text = b"time,edge,object,size\n0,0,0,5\n549755812000,1,0,7\n";
    let out_of_order = streamed(alloc, rows, &numbered(&rt, None)?, streaming(None, false));
    assert!(rt; is_cut_off(out_of_order, "log: row 3: order", b""));
    let answer = streamed(
        alloc,
        &rows[..33],
        &numbered(&rt, None)?,
        streaming(None, false),
    );
    assert!(rt; is_written(answer, (text, 2), [0, 1, 0, 0, 0, 0]));
    Ok(())
}

#[test]
fn strict_names_the_first_row_refused(rt: HostRuntime) -> io::Result<()> {
    let alloc = rt.alloc();
    let answer = streamed(alloc, ROWS, &numbered(&rt, None)?, streaming(None, true));
    assert!(rt; is_cut_off(answer, "log: row 2 column 0: time", b""));
    let cut = streamed(
        alloc,
        b"1,a\n",
        &numbered(&rt, None)?,
        streaming(None, true),
    );
    assert!(rt; is_cut_off(cut, "log: row 0: length", b""));
    Ok(())
}

#[test]
fn a_column_of_kinds_is_in_the_header(rt: HostRuntime) -> io::Result<()> {
    let alloc = rt.alloc();
    let text = b"time,edge,object,size,kind\n0,0,0,5,get\n0,1,0,5,purge\n";
    let layout = numbered(&rt, Some(Column::At(3)))?;
    let answer = streamed(
        alloc,
        b"1,a,5,get\n1,a,5,PURGE\n",
        &layout,
        streaming(None, true),
    );
    assert!(rt; is_written(answer, (text, 2), [0; 6]));
    Ok(())
}

#[test]
fn a_header_is_no_row(rt: HostRuntime) -> io::Result<()> {
    let alloc = rt.alloc();
    let layout = layout(&rt, alloc)?;
    let none = streamed(alloc, b"", &layout, streaming(None, false));
    assert!(rt; is_cut_off(none, "log: header", b""));
    let other = streamed(alloc, b"size;t;k;e\n", &layout, streaming(None, false));
    assert!(rt; is_cut_off(other, "log: no column object", b""));
    let order = b"size;t;o;k;e\n5;10;b;GET;255\n6;9;a;get;256\n7;10.1;a;get;3\n7;10;a;get;3\n";
    let answer = streamed(alloc, order, &layout, streaming(None, false));
    assert!(rt; is_cut_off(answer, "log: row 3: order", b""));
    Ok(())
}

#[test]
fn records_become_rows_as_they_are_read(rt: HostRuntime) {
    let alloc = rt.alloc();
    let mut out = sink(alloc);
    let text = b"time,edge,object,size\n0,0,7,100\n2000,1,7,50\n";
    let Some(how) = streaming(None, false) else {
        assert!(rt; false);
        return;
    };
    let answer = stream_records(alloc, FOUR, &how, &mut out);
    let written = out.into_inner().held;
    let answer = answer.map(|answer| (answer, written));
    assert!(rt; is_written(answer, (text, 2), [1, 0, 0, 0, 1, 0]));
}

/// So many rows of 14 bytes or more, whose lines are as long.
fn many(alloc: Global, rows: u32) -> Result<Vec<u8>, io::Error> {
    let mut text = String::new(alloc);
    for row in 0..rows {
        if write!(text, "{row},b,1234567\n").is_err() {
            return Err(io::Error::from(ErrorKind::OutOfMemory));
        }
    }
    Ok(text.into_bytes())
}

/// What `many` rows become.
fn lines(alloc: Global, rows: u32) -> Result<Vec<u8>, io::Error> {
    let mut text = String::new(alloc);
    text.push_str("time,edge,object,size\n")?;
    for row in 0..rows {
        let time = u64::from(row) * 1000;
        if write!(text, "{time},{},0,1234567\n", row % 2).is_err() {
            return Err(io::Error::from(ErrorKind::OutOfMemory));
        }
    }
    Ok(text.into_bytes())
}

#[test]
fn a_long_log_goes_out_in_chunks(rt: HostRuntime) -> Result<(), io::Error> {
    let alloc = rt.alloc();
    let log = many(alloc, 9000)?;
    let answer = streamed(alloc, &log, &numbered(&rt, None)?, streaming(None, true));
    assert!(rt; is_written(answer, (&lines(alloc, 9000)?, 9000), [0; 6]));
    Ok(())
}

/// The log of `many` rows, and one that is before them.
fn disordered(alloc: Global) -> Result<Vec<u8>, io::Error> {
    let mut log = many(alloc, 9000)?;
    log.extend_from_slice(b"1,b,7\n")?;
    Ok(log)
}

#[test]
fn a_trace_that_is_cut_off_is_none(rt: HostRuntime) -> Result<(), io::Error> {
    let alloc = rt.alloc();
    let log = disordered(alloc)?;
    let answer = streamed(alloc, &log, &numbered(&rt, None)?, streaming(None, true));
    let Some((Err(fault), written)) = answer else {
        assert!(rt; false);
        return Ok(());
    };
    assert!(rt; is_shown(&fault, "log: row 9000: order"));
    assert!(rt; written.len() > 1 << 16);
    assert!(rt; written.ends_with(b"\nfault\n"));
    let read = rw_trace::read(alloc, &written, 2);
    assert!(rt; matches!(read, Err(rw_trace::TraceFault::RowLength(_))));
    Ok(())
}

#[test]
fn a_writer_that_fails_is_told(rt: HostRuntime) -> Result<(), io::Error> {
    let alloc = rt.alloc();
    let log = many(alloc, 9000)?;
    let disordered = disordered(alloc)?;
    let Some(how) = streaming(None, true) else {
        assert!(rt; false);
        return Ok(());
    };
    for fails_at in [0, 1, 700, 1300] {
        for log in [&log, &disordered] {
            let mut out = Out::new(Hiccup::new(alloc, fails_at));
            let answer = stream_fields(
                alloc,
                log.as_slice(),
                &numbered(&rt, None)?,
                &how,
                &mut out,
            );
            assert!(rt; matches!(answer, Some(Err(ImportFault::Output))));
            assert!(rt; out.failures() == 1);
            assert!(rt; out.into_inner().calls == fails_at.saturating_add(1));
        }
    }
    Ok(())
}

/// A reader that gives at most 100 bytes a read, and fails at one of its reads, counted from 0.
#[derive(Drop)]
struct Torn<'a> {
    bytes: &'a [u8],
    fails_in: u32,
}

impl Read for Torn<'_> {
    fn read(&mut self, buf: &mut [u8]) -> io::Result<usize> {
        if self.fails_in == 0 {
            return Err(io::Error::from(ErrorKind::BrokenPipe));
        }
        self.fails_in -= 1;
        let room = buf.len().min(100);
        self.bytes.read(&mut buf[..room])
    }
}

#[test]
fn a_reader_that_fails_is_told(rt: HostRuntime) -> Result<(), io::Error> {
    let alloc = rt.alloc();
    let log = many(alloc, 9000)?;
    let Some(how) = streaming(None, true) else {
        assert!(rt; false);
        return Ok(());
    };
    for (fails_in, begun) in [(0, false), (3, false), (1000, true)] {
        let mut out = sink(alloc);
        let torn = Torn {
            bytes: &log,
            fails_in,
        };
        let answer = stream_fields(alloc, torn, &numbered(&rt, None)?, &how, &mut out);
        let Some(Err(fault)) = answer else {
            assert!(rt; false);
            return Ok(());
        };
        assert!(rt; is_shown(&fault, "file: cannot read"));
        let written = out.into_inner().held;
        assert!(rt; written.is_empty() != begun);
        assert!(rt; !begun || written.ends_with(b"\nfault\n"));
    }
    let torn = Torn {
        bytes: FOUR,
        fails_in: 1,
    };
    let mut out = sink(alloc);
    let Some(lenient) = streaming(None, false) else {
        assert!(rt; false);
        return Ok(());
    };
    let answer = stream_records(alloc, torn, &lenient, &mut out);
    assert!(rt; matches!(answer, Some(Err(ImportFault::Read))));
    Ok(())
}
