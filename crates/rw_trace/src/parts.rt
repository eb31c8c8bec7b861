ghost use Rattle.std.specs.Prelude.{All, ◌≡◌, ◌≢◌, ◌≤◌, ◌+◌, ◌++◌, Ok, Err, Some, IfOk, IfErr, IfSome, IsSomeAnd, length, slice_get, true};
ghost use Rattle.rw_trace.specs.Laws.{IsFaultOf, IsNoTrace, IsRow, IsTrace};
ghost use Rattle.rw_trace.specs.Limits.{most_rows};
ghost use Rattle.rw_trace.specs.Cut.{AreRowsUnder, IsCut};
ghost use Rattle.rw_trace.specs.Trace.{trace_of};
ghost use Rattle.rw_trace.specs.Unread.{IsHeaded, records_of};
ghost use Rattle.rw_trace.specs.declared.TraceFault.TheVariants.{Memory};

use crate::plain::{header_line, plain_text};
use crate::{MAX_ROWS, Row, TraceFault, Version, next_version, open_records, read, rows_left};
use csv::ByteRecord;
use memchr::{memchr, memrchr};
use std::alloc::Global;
use std::thread;
use std::thread::Threads;

/// How long a text is at least that is worth a thread, in bytes.
const WORTH: usize = 1 << 18;

/// The rows of a trace of at most [`MAX_ROWS`] rows, in two parts of which the second one follows the first. Where the trace is
/// long, several threads read them: two for two or three `readers`, four for more. They are started for it, all but the calling
/// one, and gone afterwards.
///
/// The text is cut behind a line near its middle, if no field before that is quoted; for four threads, so is each half that is
/// long. Where anything is wrong with a part, or memory is refused, all is read once more, by one thread, and is the first part.
///
/// # Errors
///
/// Those of [`read`].
pub fn read_in_parts<R: Threads + Sync>(
    rt: &R,
    alloc: Global,
    bytes: &[u8],
    edges: u32,
    readers: u32,
) -> Result<(Vec<Row>, Vec<Row>), TraceFault>
    ensures rows { IfOk result (λ r.
        trace_of edges most_rows (records_of bytes.now) ≡ Ok (r.0.items ++ r.1.items)) }
    ensures fault { IfErr result (λ e.
        e ≢ Memory → trace_of edges most_rows (records_of bytes.now) ≡ Err e) }
    ensures law { IfOk result (λ r.
        IsTrace edges most_rows (records_of bytes.now) (r.0.items ++ r.1.items)) }
    ensures ranges { IfOk result (λ r. All (IsRow edges) (r.0.items ++ r.1.items)) }
    ensures few { IfOk result (λ r. length r.0.items + length r.1.items ≤ most_rows) }
    ensures refused { IfErr result (λ e.
        e ≢ Memory → IsNoTrace edges most_rows (records_of bytes.now)) }
    ensures first { IfErr result (λ e.
        e ≢ Memory → IsFaultOf edges most_rows (records_of bytes.now) e) }
{
    if let Some((before, behind)) = cut_for(bytes, readers)
        && let Some(parts) = read_both(rt, alloc, before, behind, edges, readers / 2)
    {
        return Ok(parts);
    }
    let rows = read(alloc, bytes, edges)?;
    Ok((rows, Vec::new(alloc)))
}

/// Both parts of a text that is cut behind a line near its middle, for at least two readers. `None` where it is short, or
/// where a field might go on behind the cut.
fn cut_for(bytes: &[u8], readers: u32) -> Option<(&[u8], &[u8])>
    ensures parts { IfSome result (λ parts. bytes.now ≡ parts.0.now ++ parts.1.now) }
    ensures cut { IfSome result (λ parts. IsCut parts.0.now parts.1.now) }
{
    if readers < 2 { None } else { cut(bytes) }
}

/// Both parts of a text that is cut behind a line near its middle. `None` where it is short, or where a field might go on
/// behind the cut.
fn cut(bytes: &[u8]) -> Option<(&[u8], &[u8])>
    ensures parts { IfSome result (λ parts. bytes.now ≡ parts.0.now ++ parts.1.now) }
    ensures cut { IfSome result (λ parts. IsCut parts.0.now parts.1.now) }
{
    if bytes.len() < WORTH {
        return None;
    }
    let line = middle_line(bytes)?;
    let (before, behind) = bytes.split_at(line + 1);
    if are_apart(before, behind) {
        Some((before, behind))
    } else {
        None
    }
}

/// Where the last line of the first half of a text ends.
fn middle_line(bytes: &[u8]) -> Option<usize>
    ensures { IfSome result (λ line. slice_get bytes.now line ≡ Some 10) }
{
    memrchr(b'\n', &bytes[..bytes.len() / 2])
}

/// Whether no field goes on from one text into the next one, and the first one alone may begin with a byte order mark.
fn are_apart(before: &[u8], behind: &[u8]) -> bool
    ensures long { result ≡ true → 3 ≤ length before.now }
    ensures plain { result ≡ true → All (λ b. b ≢ 34) before.now }
    ensures unmarked { result ≡ true → slice_get behind.now 0 ≢ Some 0xEF }
{
    before.len() >= 3 && memchr(b'"', before).is_none() && behind.first() != Some(&0xEF)
}

/// The rows of a text that is cut in two, of each part, which so many threads read. `None` where something is wrong with one,
/// or memory is refused.
fn read_both<R: Threads + Sync>(
    rt: &R,
    alloc: Global,
    before: &[u8],
    behind: &[u8],
    edges: u32,
    readers: u32,
) -> Option<(Vec<Row>, Vec<Row>)>
    requires cut { IsCut before.now behind.now }
    ensures law { IfSome result (λ r.
        IsTrace edges most_rows (records_of (before.now ++ behind.now)) (r.0.items ++ r.1.items)) }
    ensures few { IfSome result (λ r. length r.0.items + length r.1.items ≤ most_rows) }
{
    let (rest, first) = thread::join(
        rt,
        move || -> Option<Vec<Row>>
            ensures { IfSome result (λ v.
                AreRowsUnder edges (records_of before.entry.now) (records_of behind.entry.now)
                v.items) }
        { read_rest(rt, alloc, before, behind, edges, readers) },
        move || -> Option<Vec<Row>>
            ensures { IfSome result (λ v.
                IsTrace edges most_rows (records_of before.entry.now) v.items) }
        { read_headed(rt, alloc, before, edges, readers) },
    );
    both(first, rest)
}

/// The rows of a trace, which one or two threads read. `None` where something is wrong, whatever it is.
fn read_headed<R: Threads + Sync>(
    rt: &R,
    alloc: Global,
    bytes: &[u8],
    edges: u32,
    readers: u32,
) -> Option<Vec<Row>>
    ensures { IfSome result (λ v. IsTrace edges most_rows (records_of bytes.now) v.items) }
{
    let Some((before, behind)) = cut_for(bytes, readers) else {
        return read(alloc, bytes, edges).ok();
    };
    let (rest, first) = thread::join(
        rt,
        move || -> Option<Vec<Row>>
            ensures { IfSome result (λ v.
                AreRowsUnder edges (records_of before.entry.now) (records_of behind.entry.now)
                v.items) }
        { read_under(alloc, before, behind, edges) },
        move || -> Option<Vec<Row>>
            ensures { IfSome result (λ v.
                IsTrace edges most_rows (records_of before.entry.now) v.items) }
        { read(alloc, before, edges).ok() },
    );
    joined(first, rest)
}

/// The rows of a text without a header, under that of another one, which one or two threads read. `None` where something is
/// wrong, whatever it is.
fn read_rest<R: Threads + Sync>(
    rt: &R,
    alloc: Global,
    headed: &[u8],
    bytes: &[u8],
    edges: u32,
    readers: u32,
) -> Option<Vec<Row>>
    ensures { IfSome result (λ v.
        AreRowsUnder edges (records_of headed.now) (records_of bytes.now) v.items) }
{
    let Some((before, behind)) = cut_for(bytes, readers) else {
        return read_under(alloc, headed, bytes, edges);
    };
    let (rest, first) = thread::join(
        rt,
        move || -> Option<Vec<Row>>
            ensures { IfSome result (λ v.
                AreRowsUnder edges (records_of headed.entry.now) (records_of behind.entry.now)
                v.items) }
        { read_under(alloc, headed, behind, edges) },
        move || -> Option<Vec<Row>>
            ensures { IfSome result (λ v.
                AreRowsUnder edges (records_of headed.entry.now) (records_of before.entry.now)
                v.items) }
        { read_under(alloc, headed, before, edges) },
    );
    joined(first, rest)
}

/// The rows of both parts, where each was read, and they are not too many.
fn both(first: Option<Vec<Row>>, rest: Option<Vec<Row>>) -> Option<(Vec<Row>, Vec<Row>)>
    ensures first { IfSome result (λ r. first ≡ Some r.0) }
    ensures rest { IfSome result (λ r. rest ≡ Some r.1) }
    ensures few { IfSome result (λ r. length r.0.items + length r.1.items ≤ most_rows) }
{
    let first = first?;
    let rest = rest?;
    if (first.len() + rest.len()) as u64 > MAX_ROWS {
        return None;
    }
    Some((first, rest))
}

/// The rows of both parts behind one another, where each was read, and they are not too many.
fn joined(first: Option<Vec<Row>>, rest: Option<Vec<Row>>) -> Option<Vec<Row>>
    ensures { IfSome result (λ all. IsSomeAnd first (λ a. IsSomeAnd rest (λ b.
        (all.items ≡ a.items ++ b.items) × (length a.items + length b.items ≤ most_rows)))) }
{
    let (mut rows, rest) = both(first, rest)?;
    rows.extend_from_slice(&rest).ok()?;
    Some(rows)
}

/// The rows of a text without a header, under that of another one. `None` where something is wrong, whatever it is.
fn read_under(alloc: Global, headed: &[u8], bytes: &[u8], edges: u32) -> Option<Vec<Row>>
    ensures { IfSome result (λ v.
        AreRowsUnder edges (records_of headed.now) (records_of bytes.now) v.items) }
{
    if let Some((version, _)) = header_line(headed)
        && let Some(rows) = plain_text(alloc, bytes, version, edges, MAX_ROWS)
    {
        return Some(rows);
    }
    let mut fields = ByteRecord::new(alloc);
    let version = version_of_text(alloc, headed, &mut fields)?;
    let mut reader = open_records(alloc, bytes);
    rows_left(alloc, &mut reader, &mut fields, version, edges, MAX_ROWS).ok()
}

/// The version whose header a text begins with. `fields` is its first record then.
fn version_of_text(alloc: Global, bytes: &[u8], fields: &mut ByteRecord) -> Option<Version>
    ensures { IfSome result (λ version. IsHeaded version (records_of bytes.now)) }
{
    let mut reader = open_records(alloc, bytes);
    next_version(&mut reader, fields).ok()
}
