//! A scanner for plain lines: numbers and, in the second version, the word of a kind, separated by commas, and a line feed, which
//! may follow a carriage return and may be missing at the end of the text. Any other text is left to the reader of records.
//!
//! Here `None` makes no claim: the line may be a row that is written in another way, or no row at all.
ghost use Rattle.std.specs.Prelude.{IfSome, ◌≤◌, ◌+◌, ◌++◌, length};
ghost use Rattle.rw_trace.specs.Laws.{IsTrace, WriteRows};
ghost use Rattle.rw_trace.specs.Lines.{IsEndAt, IsHeaderAt, IsKindAt, IsNumberAndComma, IsNumberAt, IsRowAt, records_at};
ghost use Rattle.rw_trace.specs.Unread.{records_of};
ghost use Rattle.rw_trace.specs.Words.{Text};
ghost use Rattle.rw_trace.specs.declared.Version.TheVariants.{Second};

use crate::{Kind, MAX_DIGITS, MAX_SIZE, MAX_TIME, Row, Version};
use std::alloc::Global;

/// The greatest value behind which any digit may stand: the number is still below 2^64.
const ROOM: u64 = 1_844_674_407_370_955_160;

/// The length of the chunk that is tried first. As many digits are always below 2^64.
const FEW: usize = 18;

/// The number at a place, and the place behind its last digit.
#[inline(always)]
fn number_at(bytes: &[u8], from: usize) -> Option<(u64, usize)>
    requires { from ≤ length bytes.now }
    ensures { IfSome result (λ r. IsNumberAt bytes.now from r.0 r.1) }
{
    if let Some(near) = bytes[from..].first_chunk::<FEW>()
        && let Some((value, next)) = short_number(near)
    {
        return Some((value, from + next));
    }
    long_number_at(bytes, from)
}

/// The number at the start of a chunk that also has the byte behind it, and the place of that byte.
#[inline(always)]
fn short_number(bytes: &[u8; FEW]) -> Option<(u64, usize)>
    ensures { IfSome result (λ r. IsNumberAt bytes.now 0 r.0 r.1) }
{
    let mut value: u64 = 0;
    for at in 0..FEW {
        let byte = bytes[at];
        if !byte.is_ascii_digit() {
            return if at > 0 { Some((value, at)) } else { None };
        }
        value = value * 10 + u64::from(byte - b'0');
    }
    None
}

/// [`number_at`] for a number of any length.
#[inline(never)]
fn long_number_at(bytes: &[u8], from: usize) -> Option<(u64, usize)>
    requires { from ≤ length bytes.now }
    ensures { IfSome result (λ r. IsNumberAt bytes.now from r.0 r.1) }
{
    let mut value: u64 = 0;
    let mut at = from;
    while at < bytes.len() && bytes[at].is_ascii_digit() {
        if value > ROOM {
            return None;
        }
        value = value * 10 + u64::from(bytes[at] - b'0');
        at += 1;
    }
    if at > from && at - from <= MAX_DIGITS {
        Some((value, at))
    } else {
        None
    }
}

/// The number at a place and the place behind the comma that follows it.
#[inline(always)]
fn number_and_comma(bytes: &[u8], from: usize) -> Option<(u64, usize)>
    requires { from ≤ length bytes.now }
    ensures { IfSome result (λ r. IsNumberAndComma bytes.now from r.0 r.1) }
{
    let (value, at) = number_at(bytes, from)?;
    if bytes.get(at) == Some(&b',') {
        Some((value, at + 1))
    } else {
        None
    }
}

/// The kind behind the numbers of a row of a version, and the place behind it.
#[inline(always)]
fn kind_at(bytes: &[u8], from: usize, version: Version) -> Option<(Kind, usize)>
    requires { from ≤ length bytes.now }
    ensures { IfSome result (λ r. IsKindAt version bytes.now from r.0 r.1) }
{
    match version {
        Version::First => Some((Kind::Get, from)),
        Version::Second => word_at(bytes, from),
    }
}

/// The kind whose word stands behind a comma at a place, and the place behind the word.
fn word_at(bytes: &[u8], from: usize) -> Option<(Kind, usize)>
    requires { from ≤ length bytes.now }
    ensures { IfSome result (λ r. IsKindAt Second bytes.now from r.0 r.1) }
{
    let rest = &bytes[from..];
    if rest.starts_with(b",get") {
        Some((Kind::Get, from + 4))
    } else if rest.starts_with(b",purge") {
        Some((Kind::Purge, from + 6))
    } else {
        None
    }
}

/// The place behind the end of line that stands at a place.
#[inline(always)]
fn line_end(bytes: &[u8], at: usize) -> Option<usize>
    requires { at ≤ length bytes.now }
    ensures { IfSome result (λ next. IsEndAt bytes.now at next) }
{
    if at >= bytes.len() {
        return Some(at);
    }
    if bytes[at] == b'\n' {
        return Some(at + 1);
    }
    if bytes[at..].starts_with(b"\r\n") {
        return Some(at + 2);
    }
    None
}

/// The row that the line at a place writes, and where the next line begins.
#[inline(always)]
pub fn plain_row(bytes: &[u8], at: usize, version: Version, edges: u32) -> Option<(Row, usize)>
    requires { at ≤ length bytes.now }
    ensures { IfSome result (λ r. IsRowAt version edges bytes.now at r.0 r.1) }
{
    let (time, second) = number_and_comma(bytes, at)?;
    let (edge, third) = number_and_comma(bytes, second)?;
    let (object, fourth) = number_and_comma(bytes, third)?;
    let (size, fifth) = number_at(bytes, fourth)?;
    let (kind, end) = kind_at(bytes, fifth, version)?;
    let next = line_end(bytes, end)?;
    if time > MAX_TIME || edge >= u64::from(edges) || size == 0 || size > MAX_SIZE {
        return None;
    }
    let row = Row {
        time,
        object,
        size,
        edge: edge as u32,
        kind,
    };
    Some((row, next))
}

/// The rows of the lines from a place to the end of the text, at most `most`. `None` also where memory is refused.
fn plain_rows(
    alloc: Global,
    bytes: &[u8],
    from: usize,
    version: Version,
    edges: u32,
    most: u64,
) -> Option<Vec<Row>>
    ensures written { IfSome result (λ v.
        WriteRows version edges (records_at bytes.now from) v.items) }
    ensures few { IfSome result (λ v. length v.items ≤ most) }
{
    let mut rows = Vec::new(alloc);
    let mut at = from;
    while at < bytes.len() {
        let (row, next) = plain_row(bytes, at, version, edges)?;
        if rows.len() as u64 >= most {
            return None;
        }
        rows.push(row).ok()?;
        at = next;
    }
    Some(rows)
}

/// The version whose header, as a plain line, a text begins with, whatever follows it, and where the next line begins.
pub fn header_line(bytes: &[u8]) -> Option<(Version, usize)>
    ensures here { IfSome result (λ r. IsHeaderAt bytes.now r.0 r.1) }
    ensures longer { IfSome result (λ r.
        (more : Text) → IsHeaderAt (bytes.now ++ more) r.0 r.1) }
{
    if bytes.starts_with(b"time,edge,object,size\n") {
        Some((Version::First, 22))
    } else if bytes.starts_with(b"time,edge,object,size\r\n") {
        Some((Version::First, 23))
    } else if bytes.starts_with(b"time,edge,object,size,kind\n") {
        Some((Version::Second, 27))
    } else if bytes.starts_with(b"time,edge,object,size,kind\r\n") {
        Some((Version::Second, 28))
    } else {
        None
    }
}

/// The rows of a trace all of whose lines are plain, at most `most`. `None` also where memory is refused.
pub fn plain_trace(alloc: Global, bytes: &[u8], edges: u32, most: u64) -> Option<Vec<Row>>
    ensures { IfSome result (λ v. IsTrace edges most (records_of bytes.now) v.items) }
{
    let (version, from) = header_line(bytes)?;
    plain_rows(alloc, bytes, from, version, edges, most)
}

/// The rows of a text without a header all of whose lines are plain, at most `most`. `None` also where memory is refused.
pub fn plain_text(
    alloc: Global,
    bytes: &[u8],
    version: Version,
    edges: u32,
    most: u64,
) -> Option<Vec<Row>>
    ensures written { IfSome result (λ v.
        WriteRows version edges (records_of bytes.now) v.items) }
    ensures few { IfSome result (λ v. length v.items ≤ most) }
{
    if bytes.first() == Some(&0xEF) {
        return None;
    }
    plain_rows(alloc, bytes, 0, version, edges, most)
}
