#![tactic(auto)]
//! Reads the rows of a trace from CSV text.
//!
//! Records are those of the `csv` crate: fields are separated by commas and may be quoted with double
//! quotes, nothing is trimmed, and a byte order mark at the start is skipped. The first record is the
//! header, `time,edge,object,size` or `time,edge,object,size,kind`. Each further record is a row with
//! as many fields. A text of plain lines (digits, commas and line ends) is read by a scanner of its
//! own, `plain`, with the same result. `trace_of` in `specs/Trace.antt` defines what a trace means,
//! and `specs/Laws.antt` says the same in the terms of the format.
//!
//! Worked examples: `rw_cache_tests/src/traces.rt`.

mod parts;
mod pieces;
mod plain;
mod plain_rows;
mod reading;
mod record_reader;
mod row_source;

ghost use Rattle.std.specs.Prelude.{All, ◌≡◌, ◌≢◌, ◌≤◌, ◌∷◌, [], Ok, Err, Some, IfOk, IfNone, IfSome, length, IfErr, MatchBool, MatchResult, true};
ghost use Rattle.csv.specs.Records.{fields_of};
ghost use Rattle.rw_trace.specs.Laws.{IsFaultOf, IsFirstFault, IsNoTrace, IsNumber, IsRow, IsTrace, IsWrong, Lacks, LacksKind, WriteRows, Writes, WritesKind, WritesRow};
ghost use Rattle.rw_trace.specs.Limits.{greatest_size, latest_time, most_digits, most_rows, most_streamed_rows};
ghost use Rattle.rw_trace.specs.Trace.{column_of, is_header, is_text_at, kind_at, names_numbers, number_of, trace_of, version_of, width_of};
ghost use Rattle.rw_trace.specs.Unread.{LacksHeader, Steady, records_of, unread};
ghost use Rattle.rw_trace.specs.declared.TraceFault.TheVariants.{Header, Memory, Number};
ghost use Rattle.rw_trace.specs.declared.Version.TheVariants.{First, Second};

use csv::{ByteRecord, Reader};
pub use parts::read_in_parts;
pub use pieces::{OrderedRows, RowsFault, read_record};
use plain::plain_trace;
pub use plain_rows::PlainRows;
pub use reading::{next_record, open_records};
pub use row_source::{RowSource, next_piece};
use std::alloc::{AllocError, Global};

/// What a row of a trace says of its object.
#[derive(Clone, Copy, PartialEq, Eq)]
pub enum Kind {
    /// A request for the object.
    Get,
    /// The object is purged everywhere. The row's size is tested as any other's and otherwise not used.
    Purge,
}

/// One row of a trace: a request, or a purge.
#[derive(Clone, Copy, PartialEq, Eq)]
pub struct Row {
    /// When, in ticks: at most [`MAX_TIME`].
    pub time: u64,
    /// Of which object.
    pub object: u64,
    /// The object's size in bytes: 1 to [`MAX_SIZE`].
    pub size: u64,
    /// At which edge cache, from 0.
    pub edge: u32,
    /// Whether the object is asked for or purged: a get, where the header has no kind.
    pub kind: Kind,
}

/// Which of the two headers a trace has.
#[derive(Clone, Copy)]
enum Version {
    /// `time,edge,object,size`: each row is a get.
    First,
    /// `time,edge,object,size,kind`: each row names its kind.
    Second,
}

/// Why a trace is refused, each shown as one line. Rows and columns are numbered from 0.
#[derive(Debug, Drop, thiserror::Error)]
pub enum TraceFault {
    /// There is no record, or the first one is no header.
    #[error("trace: header")]
    Header,
    /// The row has not as many fields as the header.
    #[error("trace: row {0}: length")]
    RowLength(u64),
    /// The field at this row and column is not 1 to [`MAX_DIGITS`] ASCII digits of a value below 2^64.
    #[error("trace: row {0} column {1}: number")]
    Number(u64, u64),
    /// The row's time is over [`MAX_TIME`].
    #[error("trace: row {0}: time")]
    TimeRange(u64),
    /// The row's edge is not below the number of edges.
    #[error("trace: row {0}: edge")]
    EdgeRange(u64),
    /// The row's size is 0 or over [`MAX_SIZE`].
    #[error("trace: row {0}: size")]
    SizeRange(u64),
    /// There are more rows than the reader takes, and no earlier one is at fault.
    #[error("trace: too many rows")]
    TooManyRows,
    /// A request for memory was refused.
    #[error("memory")]
    Memory,
    /// The row's kind is neither `get` nor `purge`.
    #[error("trace: row {0}: kind")]
    Kind(u64),
    /// The row's time is before that of the row in front of it. Only [`OrderedRows`] asks for order.
    #[error("trace: row {0}: order")]
    Order(u64),
}

impl From<AllocError> for TraceFault {
    ghost from_gives = { λ _ e. e ≡ Memory };

    fn from(_refusal: AllocError) -> TraceFault {
        TraceFault::Memory
    }
}

/// The greatest time of a row, in ticks: 2^39.
pub const MAX_TIME: u64 = 1 << 39;

/// The greatest size of a row, in bytes: 2^32 - 1.
pub const MAX_SIZE: u64 = (1 << 32) - 1;

/// The most rows that [`read`] takes: 2^24.
pub const MAX_ROWS: u64 = 1 << 24;

/// The most rows of a trace that is read as it is run: 2^40.
pub const MAX_STREAMED_ROWS: u64 = 1 << 40;

/// The most digits of a number.
pub const MAX_DIGITS: usize = 20;

/// Each of these constants is the limit that stands in `specs/Limits.antt`, which the definitions cite. The call itself
/// does nothing.
pub fn every_limit()
    ensures rows { MAX_ROWS ≡ most_rows }
    ensures streamed { MAX_STREAMED_ROWS ≡ most_streamed_rows }
    ensures time { MAX_TIME ≡ latest_time }
    ensures size { MAX_SIZE ≡ greatest_size }
    ensures digits { MAX_DIGITS ≡ most_digits }
{}

/// The number that a field writes in 1 to [`MAX_DIGITS`] ASCII digits, below 2^64. `None` exactly where it writes none.
/// Takes no memory.
#[tactic(auto, using(crate::proofs::Numbers::number_rules), unfolding(crate::specs::Trace::number_of))]
pub fn number(field: &[u8]) -> Option<u64>
    ensures value { result ≡ number_of field.now }
    ensures law { IfSome result (λ n. IsNumber field.now n) }
{
    if field.is_empty() || field.len() > MAX_DIGITS {
        return None;
    }
    let mut value: u64 = 0;
    for byte in field {
        if !byte.is_ascii_digit() {
            return None;
        }
        value = value.checked_mul(10)?.checked_add(u64::from(*byte - b'0'))?;
    }
    Some(value)
}

/// The number at a column of a row, or `Number` where the field is not there or writes none.
#[tactic(auto, unfolding(crate::specs::Trace::column_of))]
fn number_at(fields: &ByteRecord, row: u64, column: u8) -> Result<u64, TraceFault>
    ensures value { result ≡ column_of row column (fields_of fields.now) }
    ensures law { IfOk result (λ n. Writes (fields_of fields.now) column n) }
    ensures wrong { IfErr result (λ e.
        (e ≡ Number row column) × Lacks (fields_of fields.now) column) }
{
    let fault = TraceFault::Number(row, u64::from(column));
    match fields.get(usize::from(column)) {
        Some(field) => number(field).ok_or(fault),
        None => Err(fault),
    }
}

/// Whether the field at a column is `text`.
#[tactic(auto, unfolding(crate::specs::Trace::is_text_at))]
fn is_field(fields: &ByteRecord, column: usize, text: &[u8]) -> bool
    ensures { result ≡ is_text_at column text.now (fields_of fields.now) }
{
    match fields.get(column) {
        Some(field) => field == text,
        None => false,
    }
}

/// How many fields each record of a version has, its header too.
fn width(version: Version) -> usize
    ensures { result ≡ width_of version }
{
    match version {
        Version::First => 4,
        Version::Second => 5,
    }
}

/// The kind of a record, or `None` where its last field names none.
#[tactic(auto, unfolding(crate::specs::Trace::kind_at))]
fn kind_of_record(fields: &ByteRecord, version: Version) -> Option<Kind>
    ensures value { result ≡ kind_at version (fields_of fields.now) }
    ensures law { IfSome result (λ k. WritesKind version (fields_of fields.now) k) }
    ensures wrong { IfNone result (LacksKind version (fields_of fields.now)) }
{
    match version {
        Version::First => Some(Kind::Get),
        Version::Second if is_field(fields, 4, b"get") => Some(Kind::Get),
        Version::Second if is_field(fields, 4, b"purge") => Some(Kind::Purge),
        Version::Second => None,
    }
}

/// The row that a record writes, or what is first wrong in it.
fn row_at(fields: &ByteRecord, version: Version, edges: u32, row: u64) -> Result<Row, TraceFault>
    ensures law { IfOk result (λ r. WritesRow version edges (fields_of fields.now) r) }
    ensures wrong { IfErr result (λ e. IsWrong version edges row (fields_of fields.now) e) }
{
    if fields.len() != width(version) {
        return Err(TraceFault::RowLength(row));
    }
    let time = number_at(fields, row, 0)?;
    if time > MAX_TIME {
        return Err(TraceFault::TimeRange(row));
    }
    let edge = number_at(fields, row, 1)?;
    if edge >= u64::from(edges) {
        return Err(TraceFault::EdgeRange(row));
    }
    let object = number_at(fields, row, 2)?;
    let size = number_at(fields, row, 3)?;
    if size == 0 || size > MAX_SIZE {
        return Err(TraceFault::SizeRange(row));
    }
    let kind = kind_of_record(fields, version).ok_or(TraceFault::Kind(row))?;
    Ok(Row {
        time,
        edge: edge as u32,
        object,
        size,
        kind,
    })
}

/// Whether a record begins with the names of a row's numbers.
fn has_number_names(fields: &ByteRecord) -> bool
    ensures { result ≡ names_numbers (fields_of fields.now) }
{
    is_field(fields, 0, b"time")
        && is_field(fields, 1, b"edge")
        && is_field(fields, 2, b"object")
        && is_field(fields, 3, b"size")
}

/// Whether a record is the header of the first version.
#[tactic(auto, unfolding(crate::specs::Trace::is_header))]
fn is_first_header(fields: &ByteRecord) -> bool
    ensures { result ≡ is_header First (fields_of fields.now) }
{
    fields.len() == 4 && has_number_names(fields)
}

/// Whether a record is the header of the second version.
#[tactic(auto, unfolding(crate::specs::Trace::is_header))]
fn is_second_header(fields: &ByteRecord) -> bool
    ensures { result ≡ is_header Second (fields_of fields.now) }
{
    fields.len() == 5 && has_number_names(fields) && is_field(fields, 4, b"kind")
}

/// The version whose header a record is, if it is one.
#[tactic(auto, unfolding(crate::specs::Trace::version_of))]
fn version_of_header(fields: &ByteRecord) -> Option<Version>
    ensures { result ≡ version_of (fields_of fields.now) }
{
    if is_first_header(fields) {
        Some(Version::First)
    } else if is_second_header(fields) {
        Some(Version::Second)
    } else {
        None
    }
}

/// The version whose header the next record is. `fields` is that record then.
fn next_version(reader: &mut Reader<&[u8]>, fields: &mut ByteRecord) -> Result<Version, TraceFault>
    requires { Steady reader.old }
    ensures steady { IfOk result (λ _. Steady reader.new) }
    ensures gives { IfOk result (λ _.
        unread reader.old ≡ fields_of fields.new ∷ unread reader.new) }
    ensures headed { IfOk result (λ version. version_of (fields_of fields.new) ≡ Some version) }
    ensures lacks { IfErr result (λ e.
        e ≢ Memory → (e ≡ Header) × LacksHeader (unread reader.old)) }
{
    if !next_record(reader, fields)? {
        return Err(TraceFault::Header);
    }
    version_of_header(fields).ok_or(TraceFault::Header)
}

/// The rows of the records that are left, or the first fault among them.
fn rows_left(
    alloc: Global,
    reader: &mut Reader<&[u8]>,
    fields: &mut ByteRecord,
    version: Version,
    edges: u32,
    most: u64,
) -> Result<Vec<Row>, TraceFault>
    requires { Steady reader.old }
    ensures law { IfOk result (λ v.
        WriteRows version edges (unread reader.old) v.items × (length v.items ≤ most)) }
    ensures first { IfErr result (λ e.
        e ≢ Memory → IsFirstFault version edges most (unread reader.old) e) }
{
    let mut rows = Vec::new(alloc);
    for at in 0..most {
        if !next_record(reader, fields)? {
            return Ok(rows);
        }
        let one = row_at(fields, version, edges, at)?;
        if rows.push(one).is_err() {
            return Err(TraceFault::Memory);
        }
    }
    if next_record(reader, fields)? {
        return Err(TraceFault::TooManyRows);
    }
    Ok(rows)
}

/// The rows of the trace whose records are left, or its first fault.
fn trace_left(
    alloc: Global,
    reader: &mut Reader<&[u8]>,
    fields: &mut ByteRecord,
    edges: u32,
    most: u64,
) -> Result<Vec<Row>, TraceFault>
    requires { Steady reader.old }
    ensures law { IfOk result (λ v. IsTrace edges most (unread reader.old) v.items) }
    ensures first { IfErr result (λ e. e ≢ Memory → IsFaultOf edges most (unread reader.old) e) }
{
    let version = next_version(reader, fields)?;
    rows_left(alloc, reader, fields, version, edges, most)
}

/// The rows of a trace, where row `most` and all behind it are one row too many.
///
/// # Errors
///
/// The first fault of the trace: that of the first faulty row, within it first its length, then its columns from the
/// left, in each the number before its range, and last its kind. `Memory` where a request for memory was refused;
/// nothing is said of the trace then.
pub fn read_up_to(
    alloc: Global,
    bytes: &[u8],
    edges: u32,
    most: u64,
) -> Result<Vec<Row>, TraceFault>
    requires { most ≤ most_rows }
    ensures rows { IfOk result (λ v. trace_of edges most (records_of bytes.now) ≡ Ok v.items) }
    ensures law { IfOk result (λ v. IsTrace edges most (records_of bytes.now) v.items) }
    ensures ranges { IfOk result (λ v. All (IsRow edges) v.items) }
    ensures fault { IfErr result (λ e.
        e ≢ Memory → trace_of edges most (records_of bytes.now) ≡ Err e) }
    ensures refused { IfErr result (λ e. e ≢ Memory → IsNoTrace edges most (records_of bytes.now)) }
    ensures first { IfErr result (λ e. e ≢ Memory → IsFaultOf edges most (records_of bytes.now) e) }
{
    if let Some(rows) = plain_trace(alloc, bytes, edges, most) {
        return Ok(rows);
    }
    let mut reader = open_records(alloc, bytes);
    let mut fields = ByteRecord::new(alloc);
    trace_left(alloc, &mut reader, &mut fields, edges, most)
}

/// The rows of a trace of at most [`MAX_ROWS`] rows.
///
/// # Errors
///
/// The first fault of the trace, or `Memory`, as [`read_up_to`] answers them.
pub fn read(alloc: Global, bytes: &[u8], edges: u32) -> Result<Vec<Row>, TraceFault>
    ensures rows { IfOk result (λ v. trace_of edges most_rows (records_of bytes.now) ≡ Ok v.items) }
    ensures fault { IfErr result (λ e.
        e ≢ Memory → trace_of edges most_rows (records_of bytes.now) ≡ Err e) }
    ensures law { IfOk result (λ v. IsTrace edges most_rows (records_of bytes.now) v.items) }
    ensures ranges { IfOk result (λ v. All (IsRow edges) v.items) }
    ensures refused { IfErr result (λ e.
        e ≢ Memory → IsNoTrace edges most_rows (records_of bytes.now)) }
    ensures first { IfErr result (λ e.
        e ≢ Memory → IsFaultOf edges most_rows (records_of bytes.now) e) }
{
    read_up_to(alloc, bytes, edges, MAX_ROWS)
}
