//! A trace that is read piece by piece, so that it need not be there all at once.
ghost use Rattle.std.specs.Prelude.{◌≡◌, ◌+◌, ◌≤◌, ◌<◌, ◌⊎◌, IfErr, IfOk, IfSome, MatchBool, Ok, Some, length, option_map, true};
ghost use Rattle.csv.specs.Reading.{error_kind, stops_reader};
ghost use Rattle.csv.specs.Records.{fields_of};
ghost use Rattle.rw_trace.specs.Ahead.{IsFaultFound, IsRowFound};
ghost use Rattle.rw_trace.specs.Pieces.{Gives, GivesNone, IsRefusal, MayRead, ordered_trace_of, records_ahead};
ghost use Rattle.rw_trace.specs.Unread.{records_of};
ghost use Rattle.rw_trace.specs.declared.TraceFault.TheVariants as fault;

use crate::record_reader::{Found, RecordReader};
use crate::row_source::RowSource;
use crate::{Row, TraceFault, Version, row_at};
use csv::{ByteRecord, Error, ErrorKind, Reader};
use std::alloc::Global;
use std::io::Read;
use std::marker::Model;

/// Why rows that are read piece by piece are refused, each shown as one line.
#[derive(Debug, Drop, thiserror::Error)]
pub enum RowsFault {
    /// The trace's first fault, of which `Order` is one; or `Memory`.
    #[error("{0}")]
    Trace(TraceFault),
    /// The reader underneath answered an error.
    #[error("file: cannot read")]
    Read,
}

/// The rows of a trace that stand in order of time, read piece by piece. Contracts see what is still to come.
#[derive(Drop)]
pub struct OrderedRows<R: Read + Drop> {
    records: RecordReader<R>,
    version: Version,
    edges: u32,
    /// Row `most` is one too many.
    most: u64,
    /// The number of the next row.
    number: u64,
    /// The time of the row in front of it.
    latest: u64,
}

impl<R: Read + Drop> Model for OrderedRows<R> {
    ghost use Rattle.std.specs.Prelude.{◌≤◌, ◌-◌, option_map};
    ghost use Rattle.rw_trace.specs.Ahead.{MayReadOn, still_ahead};
    ghost use Rattle.rw_trace.specs.Pieces.{RowsAhead, ordered_rows_of};

    ghost Value = { RowsAhead };

    ghost view = { λ r. record {
      edges = r.edges;
      latest = r.latest;
      most = r.most - r.number;
      ahead = option_map (ordered_rows_of r.version r.edges r.most r.number r.latest)
          (still_ahead R.remaining r.records.source);
    } };

    ghost invariant = { λ r. MayReadOn r.records.source × (r.number ≤ r.most) };
}

impl<R: Read + Drop> OrderedRows<R> {
    /// The rows of the trace in the bytes of a reader, where row `most` and all behind it are one row too many. Reads its header.
    ///
    /// # Errors
    ///
    /// `Trace` with `Header` where there is none, or with `Memory`; and `Read` where the reader underneath answers an error.
    pub fn open(alloc: Global, bytes: R, edges: u32, most: u64) -> Result<OrderedRows<R>, RowsFault>
        ensures edges { IfOk result (λ rows. rows.edges ≡ edges) }
        ensures latest { IfOk result (λ rows. rows.latest ≡ 0) }
        ensures most { IfOk result (λ rows. rows.most ≡ most) }
        ensures ahead { IfOk result (λ rows. IfSome (R.remaining bytes) (λ xs.
            rows.ahead ≡ Some (ordered_trace_of edges most (records_of xs)))) }
        ensures refused { IfErr result (IsRefusal
            (option_map (λ xs. ordered_trace_of edges most (records_of xs)) (R.remaining bytes))) }
    {
        let (records, version) = RecordReader::open(alloc, bytes)?;
        Ok(OrderedRows {
            records,
            version,
            edges,
            most,
            number: 0,
            latest: 0,
        })
    }
}

impl<R: Read + Drop> RowSource for OrderedRows<R> {
    ghost rest = { λ rows. rows };

    fn next_row(&mut self) -> Result<Option<Row>, RowsFault> {
        let found = self.records.next(self.version, self.edges)?;
        if let Found::End = found {
            return Ok(None);
        }
        if self.number == self.most {
            return Err(RowsFault::Trace(TraceFault::TooManyRows));
        }
        let row = row_of(
            found,
            &self.records.fields,
            self.version,
            self.edges,
            self.number,
        )?;
        if row.time < self.latest {
            return Err(RowsFault::Trace(TraceFault::Order(self.number)));
        }
        self.number += 1;
        self.latest = row.time;
        Ok(Some(row))
    }
}

/// The row that was found, where something was: that of a plain line, or the one that a record writes.
#[inline(always)]
fn row_of(
    found: Found,
    fields: &ByteRecord,
    version: Version,
    edges: u32,
    number: u64,
) -> Result<Row, RowsFault>
    ensures row { IfOk result (IsRowFound version edges found (fields_of fields.now)) }
    ensures wrong { IfErr result (IsFaultFound version edges number found (fields_of fields.now)) }
{
    if let Found::Row(row) = found {
        return Ok(row);
    }
    match row_at(fields, version, edges, number) {
        Ok(row) => Ok(row),
        Err(fault) => Err(RowsFault::Trace(fault)),
    }
}

/// Reads the next record into `fields`, and answers whether there was one. Each record is given as it stands, of any length.
///
/// # Errors
///
/// `Read` where the reader underneath answers an error, and `Trace` with `Memory`. From then on it finds none.
pub fn read_record<R: Read>(
    reader: &mut Reader<R>,
    fields: &mut ByteRecord,
) -> Result<bool, RowsFault>
    requires { MayRead reader.old }
    ensures steady { MayRead reader.new }
    ensures gives { IfOk result (λ found. MatchBool found
        (Gives (records_ahead R.remaining reader.old) (fields_of fields.new)
        (records_ahead R.remaining reader.new))
        (GivesNone (records_ahead R.remaining reader.old))) }
    ensures refused { IfErr result (λ e.
        (e ≡ RowsFault.Read) ⊎ (e ≡ RowsFault.Trace fault.Memory)) }
{
    match reader.read_byte_record(fields) {
        Ok(found) => Ok(found),
        Err(error) => Err(refusal(error)),
    }
}

/// What a read was refused by that gave no record.
fn refusal(error: Error) -> RowsFault
    requires { stops_reader (error_kind error) ≡ true }
    ensures { (result ≡ RowsFault.Read) ⊎ (result ≡ RowsFault.Trace fault.Memory) }
{
    match error.into_kind() {
        ErrorKind::Io(_) => RowsFault::Read,
        ErrorKind::OutOfMemory => RowsFault::Trace(TraceFault::Memory),
        _ => unreachable!(),
    }
}
