//! The records of a trace, read one by one: plain lines by the scanner, and from the first other line on by `csv`.
ghost use Rattle.std.specs.Prelude.{◌≡◌, ◌⊎◌, IfErr, IfNone, IfOk, IfSome, MatchBool, OnOk, option_map};
ghost use Rattle.std.specs.Io.Buffered.{reader_remaining};
ghost use Rattle.std.specs.Io.Chain.{chain_remaining};
ghost use Rattle.std.specs.Io.Cursor.{cursor_remaining};
ghost use Rattle.std.specs.Io.KnownBytes.{Keeps, prepend_known};
ghost use Rattle.csv.specs.Records.{fields_of};
ghost use Rattle.rw_trace.specs.Ahead.{HasNoRecord, HasReadLine, IsFound, IsHandedOver, IsOpened, IsUnopened, MayReadOn, lines_ahead, still_ahead};
ghost use Rattle.rw_trace.specs.Laws.{WritesRow};
ghost use Rattle.rw_trace.specs.Pieces.{Gives, MayRead, records_ahead};
ghost use Rattle.rw_trace.specs.Unread.{records_of};
ghost use Rattle.rw_trace.specs.Words.{Fields};
ghost use Rattle.rw_trace.specs.declared.TraceFault.TheVariants as fault;
ghost use Rattle.rw_trace.specs.declared.record_reader.Source.TheVariants as source;

use crate::pieces::{RowsFault, read_record};
use crate::plain::{header_line, plain_row};
use crate::{Row, TraceFault, Version, version_of_header};
use csv::{ByteRecord, Reader, ReaderBuilder};
use std::alloc::Global;
use std::io::{self, BufRead, BufReader, Chain, Cursor, ErrorKind, Read};
use std::mem;

/// The length of the buffer, in bytes.
const BUFFER: usize = 1 << 16;

/// What is left of a line and the bytes behind it, as `csv` reads it.
type Records<R> = Reader<Chain<Cursor<Vec<u8>>, BufReader<R>>>;

/// Reads the records of a trace behind its header.
#[derive(Drop)]
pub struct RecordReader<R: Read + Drop> {
    alloc: Global,
    source: Source<R>,
    /// Room for a line.
    line: Vec<u8>,
    /// The record that `csv` gave last.
    pub fields: ByteRecord,
}

/// Where the records come from.
#[derive(Drop)]
enum Source<R: Read + Drop> {
    /// From the scanner: all lines so far were plain.
    Lines(BufReader<R>),
    /// From `csv`, which begins with the first line that was not plain.
    Records(Records<R>),
    /// From nowhere, while one of the others gives way to the next.
    Nothing,
}

/// What comes next.
#[derive(Clone, Copy)]
pub enum Found {
    /// A plain line, which writes this row.
    Row(Row),
    /// A record, which is in `fields`.
    Record,
    /// The end of the trace.
    End,
}

impl<R: Read + Drop> RecordReader<R> {
    /// Reads the header of the trace in the bytes of a reader.
    ///
    /// # Errors
    ///
    /// `Trace` with `Header` where there is none, or with `Memory`; and `Read` where the reader answers an error.
    pub fn open(alloc: Global, bytes: R) -> Result<(RecordReader<R>, Version), RowsFault>
        ensures opened { IfOk result (λ r.
            IsOpened (R.remaining bytes) r.1 (still_ahead R.remaining r.0.source)) }
        ensures steady { IfOk result (λ r. MayReadOn r.0.source) }
        ensures refused { IfErr result (IsUnopened (R.remaining bytes)) }
    {
        let mut reader = match BufReader::with_capacity(alloc, BUFFER, bytes) {
            Ok(reader) => reader,
            Err(error) => return Err(refusal(error)),
        };
        let mut line = Vec::new(alloc);
        read_line(&mut reader, &mut line)?;
        if let Some((version, next)) = header_line(&line)
            && next == line.len()
        {
            let records = RecordReader {
                alloc,
                source: Source::Lines(reader),
                line,
                fields: ByteRecord::new(alloc),
            };
            return Ok((records, version));
        }
        open_records(alloc, line, reader)
    }

    /// Reads what comes next. A plain line that writes no row of the version with an edge below `edges` is a record.
    ///
    /// # Errors
    ///
    /// `Read` where the reader answers an error, and `Trace` with `Memory`. What is left is not known then.
    pub fn next(&mut self, version: Version, edges: u32) -> Result<Found, RowsFault>
        requires { MayReadOn self.old.source }
        ensures steady { MayReadOn self.new.source }
        ensures found { IfOk result (λ found. IsFound version edges
            (still_ahead R.remaining self.old.source) found (fields_of self.new.fields)
            (still_ahead R.remaining self.new.source)) }
        ensures refused { IfErr result (λ e.
            (e ≡ RowsFault.Read) ⊎ (e ≡ RowsFault.Trace fault.Memory)) }
    {
        if let Source::Lines(reader) = &mut self.source {
            if let Some(row) = next_row(reader, &mut self.line, version, edges)? {
                return Ok(Found::Row(row));
            }
            if self.line.is_empty() {
                return Ok(Found::End);
            }
            self.hand_over()?;
        }
        if self.next_record()? {
            Ok(Found::Record)
        } else {
            Ok(Found::End)
        }
    }

    /// Reads the next record by `csv`, and answers whether there was one.
    fn next_record(&mut self) -> Result<bool, RowsFault>
        requires { MayReadOn self.old.source }
        ensures steady { MayReadOn self.new.source }
        ensures gives { IfOk result (λ found. MatchBool found
            (Gives (still_ahead R.remaining self.old.source) (fields_of self.new.fields)
            (still_ahead R.remaining self.new.source))
            (HasNoRecord R.remaining self.old.source)) }
        ensures refused { IfErr result (λ e.
            (e ≡ RowsFault.Read) ⊎ (e ≡ RowsFault.Trace fault.Memory)) }
    {
        match &mut self.source {
            Source::Records(reader) => read_record(reader, &mut self.fields),
            _ => Ok(false),
        }
    }

    /// Hands the line that was read, and what is left behind it, over to `csv`.
    #[inline(never)]
    fn hand_over(&mut self) -> Result<(), RowsFault>
        ensures steady { MayReadOn self.old.source → MayReadOn self.new.source }
        ensures handed { OnOk result (IsHandedOver R.remaining self.old.source self.old.line.items
            self.new.source) }
        ensures refused { IfErr result (λ e. e ≡ RowsFault.Trace fault.Memory) }
    {
        let mut front = Vec::new(self.alloc);
        // `csv` skips an empty line, and takes a byte order mark off at the start alone
        if front.push(b'\n').is_err() || front.extend_from_slice(&self.line).is_err() {
            return Err(RowsFault::Trace(TraceFault::Memory));
        }
        if let Source::Lines(reader) = mem::replace(&mut self.source, Source::Nothing) {
            self.source = Source::Records(records_behind(self.alloc, front, reader));
        }
        Ok(())
    }
}

/// The row that the next line writes, if it is plain. Otherwise the line was read into `line`, which is empty only at the end.
#[inline(always)]
fn next_row<R: Read>(
    reader: &mut BufReader<R>,
    line: &mut Vec<u8>,
    version: Version,
    edges: u32,
) -> Result<Option<Row>, RowsFault>
    ensures row { IfOk result (λ found. IfSome found (λ row. (f : Fields)
        × Gives (lines_ahead (reader_remaining R.remaining reader.old)) f
        (lines_ahead (reader_remaining R.remaining reader.new))
        × WritesRow version edges f row)) }
    ensures none { IfOk result (λ found. IfNone found (HasReadLine
        (reader_remaining R.remaining reader.old) line.new.items
        (reader_remaining R.remaining reader.new))) }
    ensures refused { IfErr result (λ e.
        (e ≡ RowsFault.Read) ⊎ (e ≡ RowsFault.Trace fault.Memory)) }
{
    if let Some(row) = row_at_hand(reader, version, edges)? {
        return Ok(Some(row));
    }
    read_line(reader, line)?;
    match plain_row(line, 0, version, edges) {
        Some((row, next)) if next == line.len() => Ok(Some(row)),
        _ => Ok(None),
    }
}

/// The row that the next line writes, if it is plain, and stands in the buffer with more bytes behind it. Otherwise nothing is read.
#[inline(always)]
fn row_at_hand<R: Read>(
    reader: &mut BufReader<R>,
    version: Version,
    edges: u32,
) -> Result<Option<Row>, RowsFault>
    ensures row { IfOk result (λ found. IfSome found (λ row. (f : Fields)
        × Gives (lines_ahead (reader_remaining R.remaining reader.old)) f
        (lines_ahead (reader_remaining R.remaining reader.new))
        × WritesRow version edges f row)) }
    ensures none { IfOk result (λ found. IfNone found (Keeps
        (reader_remaining R.remaining reader.old) (reader_remaining R.remaining reader.new))) }
    ensures refused { IfErr result (λ e.
        (e ≡ RowsFault.Read) ⊎ (e ≡ RowsFault.Trace fault.Memory)) }
{
    let bytes = match reader.fill_buf() {
        Ok(bytes) => bytes,
        Err(error) => return Err(refusal(error)),
    };
    match plain_row(bytes, 0, version, edges) {
        Some((row, next)) if next < bytes.len() => {
            reader.consume(next);
            Ok(Some(row))
        }
        _ => Ok(None),
    }
}

/// Reads a line with its end into `line`, which is empty only at the end.
fn read_line<R: Read>(reader: &mut BufReader<R>, line: &mut Vec<u8>) -> Result<(), RowsFault>
    ensures read { OnOk result (HasReadLine (reader_remaining R.remaining reader.old)
        line.new.items (reader_remaining R.remaining reader.new)) }
    ensures refused { IfErr result (λ e.
        (e ≡ RowsFault.Read) ⊎ (e ≡ RowsFault.Trace fault.Memory)) }
{
    line.clear();
    match reader.read_until(b'\n', line) {
        Ok(_) => Ok(()),
        Err(error) => Err(refusal(error)),
    }
}

/// Reads the header from this first line and what is left behind it, by `csv`.
#[inline(never)]
fn open_records<R: Read + Drop>(
    alloc: Global,
    line: Vec<u8>,
    rest: BufReader<R>,
) -> Result<(RecordReader<R>, Version), RowsFault>
    ensures opened { IfOk result (λ r.
        IsOpened (prepend_known line.items (reader_remaining R.remaining rest)) r.1
        (still_ahead R.remaining r.0.source)) }
    ensures steady { IfOk result (λ r. MayReadOn r.0.source) }
    ensures refused { IfErr result
        (IsUnopened (prepend_known line.items (reader_remaining R.remaining rest))) }
{
    let mut reader = records_behind(alloc, line, rest);
    let mut fields = ByteRecord::new(alloc);
    if !read_record(&mut reader, &mut fields)? {
        return Err(RowsFault::Trace(TraceFault::Header));
    }
    let Some(version) = version_of_header(&fields) else {
        return Err(RowsFault::Trace(TraceFault::Header));
    };
    let records = RecordReader {
        alloc,
        source: Source::Records(reader),
        line: Vec::new(alloc),
        fields,
    };
    Ok((records, version))
}

/// `csv` over these bytes and what is left behind them.
fn records_behind<R: Read>(alloc: Global, front: Vec<u8>, rest: BufReader<R>) -> Records<R>
    ensures steady { MayRead result }
    ensures ahead { records_ahead
        (chain_remaining (cursor_remaining (λ v. Some v.items)) (reader_remaining R.remaining))
        result
        ≡ option_map records_of (prepend_known front.items (reader_remaining R.remaining rest)) }
{
    ReaderBuilder::new()
        .has_headers(false)
        .flexible(true)
        .from_reader(alloc, Cursor::new(front).chain(rest))
}

/// What a failed read of bytes is told as.
fn refusal(error: io::Error) -> RowsFault
    ensures { (result ≡ RowsFault.Read) ⊎ (result ≡ RowsFault.Trace fault.Memory) }
{
    match error.kind() {
        ErrorKind::OutOfMemory => RowsFault::Trace(TraceFault::Memory),
        _ => RowsFault::Read,
    }
}
