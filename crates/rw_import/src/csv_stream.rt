//! Logs of fields whose trace is written as they are read.

ghost use Rattle.std.specs.Prelude.{◌≡◌, ◌≢◌, ◌↔◌, ◌⊎◌, [], false, true, Err, IfErr, IfNone, IfOk, IfSome, List, None, Ok, OnOk, length, map, option_map};
ghost use Rattle.rw_trace.specs.Pieces.{GivesNone, MayRead, RiseFrom, records_ahead};
ghost use Rattle.rw_trace.specs.Words.{Fields};
ghost use Rattle.rw_trace.specs.declared.Row.{Row};
ghost use Rattle.rw_import.specs.Csv.{HaveOneNumberEach, edges_of, have_their_lines, log_records, objects_in, places_in};
ghost use Rattle.rw_import.specs.CsvStream.{FindsColumns, HasReadCsv, IsColumnsFault, IsRecordsFault, IsUnread, ReadsLines, TellsRecord};
ghost use Rattle.rw_import.specs.Log.{AreEnough, IsStrictlyKept, clamped_in, kept_in, left_out_of};
ghost use Rattle.rw_import.specs.Sheet.{texts_in};
ghost use Rattle.rw_import.specs.Stream.{HasSentWhole, IsFresh};
ghost use Rattle.rw_import.specs.Streamed.{CountsFailure, GainsNoTrace, GainsTrace, IsCsvRefusal, IsOfLog, csv_rows_since, csv_told_since, names_kinds};
ghost use Rattle.rw_import.specs.declared.fault.ImportFault.TheVariants.{Memory, Output};

use crate::csv_log::{edges_of, next_fields, numbered, open, start};
use crate::csv_row::{field_of, has_its_lines, read_fields};
use crate::entry::{Counts, Entry};
use crate::fault::{Flaw, ImportFault};
use crate::layout::{Layout, Places, Quotes};
use crate::numbering::Texts;
use crate::options::{Options, Streaming};
use crate::reading::Reading;
use crate::stream::{
    Stream, add_line, empty_stream, end_stream, judge_since, judge_stream, send_full,
};
use csv::{ByteRecord, Reader};
use rw_progress::Progress;
use rw_report::Out;
use std::alloc::Global;
use std::io::{Read, Write};

/// A log of fields that is read record by record.
#[derive(Drop)]
pub struct Log<R> {
    pub reader: Reader<R>,
    /// Room for a record.
    pub fields: ByteRecord,
    /// The texts of the objects of the rows that are kept.
    pub texts: Texts,
    /// Where the columns stand.
    pub places: Places,
    /// How many edges the trace is for.
    pub edges: u32,
    /// What a double quote is.
    pub quotes: Quotes,
    pub alloc: Global,
}

/// The log behind its header, if it has one.
fn open_log<R: Read + Drop>(
    alloc: Global,
    bytes: R,
    layout: &Layout,
    edges: u32,
) -> Result<Log<R>, ImportFault>
    ensures may { IfOk result (λ log. MayRead log.reader) }
    ensures found { IfOk result (λ log. FindsColumns layout.now
        (option_map (log_records layout.now) (R.remaining bytes)) log.places
        (records_ahead R.remaining log.reader)) }
    ensures header { IfOk result (λ log.
        (header : Fields) × (places_in header layout.now ≡ Ok log.places)) }
    ensures texts { IfOk result (λ log. texts_in log.texts ≡ []) }
    ensures edges { IfOk result (λ log. log.edges ≡ edges) }
    ensures quotes { IfOk result (λ log. log.quotes ≡ layout.now.quotes) }
    ensures fault { IfErr result (λ e. IsOfLog e → IfSome (R.remaining bytes) (λ xs.
        IsColumnsFault layout.now (log_records layout.now xs) e)) }
    ensures output { IfErr result (λ e. e ≢ Output) }
{
    let mut reader = open(alloc, bytes, layout);
    let mut fields = ByteRecord::new(alloc);
    let places = start(&mut reader, &mut fields, layout)?;
    Ok(Log {
        reader,
        fields,
        texts: Texts::with_hasher(alloc, layout.keys),
        places,
        edges,
        quotes: layout.quotes,
        alloc,
    })
}

/// What becomes of the next record, its object by number, if there is one.
fn next_told<R: Read + Drop, P: Progress>(
    log: &mut Log<R>,
    options: Options,
    epoch: &mut Option<u128>,
    reading: &mut Reading<'_, P>,
) -> Result<Option<Result<(Entry, u64), Flaw>>, ImportFault>
    requires { MayRead log.old.reader }
    ensures may { MayRead log.new.reader }
    ensures places { log.new.places ≡ log.old.places }
    ensures edges { log.new.edges ≡ log.old.edges }
    ensures quotes { log.new.quotes ≡ log.old.quotes }
    ensures lines { IfOk result (λ next. IfSome next (λ _.
        ReadsLines R.remaining log.old.quotes log.old.reader log.new.reader true)) }
    ensures none { IfOk result (λ next. IfNone next
        (GivesNone (records_ahead R.remaining log.old.reader) × (epoch.new ≡ epoch.old))) }
    ensures some { IfOk result (λ next. IfSome next
        (TellsRecord R.remaining options log.old log.new epoch.old epoch.new)) }
    ensures refused { IfErr result
        (IsUnread R.remaining log.old.quotes log.old.reader log.new.reader) }
{
    if !next_fields(&mut log.reader, &mut log.fields)? {
        return Ok(None);
    }
    if !has_its_lines(&log.fields, log.quotes) {
        return Err(reading.open_quote());
    }
    let said = read_fields(&log.fields, log.places, log.edges);
    let judged = judge_since(epoch, options, log.places.time, said);
    let first = epoch.unwrap_or(0);
    reading.leave_out_record(&log.fields, log.places, options, first, judged.err());
    let text = field_of(&log.fields, log.places.object);
    let told = numbered(log.alloc, &mut log.texts, text, judged)?;
    Ok(Some(told))
}

/// Reads the rows of a log and writes those that are kept.
fn stream_rows<R: Read + Drop, W: Write, P: Progress>(
    log: &mut Log<R>,
    options: Options,
    stream: &mut Stream,
    reading: &mut Reading<'_, P>,
    out: &mut Out<W>,
) -> Result<(), ImportFault>
    requires may { MayRead log.old.reader }
    requires texts { texts_in log.old.texts ≡ [] }
    requires edges { log.old.places.edge ≡ None → options.edges ≡ log.old.edges }
    requires kinds { stream.old.kinds ≡ false → log.old.places.kind ≡ None }
    requires fresh { IsFresh stream.old }
    ensures read { OnOk result (HasReadCsv R.remaining options log.old
        (W.contents out.old.writer) (W.contents out.new.writer) stream.old stream.new) }
    ensures lines { OnOk result (IfSome (records_ahead R.remaining log.old.reader) (λ all.
        have_their_lines log.old.quotes all ≡ true)) }
    ensures fault { IfErr result (λ e. IsOfLog e
        → IfSome (records_ahead R.remaining log.old.reader) (λ all.
        IsRecordsFault log.old options stream.old.epoch all e)) }
    ensures cut_off { IfErr result (λ e. e ≢ Output → HasSentWhole log.old.edges stream.new.begun
        stream.old.kinds (W.contents out.old.writer) (W.contents out.new.writer)) }
    ensures failures { CountsFailure result out.old.failures out.new.failures }
{
    for row in 0..u64::MAX {
        reading.come_to_record(row, log.reader.position());
        let Some(told) = next_told(log, options, &mut stream.epoch, reading)? else {
            return Ok(());
        };
        add_line(stream, options, row, told)?;
        send_full(stream, reading, out)?;
    }
    Err(ImportFault::Memory)
}

/// Writes the trace of a log of fields as it reads the log, once. What its rows mean is as in [`import_csv`](crate::import_csv),
/// but tick 0 is the epoch that `streaming` has, or the time of the first row that says one; a row of an earlier time is left
/// out, as one past the latest of a trace is; and the rows that are kept have to stand in order of the log's time. The
/// trace's header has the kind where the layout has a column of kinds.
///
/// It needs memory for the text of each different object, and no more for a longer log. How many bytes are read is
/// reported to `progress`; who knows how many there are tells it before.
///
/// # Errors
///
/// `Header` and `NoColumn` as [`import_csv`](crate::import_csv) answers them. Then the first row that is refused: `OpenQuote` for one
/// with a line end in a field, where the layout allows none; strict, one that would be left out; `TooManyRows` for one kept row too
/// many; `Order` for one that is before the kept row in front of it. At the end of the log `TooFewKept`, as `import_csv` answers it.
/// `Read` where the reader answers an error, and `Memory`. Nothing was written where all that was to be written is less than 64
/// KiB, or else the last line that was written is `fault`, so that what went out is no trace. `Output` exactly where the
/// writer failed, and nothing was tried after that.
pub fn stream_csv<R: Read + Drop, W: Write, P: Progress>(
    alloc: Global,
    log: R,
    layout: &Layout,
    streaming: &Streaming,
    progress: &mut P,
    out: &mut Out<W>,
) -> Result<Counts, ImportFault>
    requires { streaming.now.options.spread ≡ false }
    ensures trace { IfOk result (λ _. IfSome (R.remaining log) (λ bytes. GainsTrace
        (edges_of layout.now streaming.now.options) (names_kinds layout.now)
        (csv_rows_since layout.now streaming.now bytes)
        (W.contents out.old.writer) (W.contents out.new.writer))) }
    ensures rising { IfOk result (λ _. IfSome (R.remaining log) (λ bytes.
        RiseFrom 0 (csv_rows_since layout.now streaming.now bytes))) }
    ensures objects { IfSome (R.remaining log) (λ bytes. HaveOneNumberEach
        (objects_in (csv_told_since layout.now streaming.now bytes))
        (map (λ r. r.object) (csv_rows_since layout.now streaming.now bytes))) }
    ensures kept { IfOk result (λ counts. IfSome (R.remaining log) (λ bytes.
        counts.kept ≡ length (kept_in (csv_told_since layout.now streaming.now bytes)))) }
    ensures clamped { IfOk result (λ counts. IfSome (R.remaining log) (λ bytes.
        counts.clamped ≡ clamped_in (kept_in (csv_told_since layout.now streaming.now bytes)))) }
    ensures left_out { IfOk result (λ counts. IfSome (R.remaining log) (λ bytes.
        counts.left_out ≡ left_out_of (csv_told_since layout.now streaming.now bytes))) }
    ensures lines { IfOk result (λ _. IfSome (R.remaining log) (λ bytes.
        have_their_lines layout.now.quotes (log_records layout.now bytes) ≡ true)) }
    ensures enough { IfOk result (λ counts.
        AreEnough streaming.now.options counts.kept counts.left_out) }
    ensures strict { IfOk result (λ _. IfSome (R.remaining log) (λ bytes. IsStrictlyKept
        streaming.now.options (csv_told_since layout.now streaming.now bytes))) }
    ensures any { IfOk result (λ _. (rows : List Row) × RiseFrom 0 rows
        × GainsTrace (edges_of layout.now streaming.now.options) (names_kinds layout.now) rows
        (W.contents out.old.writer) (W.contents out.new.writer)) }
    ensures fault { IfErr result (λ e. IsOfLog e → IfSome (R.remaining log) (λ bytes.
        IsCsvRefusal layout.now streaming.now bytes e)) }
    ensures cut_off { IfErr result (λ e. e ≢ Output
        → GainsNoTrace (W.contents out.old.writer) (W.contents out.new.writer)) }
    ensures output { (result ≡ Err Output) ↔ (out.new.failures ≢ out.old.failures) }
{
    let edges = edges_of(layout, &streaming.options);
    let mut stream = empty_stream(alloc, streaming.epoch, layout.kind.is_some())?;
    let mut log = open_log(alloc, log, layout, edges)?;
    let mut reading = Reading::new(progress, &[], 0);
    let read = stream_rows(&mut log, streaming.options, &mut stream, &mut reading, out);
    let read = judge_stream(read, &stream, streaming.options, reading.first_left_out());
    reading.about_to_write();
    end_stream(read, stream, out)
}
