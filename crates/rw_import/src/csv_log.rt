//! Logs of fields: CSV, with any byte between the fields.

ghost use Rattle.std.specs.Prelude.{◌≡◌, ◌≢◌, ◌⊎◌, ◌+◌, ◌<◌, ◌^◌, ◌==◌, ℕ, [], false, true, Ok, Err, None, IfOk, IfErr, IfSome, MatchBool, OnOk, map, length, option_map};
ghost use Rattle.std.specs.List.{position, position_or_len};
ghost use Rattle.csv.specs.Records.{fields_of};
ghost use Rattle.rw_numbers.specs.Words.{Object};
ghost use Rattle.rw_trace.specs.Limits.{most_rows};
ghost use Rattle.rw_trace.specs.Trace.{trace_of};
ghost use Rattle.rw_trace.specs.Pieces.{Gives, GivesNone, MayRead, records_ahead};
ghost use Rattle.rw_trace.specs.Unread.{Steady, records_of, unread};
ghost use Rattle.rw_trace.specs.Words.{Fields, Text};
ghost use Rattle.rw_import.specs.Csv.{HaveOneNumberEach, IsCsvFault, beside, has_quotes, have_their_lines, columns_found, csv_rows, csv_rows_unspread, csv_said, csv_told, edges_of, entry_of, has_header, is_named, is_named_if, is_same_text, log_records, objects_in, place_if, place_in, places_in, record_said, record_told, rows_under};
ghost use Rattle.rw_import.specs.CsvStream.{FindsColumns, IsColumnsFault};
ghost use Rattle.rw_import.specs.Streamed.{IsOfLog};
ghost use Rattle.rw_import.specs.Log.{AreEnough, IsRowsFault, clamped_in, IsStrictlyKept, earlier, first_time, kept_in, left_out_of};
ghost use Rattle.rw_import.specs.Spread.{AreWhole, SpreadsRows};
ghost use Rattle.rw_import.specs.Sheet.{AddsRow, IsCounted, IsKeepable, IsTextSheet, IsTimely, RefusesRow, entry_in_time, texts_in, with_kept};
ghost use Rattle.rw_import.specs.Written.{BeginsWithHeader, has_purge};
ghost use Rattle.rw_import.specs.declared.layout.Places.{Places};
ghost use Rattle.rw_import.specs.declared.fault.ImportFault.TheVariants as fault;
ghost use Rattle.rw_import.specs.declared.fault.ImportFault.TheVariants.{Memory, Output};

use crate::csv_row::{field_of, has_its_lines, read_fields};
use crate::entry::{Entry, Imported};
use crate::fault::{Flaw, ImportFault, Part};
use crate::layout::{Column, Layout, Places, Quotes};
use crate::numbering::{Texts, number_of};
use crate::options::{MAX_EDGES, Options};
use crate::oracle::finish;
use crate::reading::{Reading, begin};
use crate::sheet::{Sheet, add, blank_sheet, check_losses, counts_of, last_tick};
use csv::{ByteRecord, Reader, ReaderBuilder};
use rw_progress::Progress;
use rw_trace::{MAX_TIME, RowsFault, next_record, read_record};
use std::alloc::Global;
use std::io::Read;

/// Whether a column is given by its name.
fn is_named(column: &Column) -> bool
    ensures { result ≡ is_named column.now }
{
    match column {
        Column::Named(_) => true,
        Column::At(_) => false,
    }
}

/// Whether a column that may be there is given by its name.
fn is_named_if(column: &Option<Column>) -> bool
    ensures { result ≡ is_named_if column.now }
{
    match column {
        Some(column) => is_named(column),
        None => false,
    }
}

/// Whether the log's first record is a header.
fn has_header(layout: &Layout) -> bool
    ensures { result ≡ has_header layout.now }
{
    is_named(&layout.time)
        || is_named_if(&layout.edge)
        || is_named(&layout.object)
        || is_named(&layout.size)
        || is_named_if(&layout.kind)
}

/// Where a name first stands in a header.
fn find(header: &ByteRecord, name: &[u8]) -> Option<u64>
    ensures { result ≡ position (λ field. is_same_text field name.now) (fields_of header.now) }
{
    for place in 0..header.len() as u64 {
        if field_of(header, place) == name {
            return Some(place);
        }
    }
    None
}

/// Where a column stands.
fn place_of(header: &ByteRecord, column: &Column, part: Part) -> Result<u64, ImportFault>
    ensures { result ≡ place_in (fields_of header.now) part column.now }
{
    match column {
        Column::At(place) => Ok(*place),
        Column::Named(name) => find(header, name.as_slice()).ok_or(ImportFault::NoColumn(part)),
    }
}

/// Where a column stands that may be there.
fn place_if(
    header: &ByteRecord,
    column: &Option<Column>,
    part: Part,
) -> Result<Option<u64>, ImportFault>
    ensures { result ≡ place_if (fields_of header.now) part column.now }
{
    match column {
        Some(column) => Ok(Some(place_of(header, column, part)?)),
        None => Ok(None),
    }
}

/// Where the columns stand.
#[tactic(auto, unfolding(crate::specs::Csv::places_in))]
fn places_of(header: &ByteRecord, layout: &Layout) -> Result<Places, ImportFault>
    ensures { result ≡ places_in (fields_of header.now) layout.now }
{
    let time = place_of(header, &layout.time, Part::Time)?;
    let edge = place_if(header, &layout.edge, Part::Edge)?;
    let object = place_of(header, &layout.object, Part::Object)?;
    let size = place_of(header, &layout.size, Part::Size)?;
    let kind = place_if(header, &layout.kind, Part::Kind)?;
    Ok(Places {
        time,
        whole_times: layout.whole_times,
        object,
        size,
        missing_size: layout.missing_size,
        edge,
        kind,
    })
}

/// Whether fields may be quoted.
fn has_quotes(quotes: Quotes) -> bool
    ensures { result ≡ has_quotes quotes }
{
    match quotes {
        Quotes::Plain => false,
        Quotes::OneLine | Quotes::Multiline => true,
    }
}

/// A reader of the records of a log.
pub fn open<R: Read>(alloc: Global, bytes: R, layout: &Layout) -> Reader<R>
    ensures may { MayRead result }
    ensures all { records_ahead R.remaining result
        ≡ option_map (log_records layout.now) (R.remaining bytes) }
{
    ReaderBuilder::new()
        .has_headers(false)
        .flexible(true)
        .delimiter(layout.delimiter)
        .quoting(has_quotes(layout.quotes))
        .from_reader(alloc, bytes)
}

/// Reads the next record into `fields`, and answers whether there was one.
pub fn next_fields<R: Read>(
    reader: &mut Reader<R>,
    fields: &mut ByteRecord,
) -> Result<bool, ImportFault>
    requires { MayRead reader.old }
    ensures may { MayRead reader.new }
    ensures gives { IfOk result (λ found. MatchBool found
        (Gives (records_ahead R.remaining reader.old) (fields_of fields.new)
        (records_ahead R.remaining reader.new))
        (GivesNone (records_ahead R.remaining reader.old))) }
    ensures refused { IfErr result (λ e. (e ≡ ImportFault.Read) ⊎ (e ≡ Memory)) }
{
    match read_record(reader, fields) {
        Ok(found) => Ok(found),
        Err(RowsFault::Read) => Err(ImportFault::Read),
        Err(_) => Err(ImportFault::Memory),
    }
}

/// Where the columns stand, behind the header if there is one.
#[tactic(auto, unfolding(crate::specs::Csv::columns_found, crate::specs::Csv::rows_under))]
pub fn start<R: Read>(
    reader: &mut Reader<R>,
    fields: &mut ByteRecord,
    layout: &Layout,
) -> Result<Places, ImportFault>
    requires may { MayRead reader.old }
    requires blank { fields_of fields.old ≡ [] }
    ensures may { MayRead reader.new }
    ensures found { IfOk result (λ p. FindsColumns layout.now
        (records_ahead R.remaining reader.old) p (records_ahead R.remaining reader.new)) }
    ensures header { IfOk result (λ p.
        (header : Fields) × (places_in header layout.now ≡ Ok p)) }
    ensures fault { IfErr result (λ e. IsOfLog e
        → IfSome (records_ahead R.remaining reader.old) (λ records.
        IsColumnsFault layout.now records e)) }
    ensures output { IfErr result (λ e. e ≢ Output) }
{
    if has_header(layout) {
        if !next_fields(reader, fields)? {
            return Err(ImportFault::Header);
        }
        if !has_its_lines(fields, layout.quotes) {
            return Err(ImportFault::OpenQuote(1));
        }
    }
    places_of(fields, layout)
}

/// The same of a log in memory, which can always be read, so that nothing but memory can be wanting.
fn start_in_memory(
    reader: &mut Reader<&[u8]>,
    fields: &mut ByteRecord,
    layout: &Layout,
) -> Result<Places, ImportFault>
    requires steady { Steady reader.old }
    requires blank { fields_of fields.old ≡ [] }
    ensures steady { OnOk result (Steady reader.new) }
    ensures places { IfOk result (λ p. columns_found layout.now (unread reader.old) ≡ Ok p) }
    ensures rows { OnOk result (rows_under layout.now (unread reader.old) ≡ unread reader.new) }
    ensures lines { OnOk result (have_their_lines layout.now.quotes (unread reader.old)
        ≡ have_their_lines layout.now.quotes (unread reader.new)) }
    ensures fault { IfErr result (λ e.
        e ≢ Memory → IsColumnsFault layout.now (unread reader.old) e) }
{
    match start(reader, fields, layout) {
        Ok(places) => Ok(places),
        Err(fault) => Err(in_memory(fault)),
    }
}

/// A fault of bytes in memory, which can always be read.
fn in_memory(fault: ImportFault) -> ImportFault
    ensures other { fault ≢ ImportFault.Read → result ≡ fault }
    ensures read { fault ≡ ImportFault.Read → result ≡ Memory }
{
    match fault {
        ImportFault::Read => ImportFault::Memory,
        fault => fault,
    }
}

/// The lesser of a time that may be there and that of a row.
fn lesser(least: Option<u128>, said: Result<Entry, Flaw>) -> Option<u128>
    ensures { (text : Text) → result ≡ earlier least (beside text said) }
{
    match (least, said) {
        (least, Err(_)) => least,
        (None, Ok(entry)) => Some(entry.time),
        (Some(time), Ok(entry)) => Some(time.min(entry.time)),
    }
}

/// The least time that the records left say, or 0 where none says one. Their line ends stand only where they may.
fn least_left<P: Progress>(
    reader: &mut Reader<&[u8]>,
    fields: &mut ByteRecord,
    places: Places,
    edges: u32,
    quotes: Quotes,
    reading: &mut Reading<'_, P>,
) -> Result<u128, ImportFault>
    requires { Steady reader.old }
    ensures least { IfOk result (λ t.
        t ≡ first_time (map (record_said places edges) (unread reader.old))) }
    ensures lines { OnOk result (have_their_lines quotes (unread reader.old) ≡ true) }
    ensures refused { IfErr result (λ e. (e ≡ Memory)
        ⊎ ((n : ℕ) × (e ≡ fault.OpenQuote n)
        × (have_their_lines quotes (unread reader.old) ≡ false))) }
{
    let mut least = None;
    for row in 0..u64::MAX {
        reading.come_to_record(row, reader.position());
        if !next_record(reader, fields)? {
            return Ok(least.unwrap_or(0));
        }
        if !has_its_lines(fields, quotes) {
            return Err(reading.open_quote());
        }
        least = lesser(least, read_fields(fields, places, edges));
    }
    Err(ImportFault::Memory)
}

/// The least time that a log's rows say, or 0 where none says one. The log's line ends stand only where they may.
fn first_of<P: Progress>(
    alloc: Global,
    bytes: &[u8],
    layout: &Layout,
    options: Options,
    edges: u32,
    progress: &mut P,
) -> Result<u128, ImportFault>
    requires { edges ≡ edges_of layout.now options }
    ensures least { IfOk result (λ t. t ≡ first_time (csv_said layout.now options bytes.now)) }
    ensures lines { OnOk result
        (have_their_lines layout.now.quotes (log_records layout.now bytes.now) ≡ true) }
    ensures fault { IfErr result (λ e.
        e ≢ Memory → IsColumnsFault layout.now (log_records layout.now bytes.now) e) }
{
    let mut reader = open(alloc, bytes, layout);
    let mut fields = ByteRecord::new(alloc);
    let places = start_in_memory(&mut reader, &mut fields, layout)?;
    let mut reading = Reading::new(progress, bytes, 0);
    let quotes = layout.quotes;
    least_left(
        &mut reader,
        &mut fields,
        places,
        edges,
        quotes,
        &mut reading,
    )
}

/// What a row says, its object by number, among the texts so far and its own if it is kept.
pub fn numbered(
    alloc: Global,
    texts: &mut Texts,
    text: &[u8],
    said: Result<Entry, Flaw>,
) -> Result<Result<(Entry, u64), Flaw>, ImportFault>
    ensures said { IfOk result (λ s.
        s ≡ beside (position_or_len (is_same_text text.now) (texts_in texts.old)) said) }
    ensures small { IfOk result (λ s. IfOk s (λ p. p.1 < 2 ^ 64)) }
    ensures texts { OnOk result
        (texts_in texts.new ≡ with_kept (texts_in texts.old) text.now said) }
    ensures refused { IfErr result (λ e. e ≡ Memory) }
{
    match said {
        Ok(entry) => Ok(Ok((entry, number_of(alloc, texts, text)?))),
        Err(flaw) => Ok(Err(flaw)),
    }
}

/// What the rows of a log are judged by.
#[derive(Clone, Copy)]
struct Terms {
    /// Where the columns stand.
    places: Places,
    /// How many edges the trace is for.
    edges: u32,
    options: Options,
    /// The least time of all rows.
    least: u128,
}

/// What a record says, but its object, where its time is within those of a trace.
fn judge(fields: &ByteRecord, terms: Terms) -> Result<Entry, Flaw>
    requires { terms.places.edge ≡ None → terms.options.edges ≡ terms.edges }
    ensures judged { result
        ≡ entry_in_time terms.options terms.least terms.places.time
        (entry_of terms.places terms.edges (fields_of fields.now)) }
    ensures keepable { (n : Object) → n < 2 ^ 64
        → IsKeepable terms.edges terms.options terms.least (beside n result) }
{
    let entry = read_fields(fields, terms.places, terms.edges)?;
    if last_tick(terms.options, terms.least, entry.time) > u128::from(MAX_TIME) {
        return Err(Flaw::Column(terms.places.time, Part::Time));
    }
    Ok(entry)
}

/// Adds the row `row` of a log, whose object has this text. If it is kept, its text is among the
/// texts from then on.
fn add_named(
    alloc: Global,
    texts: &mut Texts,
    sheet: &mut Sheet,
    terms: Terms,
    row: u64,
    text: &[u8],
    said: Result<Entry, Flaw>,
) -> Result<(), ImportFault>
    requires timely { (n : Object) → n < 2 ^ 64
        → IsTimely terms.options terms.least (beside n said) }
    requires within { IsCounted row sheet.old }
    requires few { row + 1 < 2 ^ 64 }
    ensures texts { OnOk result
        (texts_in texts.new ≡ with_kept (texts_in texts.old) text.now said) }
    ensures small { OnOk result
        (IfOk (beside (position_or_len (is_same_text text.now) (texts_in texts.old)) said)
        (λ s. s.1 < 2 ^ 64)) }
    ensures adds { OnOk result (AddsRow terms.options terms.least sheet.old sheet.new
        (beside (position_or_len (is_same_text text.now) (texts_in texts.old)) said)) }
    ensures after { OnOk result (IsCounted (row + 1) sheet.new) }
    ensures refuses { IfErr result (λ e. e ≢ Memory → RefusesRow terms.options row sheet.old
        (beside (position_or_len (is_same_text text.now) (texts_in texts.old)) said) e) }
{
    let numbered = numbered(alloc, texts, text, said)?;
    add(sheet, terms.options, terms.least, row, numbered)
}

/// Of the records left, those that are kept, in order, and the counts of those that are left out.
/// The texts of their objects come into `texts`, where none is yet.
fn rows_left<P: Progress>(
    alloc: Global,
    reader: &mut Reader<&[u8]>,
    fields: &mut ByteRecord,
    texts: &mut Texts,
    terms: Terms,
    reading: &mut Reading<'_, P>,
) -> Result<Sheet, ImportFault>
    requires steady { Steady reader.old }
    requires none { texts_in texts.old ≡ [] }
    requires edges { terms.places.edge ≡ None → terms.options.edges ≡ terms.edges }
    ensures sheet { IfOk result (λ s. IsTextSheet terms.edges terms.options terms.least
        (map (record_told terms.places terms.edges terms.options terms.least)
        (unread reader.old)) s) }
    ensures fault { IfErr result (λ e. e ≢ Memory → IsRowsFault terms.options
        (map (record_told terms.places terms.edges terms.options terms.least)
        (unread reader.old)) e) }
{
    let mut sheet = blank_sheet(alloc);
    for row in 0..u64::MAX {
        reading.come_to_record(row, reader.position());
        if !next_record(reader, fields)? {
            return Ok(sheet);
        }
        let judged = judge(fields, terms);
        reading.leave_out_record(
            fields,
            terms.places,
            terms.options,
            terms.least,
            judged.err(),
        );
        let text = field_of(fields, terms.places.object);
        add_named(alloc, texts, &mut sheet, terms, row, text, judged)?;
    }
    Err(ImportFault::Memory)
}

/// The rows of a log that are kept, in order, and the counts of those that are left out.
fn collect<P: Progress>(
    alloc: Global,
    bytes: &[u8],
    layout: &Layout,
    options: Options,
    edges: u32,
    least: u128,
    reading: &mut Reading<'_, P>,
) -> Result<Sheet, ImportFault>
    requires edges { edges ≡ edges_of layout.now options }
    requires least { least ≡ first_time (csv_said layout.now options bytes.now) }
    ensures sheet { IfOk result (λ s.
        IsTextSheet edges options least (csv_told layout.now options bytes.now) s) }
    ensures found { IfOk result (λ _. (p : Places)
        × (columns_found layout.now (log_records layout.now bytes.now) ≡ Ok p)) }
    ensures fault { IfErr result (λ e.
        e ≢ Memory → IsCsvFault layout.now options bytes.now e) }
{
    let mut reader = open(alloc, bytes, layout);
    let mut fields = ByteRecord::new(alloc);
    let places = start_in_memory(&mut reader, &mut fields, layout)?;
    let terms = Terms {
        places,
        edges,
        options,
        least,
    };
    let mut texts = Texts::with_hasher(alloc, layout.keys);
    rows_left(alloc, &mut reader, &mut fields, &mut texts, terms, reading)
}

/// How many edges the trace of a log is for.
pub fn edges_of(layout: &Layout, options: &Options) -> u32
    ensures { result ≡ edges_of layout.now options.now }
{
    match layout.edge {
        Some(_) => MAX_EDGES,
        None => options.edges,
    }
}

/// The trace of a log of fields, as the `csv` crate parts them, with the layout's byte between two. If a column is given
/// by its name, the first record is the header and no row. The trace is one for 256 edges where the log has a column
/// of edges, else for as many as the options have. Objects are numbered from 0 in the order in which their texts first
/// come among the rows that are kept. Where the options ask for that, rows of one time are spread within its unit; the layout asks for
/// whole times then. The log is read twice, and each different object's text is held. How many bytes are read,
/// of twice the log's, is reported to `progress`.
///
/// # Errors
///
/// `Header` where there is no header, `NoColumn` where it lacks a column, the first of time, edge, object, size and kind;
/// `OpenQuote` for the first record with a line end in a field, where the layout allows none; strict, the first row that would be
/// left out; one kept row too many for a trace, where no such row comes before it; `TooFewKept` where no row is kept, or more are left
/// out than the options allow; `Memory` where a request for memory was refused: nothing is known of the log then. Which line
/// `OpenQuote` names, and what `TooFewKept` tells of the first row left out, no clause says.
pub fn import_csv<P: Progress>(
    alloc: Global,
    bytes: &[u8],
    layout: &Layout,
    options: &Options,
    progress: &mut P,
) -> Result<Imported, ImportFault>
    ensures trace { IfOk result (λ i. trace_of (edges_of layout.now options.now) most_rows
        (records_of i.text.items) ≡ Ok (csv_rows layout.now options.now bytes.now)) }
    ensures header { IfOk result (λ i.
        BeginsWithHeader (has_purge (csv_rows layout.now options.now bytes.now)) i.text.items) }
    ensures objects { HaveOneNumberEach
        (objects_in (csv_told layout.now options.now bytes.now))
        (map (λ r. r.object) (csv_rows_unspread layout.now options.now bytes.now)) }
    ensures spread { options.now.spread ≡ true → SpreadsRows options.now.ticks
        (csv_rows_unspread layout.now options.now bytes.now)
        (csv_rows layout.now options.now bytes.now) }
    ensures whole { layout.now.whole_times ≡ true → AreWhole options.now.ticks
        (csv_rows_unspread layout.now options.now bytes.now) }
    ensures kept { IfOk result (λ i.
        i.kept ≡ length (kept_in (csv_told layout.now options.now bytes.now))) }
    ensures clamped { IfOk result (λ i.
        i.clamped ≡ clamped_in (kept_in (csv_told layout.now options.now bytes.now))) }
    ensures left_out { IfOk result (λ i.
        i.left_out ≡ left_out_of (csv_told layout.now options.now bytes.now)) }
    ensures strict { IfOk result (λ i.
        IsStrictlyKept options.now (csv_told layout.now options.now bytes.now)) }
    ensures lines { OnOk result
        (have_their_lines layout.now.quotes (log_records layout.now bytes.now) ≡ true) }
    ensures enough { IfOk result (λ i. AreEnough options.now i.kept i.left_out) }
    ensures fault { IfErr result (λ e.
        e ≢ Memory → IsCsvFault layout.now options.now bytes.now e) }
{
    let edges = edges_of(layout, options);
    begin(progress, bytes.len());
    let least = first_of(alloc, bytes, layout, *options, edges, progress)?;
    let mut reading = Reading::new(progress, bytes, bytes.len());
    let sheet = collect(alloc, bytes, layout, *options, edges, least, &mut reading)?;
    check_losses(*options, counts_of(&sheet), reading.first_left_out())?;
    finish(alloc, sheet, *options)
}
