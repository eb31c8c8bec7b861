//! Logs in the oracle-general format: records of 24 bytes, each number with its lowest byte first.

ghost use Rattle.std.specs.Prelude.{◌≡◌, ◌≢◌, ◌<◌, ◌≤◌, ◌*◌, ◌^◌, All, OnOk, length, true, IfOk, IfErr, Ok, None, map};
ghost use Rattle.rw_trace.specs.Limits.{latest_time, most_rows};
ghost use Rattle.rw_trace.specs.Trace.{trace_of};
ghost use Rattle.rw_trace.specs.Unread.{records_of};
ghost use Rattle.rw_import.specs.Log.{AreEnough, IsRowsFault, clamped_in, IsStrictlyKept, earlier, first_time, kept_in, left_out_of};
ghost use Rattle.rw_import.specs.Oracle.{judged_all, judged_at, oracle_rows, oracle_rows_unspread, oracle_said, oracle_told, piece_at, piece_count, piece_said};
ghost use Rattle.rw_import.specs.Spread.{AreWhole, SpreadsRows, spread_if};
ghost use Rattle.rw_import.specs.Sheet.{IsKeepable, IsSheetOf, IsTimely};
ghost use Rattle.rw_import.specs.Written.{BeginsWithHeader, WritesTrace, has_purge};
ghost use Rattle.rw_import.specs.declared.fault.ImportFault.TheVariants.{Memory};

use crate::entry::{Counts, Entry, Imported};
use crate::fault::{Flaw, ImportFault, Part};
use crate::options::Options;
use crate::reading::{Reading, begin};
use crate::sheet::{Sheet, add, blank_sheet, check_losses, counts_of, timely};
use crate::spreading::{crowded, spread};
use crate::text::write_trace;
use byteorder::{ByteOrder, LittleEndian};
use rw_progress::Progress;
use rw_trace::{Kind, Row};
use std::alloc::{AllocError, Global};

/// The bytes of a record.
pub const PIECE: usize = 24;

/// What a record says.
#[tactic(auto, unfolding(crate::specs::Oracle::piece_said))]
pub fn read_piece(piece: &[u8]) -> Result<(Entry, u64), Flaw>
    ensures said { result ≡ piece_said piece.now }
    ensures short { IfOk result (λ s. s.0.time < 10 ^ 29) }
    ensures edge { IfOk result (λ s. s.0.edge ≡ None) }
    ensures some { IfOk result (λ s. 1 ≤ s.0.size) }
    ensures few { IfOk result (λ s. s.0.size < 2 ^ 32) }
    ensures get { IfOk result (λ s. s.0.kind ≡ Kind.Get) }
    ensures object { IfOk result (λ s. s.1 < 2 ^ 64) }
{
    if piece.len() < PIECE {
        return Err(Flaw::Length);
    }
    let size = LittleEndian::read_u32(&piece[12..]);
    if size == 0 {
        return Err(Flaw::Column(2, Part::Size));
    }
    let time = LittleEndian::read_u32(piece);
    let entry = Entry {
        time: u128::from(time) * 1_000_000_000,
        edge: None,
        size: u64::from(size),
        clamped: false,
        kind: Kind::Get,
    };
    Ok((entry, LittleEndian::read_u64(&piece[4..])))
}

/// The record at a place.
fn piece(bytes: &[u8], at: usize) -> &[u8]
    requires { at < piece_count bytes.now }
    ensures { result.now ≡ piece_at bytes.now at }
{
    let start = at * PIECE;
    let end = bytes.len().min(start + PIECE);
    &bytes[start..end]
}

/// How many records there are, with one that is cut off.
fn count_pieces(bytes: &[u8]) -> usize
    ensures { result ≡ piece_count bytes.now }
{
    let whole = bytes.len() / PIECE;
    if bytes.len() % PIECE == 0 {
        whole
    } else {
        whole + 1
    }
}

/// The lesser of a time that may be there and that of a row.
fn earlier_of(least: Option<u128>, said: Result<(Entry, u64), Flaw>) -> Option<u128>
    ensures { result ≡ earlier least said }
{
    match (least, said) {
        (least, Err(_)) => least,
        (None, Ok((entry, _))) => Some(entry.time),
        (Some(time), Ok((entry, _))) => Some(time.min(entry.time)),
    }
}

/// The least time that records say, or 0 where none says one.
fn least_time(bytes: &[u8]) -> u128
    ensures { result ≡ first_time (oracle_said bytes.now) }
{
    let mut least = None;
    for at in 0..count_pieces(bytes) {
        least = earlier_of(least, read_piece(piece(bytes, at)));
    }
    least.unwrap_or(0)
}

/// What becomes of the record at a place.
fn judge(bytes: &[u8], at: usize, options: Options, least: u128) -> Result<(Entry, u64), Flaw>
    requires { at < piece_count bytes.now }
    ensures judged { result ≡ judged_at options least bytes.now at }
    ensures keepable { IsKeepable options.edges options least result }
    ensures timely { IsTimely options least result }
{
    timely(options, least, 0, read_piece(piece(bytes, at)))
}

/// The records that are kept, in order, and the counts of those that are left out.
fn collect<P: Progress>(
    alloc: Global,
    bytes: &[u8],
    options: Options,
    least: u128,
    reading: &mut Reading<'_, P>,
) -> Result<Sheet, ImportFault>
    ensures sheet { IfOk result (λ s.
        IsSheetOf (λ n. n) options.edges options least (judged_all options least bytes.now) s) }
    ensures fault { IfErr result (λ e.
        e ≢ Memory → IsRowsFault options (judged_all options least bytes.now) e) }
{
    let mut sheet = blank_sheet(alloc);
    for at in 0..count_pieces(bytes) {
        reading.come_to(at as u64, (at * PIECE) as u64);
        let judged = judge(bytes, at, options, least);
        reading.leave_out_piece(at as u64, options, judged.err());
        add(&mut sheet, options, least, at as u64, judged)?;
    }
    Ok(sheet)
}

/// Spreads rows, where the options ask for that.
fn spread_rows(alloc: Global, rows: &mut Vec<Row>, options: Options) -> Result<(), AllocError>
    requires { All (λ r. r.time ≤ latest_time) rows.old.items }
    ensures { OnOk result (rows.new.items ≡ spread_if options rows.old.items) }
{
    if options.spread {
        spread(alloc, rows, options.ticks)?;
    }
    Ok(())
}

/// Whether rows stand in order of time.
fn are_rising(rows: &[Row]) -> bool {
    for at in 1..rows.len() {
        if rows[at].time < rows[at - 1].time {
            return false;
        }
    }
    true
}

/// How many rows have the time and the object of another one that they would not have if they were spread: 0 where they are spread, or where
/// times are no whole units of more than one tick.
fn crowded_units(alloc: Global, rows: &[Row], options: Options) -> Result<u64, AllocError> {
    let ticks = options.ticks;
    if options.spread || ticks == 1 || rows.iter().any(|row| row.time % ticks != 0) {
        return Ok(0);
    }
    if !are_rising(rows) {
        return crowded(alloc, rows);
    }
    // The rows of one time stand side by side, so that few have to be held at once.
    let mut crowded_rows: u64 = 0;
    let mut from = 0;
    for at in 0..rows.len() {
        let ends = rows
            .get(at + 1)
            .is_none_or(|next| next.time != rows[at].time);
        if ends {
            let run = rows.get(from..at + 1).unwrap_or(&[]);
            crowded_rows = crowded_rows.saturating_add(crowded(alloc, run)?);
            from = at + 1;
        }
    }
    Ok(crowded_rows)
}

/// The trace of what was collected, and spread where the options ask for that.
pub fn finish(alloc: Global, mut sheet: Sheet, options: Options) -> Result<Imported, ImportFault>
    requires { All (λ r. r.time ≤ latest_time) sheet.rows.items }
    ensures trace { IfOk result (λ i. WritesTrace most_rows i.text.items
        (spread_if options sheet.rows.items)) }
    ensures header { IfOk result (λ i. BeginsWithHeader
        (has_purge (spread_if options sheet.rows.items)) i.text.items) }
    ensures kept { IfOk result (λ i. i.kept ≡ length sheet.rows.items) }
    ensures clamped { IfOk result (λ i. i.clamped ≡ sheet.clamped) }
    ensures left_out { IfOk result (λ i. i.left_out ≡ sheet.left_out) }
    ensures refused { IfErr result (λ e. e ≡ Memory) }
{
    let Counts {
        kept,
        clamped,
        left_out,
    } = counts_of(&sheet);
    let crowded = crowded_units(alloc, &sheet.rows, options)?;
    spread_rows(alloc, &mut sheet.rows, options)?;
    match write_trace(alloc, &sheet.rows) {
        Ok(text) => Ok(Imported {
            text,
            crowded,
            kept,
            clamped,
            left_out,
        }),
        Err(_) => Err(ImportFault::Memory),
    }
}

/// The trace of a log in the oracle-general format: records of 24 bytes, the lowest byte of each number first, with a
/// time in 4 bytes, an object in 8, a size in 4 and 8 bytes that are not used. All rows are gets, and the trace is one
/// for as many edges as the options have. The log is read twice. How many bytes are read, of twice the log's, is reported to
/// `progress`.
///
/// # Errors
///
/// Strict, the first row that would be left out; one kept row too many for a trace, where no such row comes before it; `TooFewKept`
/// where no row is kept, or more are left out than the options allow; `Memory` where a request for memory was refused: nothing is
/// known of the log then.
pub fn import_oracle<P: Progress>(
    alloc: Global,
    bytes: &[u8],
    options: &Options,
    progress: &mut P,
) -> Result<Imported, ImportFault>
    ensures trace { IfOk result (λ i. trace_of options.now.edges most_rows
        (records_of i.text.items) ≡ Ok (oracle_rows options.now bytes.now)) }
    ensures header { IfOk result (λ i.
        BeginsWithHeader (has_purge (oracle_rows options.now bytes.now)) i.text.items) }
    ensures objects { map (λ r. r.object) (oracle_rows_unspread options.now bytes.now)
        ≡ map (λ s. s.1) (kept_in (oracle_told options.now bytes.now)) }
    ensures spread { options.now.spread ≡ true → SpreadsRows options.now.ticks
        (oracle_rows_unspread options.now bytes.now) (oracle_rows options.now bytes.now) }
    ensures whole { AreWhole options.now.ticks (oracle_rows_unspread options.now bytes.now) }
    ensures kept { IfOk result (λ i.
        i.kept ≡ length (kept_in (oracle_told options.now bytes.now))) }
    ensures clamped { IfOk result (λ i.
        i.clamped ≡ clamped_in (kept_in (oracle_told options.now bytes.now))) }
    ensures left_out { IfOk result (λ i.
        i.left_out ≡ left_out_of (oracle_told options.now bytes.now)) }
    ensures enough { IfOk result (λ i. AreEnough options.now i.kept i.left_out) }
    ensures strict { IfOk result (λ i.
        IsStrictlyKept options.now (oracle_told options.now bytes.now)) }
    ensures fault { IfErr result (λ e.
        e ≢ Memory → IsRowsFault options.now (oracle_told options.now bytes.now) e) }
{
    begin(progress, bytes.len());
    let least = least_time(bytes);
    let mut reading = Reading::new(progress, bytes, bytes.len());
    let sheet = collect(alloc, bytes, *options, least, &mut reading)?;
    check_losses(*options, counts_of(&sheet), reading.first_left_out())?;
    finish(alloc, sheet, *options)
}
