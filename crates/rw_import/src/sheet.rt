//! What is collected of a log, one row after the other.

ghost use Rattle.std.specs.Prelude.{◌≡◌, ◌≢◌, ◌≤◌, ◌<◌, ◌+◌, ◌*◌, ◌^◌, ◌++◌, ◌∷◌, [], true, false, length, OnOk, IfErr, IfOk, Err, IfSome, All};
ghost use Rattle.rw_trace.specs.Laws.{IsRow};
ghost use Rattle.rw_trace.specs.Limits.{most_rows, latest_time};
ghost use Rattle.rw_import.specs.Log.{AreEnough, IsErrorOfLosses, all_left_out, billion, dealt_edge, edge_for, fault_at, in_time, mixed, room_for, row_for, ticks_from};
ghost use Rattle.rw_import.specs.Sheet.{AddsRow, AreCountsOf, IsCounted, IsTimely, counts_in, RefusesRow, counts_with, no_counts_yet};
ghost use Rattle.rw_import.specs.declared.fault.ImportFault.TheVariants.{Memory, TooManyRows};

use crate::entry::{Counts, Entry, LeftOut};
use crate::fault::{Flaw, ImportFault, Losses, Part};
use crate::first::FirstLeftOut;
use crate::options::{Dealing, Options};
use rw_trace::{MAX_ROWS, MAX_TIME, Row};
use std::alloc::Global;

/// Billionths of a unit of time.
const BILLION: u128 = 1_000_000_000;

/// The bits of a number mixed, by the finalizer of SplitMix64 (Steele, Lea and Flood 2014).
#[tactic(auto, unfolding(crate::specs::Log::mixed))]
fn mix(number: u64) -> u64
    ensures { result ≡ mixed number }
{
    let once = (number ^ (number >> 30)).wrapping_mul(0xbf58_476d_1ce4_e5b9);
    let twice = (once ^ (once >> 27)).wrapping_mul(0x94d0_49bb_1331_11eb);
    twice ^ (twice >> 31)
}

/// The edge that a row is dealt to.
#[tactic(auto, unfolding(crate::specs::Log::dealt_edge))]
fn deal(options: Options, place: u64, object: u64) -> u32
    ensures edge { result ≡ dealt_edge options.dealing options.edges place object }
    ensures below { result < options.edges }
{
    let edges = u64::from(options.edges);
    let edge = match options.dealing {
        Dealing::ByRow => place % edges,
        Dealing::ByObject => mix(object) % edges,
    };
    edge as u32
}

/// The ticks from the least time to a row's.
pub fn ticks_since(options: Options, least: u128, time: u128) -> u128
    requires { time < 10 ^ 29 }
    ensures { result ≡ ticks_from options.ticks least time }
{
    time.saturating_sub(least) * u128::from(options.ticks) / BILLION
}

/// The last tick at which a row of this time may stand: its own, or where rows are spread the last one of its unit.
pub fn last_tick(options: Options, least: u128, time: u128) -> u128
    requires { time < 10 ^ 29 }
    ensures { result ≡ ticks_from options.ticks least time + room_for options }
{
    let room = if options.spread { options.ticks - 1 } else { 0 };
    ticks_since(options, least, time) + u128::from(room)
}

/// One more row left out, of the rows before row `row` and it.
pub fn count(left_out: &mut LeftOut, flaw: Flaw, row: u64)
    requires within { AreCountsOf row left_out.old }
    requires few { row + 1 < 2 ^ 64 }
    ensures counted { left_out.new ≡ counts_with left_out.old flaw }
    ensures after { AreCountsOf (row + 1) left_out.new }
{
    match flaw {
        Flaw::Length => left_out.length += 1,
        Flaw::Column(_, Part::Time) => left_out.time += 1,
        Flaw::Column(_, Part::Edge) => left_out.edge += 1,
        Flaw::Column(_, Part::Object) => left_out.object += 1,
        Flaw::Column(_, Part::Size) => left_out.size += 1,
        Flaw::Column(_, Part::Kind) => left_out.kind += 1,
    }
}

/// The fault that names a row and what is wrong with it.
pub fn fault_of(row: u64, flaw: Flaw) -> ImportFault
    ensures { result ≡ fault_at row flaw }
{
    match flaw {
        Flaw::Length => ImportFault::RowLength(row),
        Flaw::Column(column, part) => ImportFault::Row(row, column, part),
    }
}

/// The rows kept so far, of how many the size was clamped, and how many were left out.
#[derive(Drop)]
pub struct Sheet {
    pub rows: Vec<Row>,
    pub clamped: u64,
    pub left_out: LeftOut,
}

/// No row left out.
pub fn no_counts() -> LeftOut
    ensures { result ≡ no_counts_yet }
{
    LeftOut {
        length: 0,
        time: 0,
        edge: 0,
        object: 0,
        size: 0,
        kind: 0,
    }
}

/// Nothing collected yet.
pub fn blank_sheet(alloc: Global) -> Sheet
    ensures rows { result.rows.items ≡ [] }
    ensures clamped { result.clamped ≡ 0 }
    ensures left_out { result.left_out ≡ no_counts_yet }
{
    Sheet {
        rows: Vec::new(alloc),
        clamped: 0,
        left_out: no_counts(),
    }
}

/// The trace's row of a kept row.
pub fn row_of_entry(options: Options, least: u128, place: u64, object: u64, entry: Entry) -> Row
    requires short { entry.time < 10 ^ 29 }
    requires within { ticks_from options.ticks least entry.time ≤ latest_time }
    ensures { result ≡ row_for options least place object entry }
{
    let edge = match entry.edge {
        Some(edge) => edge,
        None => deal(options, place, object),
    };
    Row {
        time: ticks_since(options, least, entry.time) as u64,
        edge,
        object,
        size: entry.size,
        kind: entry.kind,
    }
}

/// What a row says, where its time is within those of a trace.
pub fn timely(
    options: Options,
    least: u128,
    column: u64,
    said: Result<(Entry, u64), Flaw>,
) -> Result<(Entry, u64), Flaw>
    requires { IfOk said (λ s. s.0.time < 10 ^ 29) }
    ensures { result ≡ in_time options least column said }
{
    let (entry, object) = said?;
    if last_tick(options, least, entry.time) > u128::from(MAX_TIME) {
        return Err(Flaw::Column(column, Part::Time));
    }
    Ok((entry, object))
}

/// Keeps a row.
fn keep(
    rows: &mut Vec<Row>,
    options: Options,
    least: u128,
    object: u64,
    entry: Entry,
) -> Result<(), ImportFault>
    requires short { entry.time < 10 ^ 29 }
    requires within { ticks_from options.ticks least entry.time ≤ latest_time }
    ensures room { OnOk result (length rows.old.items < most_rows) }
    ensures kept { OnOk result (rows.new.items
        ≡ rows.old.items ++ row_for options least (length rows.old.items) object entry ∷ []) }
    ensures many { IfErr result (λ e. e ≢ Memory →
        (e ≡ TooManyRows) × (most_rows ≤ length rows.old.items)) }
{
    let place = rows.len() as u64;
    if place >= MAX_ROWS {
        return Err(ImportFault::TooManyRows);
    }
    let row = row_of_entry(options, least, place, object, entry);
    if rows.push(row).is_err() {
        return Err(ImportFault::Memory);
    }
    Ok(())
}

/// Adds the row `row` of a log.
pub fn add(
    sheet: &mut Sheet,
    options: Options,
    least: u128,
    row: u64,
    said: Result<(Entry, u64), Flaw>,
) -> Result<(), ImportFault>
    requires timely { IsTimely options least said }
    requires within { IsCounted row sheet.old }
    requires few { row + 1 < 2 ^ 64 }
    ensures adds { OnOk result (AddsRow options least sheet.old sheet.new said) }
    ensures after { OnOk result (IsCounted (row + 1) sheet.new) }
    ensures refuses { IfErr result (λ e. e ≢ Memory → RefusesRow options row sheet.old said e) }
{
    match said {
        Ok((entry, object)) => {
            keep(&mut sheet.rows, options, least, object, entry)?;
            sheet.clamped += u64::from(entry.clamped);
            Ok(())
        }
        Err(flaw) if options.strict => Err(fault_of(row, flaw)),
        Err(flaw) => {
            count(&mut sheet.left_out, flaw, row);
            Ok(())
        }
    }
}

/// What has come of the rows so far.
pub fn counts_of(sheet: &Sheet) -> Counts
    ensures { result ≡ counts_in sheet.now }
{
    Counts {
        kept: sheet.rows.len() as u64,
        clamped: sheet.clamped,
        left_out: sheet.left_out,
    }
}

/// Refuses a log of which too few rows are kept.
pub fn check_losses(
    options: Options,
    counts: Counts,
    first: Option<FirstLeftOut>,
) -> Result<(), ImportFault>
    ensures enough { OnOk result (AreEnough options counts.kept counts.left_out) }
    ensures too_few { IfErr result (λ e. IsErrorOfLosses options counts e) }
{
    let left_out = all_left_out(counts.left_out);
    let all = u128::from(counts.kept) + left_out;
    if counts.kept >= 1 && 100 * left_out <= u128::from(options.max_left_out) * all {
        return Ok(());
    }
    Err(ImportFault::TooFewKept(Losses {
        counts,
        most: options.max_left_out,
        first,
    }))
}

/// How many rows are left out in all.
pub fn all_left_out(left_out: LeftOut) -> u128
    ensures value { result ≡ all_left_out left_out }
    ensures bound { result < 6 * 2 ^ 64 }
{
    let LeftOut {
        length,
        time,
        edge,
        object,
        size,
        kind,
    } = left_out;
    u128::from(length)
        + u128::from(time)
        + u128::from(edge)
        + u128::from(object)
        + u128::from(size)
        + u128::from(kind)
}
