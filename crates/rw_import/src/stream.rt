//! A trace that is written as its log is read.

ghost use Rattle.std.specs.Prelude.{◌≡◌, ◌≢◌, ◌≤◌, ◌<◌, ◌+◌, ◌^◌, ◌++◌, ◌⊎◌, [], ℕ, false, IfErr, IfOk, IsOk, OnOk, Err, Ok, unwrap_or};
ghost use Rattle.std.specs.Io.KnownBytes.{Appends};
ghost use Rattle.rw_trace.specs.Words.{Text};
ghost use Rattle.rw_import.specs.Csv.{beside};
ghost use Rattle.rw_import.specs.Log.{AreEnough, IsErrorOfLosses};
ghost use Rattle.rw_import.specs.Sheet.{IsTimely};
ghost use Rattle.rw_import.specs.Stream.{AddsLine, AreLinesCounted, counts_so_far, IsFresh, RefusesLine, SendsAll, SendsAllOrNone, entry_since, fault_line};
ghost use Rattle.rw_import.specs.Streamed.{CountsFailure, CountsFault, is_timely, or_said};
ghost use Rattle.rw_import.specs.declared.fault.ImportFault.TheVariants.{Memory, Output};
ghost use Rattle.rw_numbers.specs.Words.{Object};

use crate::entry::{Counts, Entry, LeftOut};
use crate::fault::{Flaw, ImportFault, Part};
use crate::first::FirstLeftOut;
use crate::options::Options;
use crate::reading::Reading;
use crate::sheet::{check_losses, count, fault_of, no_counts, row_of_entry, ticks_since};
use crate::text::{header, push_row};
use rw_progress::Progress;
use rw_report::Out;
use rw_trace::{MAX_STREAMED_ROWS, MAX_TIME};
use std::alloc::Global;
use std::io::Write;

/// How many bytes go out at a time, or somewhat more.
const CHUNK: usize = 1 << 16;

/// More bytes than a line has.
const LINE: usize = 128;

/// What the rows of a log have come to so far.
#[derive(Drop)]
pub struct Stream {
    /// The lines of the trace that have not gone out.
    pub text: Vec<u8>,
    /// Whether lines name their kinds.
    pub kinds: bool,
    /// Whether lines have gone out.
    pub begun: bool,
    /// The log time that is tick 0, once it is known.
    pub epoch: Option<u128>,
    /// The log time of the last kept row, or 0.
    pub latest: u128,
    /// How many rows were kept.
    pub kept: u64,
    /// Of how many of these the size was clamped.
    pub clamped: u64,
    /// How many rows were left out.
    pub left_out: LeftOut,
}

/// The stream of no rows yet.
pub fn empty_stream(alloc: Global, epoch: Option<u128>, kinds: bool) -> Result<Stream, ImportFault>
    ensures fresh { IfOk result IsFresh }
    ensures kinds { IfOk result (λ s. s.kinds ≡ kinds) }
    ensures epoch { IfOk result (λ s. s.epoch ≡ epoch) }
    ensures refused { IfErr result (λ e. e ≡ Memory) }
{
    let mut text = Vec::with_capacity(alloc, CHUNK + LINE)?;
    text.extend_from_slice(header(kinds))?;
    Ok(Stream {
        text,
        kinds,
        begun: false,
        epoch,
        latest: 0,
        kept: 0,
        clamped: 0,
        left_out: no_counts(),
    })
}

/// Whether a time is one of a trace that begins at the epoch.
fn is_timely(options: Options, epoch: u128, time: u128) -> bool
    requires { time < 10 ^ 29 }
    ensures { result ≡ is_timely options.ticks epoch time }
{
    epoch <= time && ticks_since(options, epoch, time) <= u128::from(MAX_TIME)
}

/// What a row says but its object, where its time is one of the trace. Where the epoch is not known, it is the row's time.
pub fn judge_since(
    epoch: &mut Option<u128>,
    options: Options,
    column: u64,
    said: Result<Entry, Flaw>,
) -> Result<Entry, Flaw>
    requires { IfOk said (λ e. e.time < 10 ^ 29) }
    ensures epoch { (object : Object) → epoch.new ≡ or_said epoch.old (beside object said) }
    ensures judged { result ≡ entry_since options.ticks (unwrap_or epoch.new 0) column said }
{
    let entry = said?;
    let first = epoch.unwrap_or(entry.time);
    *epoch = Some(first);
    if is_timely(options, first, entry.time) {
        Ok(entry)
    } else {
        Err(Flaw::Column(column, Part::Time))
    }
}

/// Keeps the row `row` of a log.
fn keep_line(
    stream: &mut Stream,
    options: Options,
    row: u64,
    object: u64,
    entry: Entry,
) -> Result<(), ImportFault>
    requires timely { IsTimely options (unwrap_or stream.old.epoch 0) (Ok (entry, object)) }
    requires within { AreLinesCounted row stream.old }
    requires few { row + 1 < 2 ^ 64 }
    ensures adds { OnOk result (AddsLine options stream.old stream.new (Ok (entry, object))) }
    ensures refuses { IfErr result (λ e.
        e ≢ Memory → RefusesLine options row stream.old (Ok (entry, object)) e) }
    ensures begun { stream.new.begun ≡ stream.old.begun }
{
    if stream.kept >= MAX_STREAMED_ROWS {
        return Err(ImportFault::TooManyRows);
    }
    if entry.time < stream.latest {
        return Err(ImportFault::Order(row));
    }
    let epoch = stream.epoch.unwrap_or(0);
    let line = row_of_entry(options, epoch, stream.kept, object, entry);
    push_row(&mut stream.text, &line, stream.kinds)?;
    stream.kept += 1;
    stream.clamped += u64::from(entry.clamped);
    stream.latest = entry.time;
    Ok(())
}

/// Adds the row `row` of a log, of which this becomes.
pub fn add_line(
    stream: &mut Stream,
    options: Options,
    row: u64,
    told: Result<(Entry, u64), Flaw>,
) -> Result<(), ImportFault>
    requires timely { IsTimely options (unwrap_or stream.old.epoch 0) told }
    requires within { AreLinesCounted row stream.old }
    requires few { row + 1 < 2 ^ 64 }
    ensures adds { OnOk result (AddsLine options stream.old stream.new told) }
    ensures after { OnOk result (AreLinesCounted (row + 1) stream.new) }
    ensures refuses { IfErr result (λ e. e ≢ Memory → RefusesLine options row stream.old told e) }
    ensures begun { stream.new.begun ≡ stream.old.begun }
{
    match told {
        Ok((entry, object)) => keep_line(stream, options, row, object, entry),
        Err(flaw) if options.strict => Err(fault_of(row, flaw)),
        Err(flaw) => {
            count(&mut stream.left_out, flaw, row);
            Ok(())
        }
    }
}

/// Writes the lines that wait.
fn send<W: Write>(stream: &mut Stream, out: &mut Out<W>) -> Result<(), ImportFault>
    ensures sent { OnOk result (SendsAll (W.contents out.old.writer) (W.contents out.new.writer)
        stream.old stream.new) }
    ensures failed { IfErr result (λ e. e ≡ Output) }
    ensures failures { CountsFailure result out.old.failures out.new.failures }
{
    stream.begun = true;
    if !out.write_text(stream.text.as_slice()) {
        return Err(ImportFault::Output);
    }
    stream.text.clear();
    Ok(())
}

/// Writes the lines that wait, where these are as many bytes as go out at a time.
pub fn send_full<W: Write, P: Progress>(
    stream: &mut Stream,
    reading: &mut Reading<'_, P>,
    out: &mut Out<W>,
) -> Result<(), ImportFault>
    ensures sent { OnOk result (SendsAllOrNone (W.contents out.old.writer)
        (W.contents out.new.writer) stream.old stream.new) }
    ensures failed { IfErr result (λ e. e ≡ Output) }
    ensures failures { CountsFailure result out.old.failures out.new.failures }
{
    if stream.text.len() < CHUNK {
        return Ok(());
    }
    reading.about_to_write();
    send(stream, out)
}

/// Ends a trace whose log was read up to this fault. Where lines have gone out the last one is `fault`, which no reader of
/// traces takes for a row.
fn cut_off<W: Write>(fault: ImportFault, begun: bool, out: &mut Out<W>) -> ImportFault
    ensures fault { result ≢ Output → result ≡ fault }
    ensures cut_off { result ≢ Output
        → Appends (W.contents out.old.writer) (W.contents out.new.writer) (fault_line begun) }
    ensures failures { (before : ℕ) → CountsFault fault before out.old.failures
        → CountsFault result before out.new.failures }
{
    match fault {
        ImportFault::Output => ImportFault::Output,
        fault => {
            if begun && !out.write_text(b"fault\n") {
                return ImportFault::Output;
            }
            fault
        }
    }
}

/// What has come of the rows so far.
fn counts_so_far(stream: &Stream) -> Counts
    ensures { result ≡ counts_so_far stream.now }
{
    Counts {
        kept: stream.kept,
        clamped: stream.clamped,
        left_out: stream.left_out,
    }
}

/// What comes of a log that was read to its end, or up to a fault: one of which too few rows are kept is refused.
pub fn judge_stream(
    read: Result<(), ImportFault>,
    stream: &Stream,
    options: Options,
    first: Option<FirstLeftOut>,
) -> Result<(), ImportFault>
    ensures read { IsOk result → IsOk read }
    ensures enough { OnOk result (AreEnough options stream.now.kept stream.now.left_out) }
    ensures fault { IfErr result (λ e. (read ≡ Err e)
        ⊎ (IsOk read × IsErrorOfLosses options (counts_so_far stream.now) e)) }
    ensures failures { (before after : ℕ) → CountsFailure read before after
        → CountsFailure result before after }
{
    read?;
    check_losses(options, counts_so_far(stream), first)
}

/// Ends a trace whose log was read to its end, or up to a fault.
pub fn end_stream<W: Write>(
    read: Result<(), ImportFault>,
    mut stream: Stream,
    out: &mut Out<W>,
) -> Result<Counts, ImportFault>
    ensures read { IsOk result → IsOk read }
    ensures gained { OnOk result (Appends (W.contents out.old.writer) (W.contents out.new.writer)
        stream.text.items) }
    ensures counts { IfOk result (λ c. c ≡ counts_so_far stream) }
    ensures fault { IfErr result (λ e. e ≢ Output → read ≡ Err e) }
    ensures cut_off { IfErr result (λ e. e ≢ Output → Appends (W.contents out.old.writer)
        (W.contents out.new.writer) (fault_line stream.begun)) }
    ensures failures { (before : ℕ) → CountsFailure read before out.old.failures
        → CountsFailure result before out.new.failures }
{
    match read {
        Ok(()) => {
            let counts = counts_so_far(&stream);
            send(&mut stream, out)?;
            Ok(counts)
        }
        Err(fault) => Err(cut_off(fault, stream.begun, out)),
    }
}
