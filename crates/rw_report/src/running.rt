ghost use Rattle.std.specs.Prelude.{◌≡◌, ◌≢◌, ◌≤◌, ◌^◌, ◌↔◌, Err, IfOk, IfErr, IfSome, OnOk};
ghost use Rattle.std.specs.Io.KnownBytes.{Appends};
ghost use Rattle.rw_report.specs.Sink.{AppendsBeginning};
ghost use Rattle.rw_report.specs.Replay.{HasBegunToReport, HasBegunToStream, HasBegunToTell, HasBegunToTellOfRows, HasReported, HasStreamed, HasTold, HasToldOfRows, IsReplayFault, IsReportOf, IsRowsTellingFault, IsRowsTextFault, IsStreamingFault, IsTellingFault, IsTextFault, IsWritingFault, TellsOfRows, TellsOfTrace};

use crate::format::Format;
use crate::intervals::{Outlook, tell};
use crate::output::Out;
use crate::replaying::last_states_of_rows;
use crate::report_text::report_of_states;
use crate::sim_fault::SimFault;
use crate::streaming::{record_rows, record_stream};
use crate::with_progress::WithProgress;
use rw_photo::Config;
use rw_progress::{Progress, Silent};
use rw_trace::{MAX_ROWS, MAX_STREAMED_ROWS, OrderedRows, PlainRows, RowSource, read};
use std::alloc::Global;
use std::io::{Read, Write};

/// Runs a trace on one thread and writes its report. Reports to `progress` as [`report_of_trace`] does.
///
/// The text is made whole, then written by a loop over `write`, then flushed.
///
/// # Errors
///
/// Those of [`report_of_trace`], and then nothing was written; and `Output`, exactly where the writer failed in the call, and what
/// went out is then a beginning of the text.
pub fn replay<W: Write, P: Progress>(
    alloc: Global,
    bytes: &[u8],
    config: &Config,
    progress: &mut P,
    out: &mut Out<W>,
) -> Result<(), SimFault>
    ensures report { OnOk result (HasReported config.now bytes.now
        (W.contents out.old.writer) (W.contents out.new.writer)) }
    ensures fault { IfErr result (IsWritingFault config.now bytes.now) }
    ensures output { (result ≡ Err SimFault.Output) ↔ (out.new.failures ≢ out.old.failures) }
    ensures cut_off { result ≡ Err SimFault.Output → HasBegunToReport config.now bytes.now
        (W.contents out.old.writer) (W.contents out.new.writer) }
    ensures nothing { IfErr result (λ e. e ≢ SimFault.Output → out.new ≡ out.old) }
{
    let text = report_of_trace(alloc, bytes, config, progress)?;
    progress.about_to_write();
    if out.write_text(text.as_slice()) {
        Ok(())
    } else {
        Err(SimFault::Output)
    }
}

/// The report of a run on one thread. Reports to `progress` how far the run has come, in ticks of virtual time.
///
/// A trace whose lines are plain and stand in order of time is read as it is run: beside the text that takes the memory of a few
/// thousand rows, of the caches and of what is on its way. Another one is read whole, once the first way has come to what it cannot
/// read, and its requests are not all there at once where its rows stand in order of time.
///
/// # Errors
///
/// `Trace` with the trace's first fault, `Exhausted` only where the run comes to a cache that can take no further event, and
/// `Memory` only where memory was refused.
pub fn report_of_trace<P: Progress>(
    alloc: Global,
    bytes: &[u8],
    config: &Config,
    progress: &mut P,
) -> Result<Vec<u8>, SimFault>
    ensures text { IfOk result (λ text. IsReportOf config.now bytes.now text.items) }
    ensures fault { IfErr result (IsReplayFault config.now bytes.now) }
{
    if let Some(text) = report_in_order(alloc, bytes, config, progress) {
        return Ok(text);
    }
    let trace = read(alloc, bytes, config.edges())?;
    let states = last_states_of_rows(alloc, trace.as_slice(), config, progress)?;
    Ok(report_of_states(alloc, config, states.as_slice())?)
}

/// The report of a run of a trace of plain lines in order of time, which is read as it is run. `None` makes no claim: it may be
/// another trace, or no trace, or the run was refused.
#[inline(never)]
fn report_in_order<P: Progress>(
    alloc: Global,
    bytes: &[u8],
    config: &Config,
    progress: &mut P,
) -> Option<Vec<u8>>
    ensures { IfSome result (λ text. IsReportOf config.now bytes.now text.items) }
{
    let mut rows = PlainRows::open(bytes, config.edges(), MAX_ROWS)?;
    let (from, to) = rows.span()?;
    progress.begin(from, to);
    let outlook = Outlook {
        warm_up: None,
        every: None,
        format: Format::Text,
    };
    text_of_rows(alloc, &mut rows, config, outlook, progress).ok()
}

/// Runs a trace on one thread as [`replay`] does, and writes what `outlook` asks for. Tells `progress` how far it has come, as
/// [`report_of_trace`] does.
///
/// # Errors
///
/// Those of [`replay`], and `Plan` exactly where a number of `outlook` is out of its range. But for `Output`, nothing was written
/// then.
pub fn replay_over_time<W: Write, P: Progress>(
    alloc: Global,
    bytes: &[u8],
    config: &Config,
    outlook: Outlook,
    progress: &mut P,
    out: &mut Out<W>,
) -> Result<(), SimFault>
    ensures told { OnOk result (HasTold config.now outlook bytes.now
        (W.contents out.old.writer) (W.contents out.new.writer)) }
    ensures fault { IfErr result (IsTellingFault config.now outlook bytes.now) }
    ensures output { (result ≡ Err SimFault.Output) ↔ (out.new.failures ≢ out.old.failures) }
    ensures cut_off { result ≡ Err SimFault.Output → HasBegunToTell config.now outlook bytes.now
        (W.contents out.old.writer) (W.contents out.new.writer) }
    ensures nothing { IfErr result (λ e. e ≢ SimFault.Output → out.new ≡ out.old) }
{
    let text = text_over_time(alloc, bytes, config, outlook, progress)?;
    progress.about_to_write();
    write_whole(text.as_slice(), out)
}

/// What `outlook` asks for of a run of a trace.
fn text_over_time<P: Progress>(
    alloc: Global,
    bytes: &[u8],
    config: &Config,
    outlook: Outlook,
    progress: &mut P,
) -> Result<Vec<u8>, SimFault>
    ensures text { IfOk result (λ text. TellsOfTrace config.now outlook bytes.now text.items) }
    ensures fault { IfErr result (IsTextFault config.now outlook bytes.now) }
{
    let Some(marks) = outlook.marks() else {
        return Err(SimFault::Plan);
    };
    let trace = read(alloc, bytes, config.edges())?;
    let moments = record_rows(alloc, trace.as_slice(), config, marks, progress)?;
    Ok(tell(alloc, config, outlook, moments.as_slice())?)
}

/// Runs a trace in order of time as it is read, and writes what `outlook` asks for. Reports to `progress` how many rows are read.
///
/// # Errors
///
/// Those of [`replay_over_time`], where the trace's fault is the first in the order of reading, and `Order` where a row is before the
/// one in front of it; and `Read` where the reader answers an error. But for `Output`, nothing was written then.
pub fn replay_stream<R: Read + Drop, W: Write, P: Progress>(
    alloc: Global,
    bytes: R,
    config: &Config,
    outlook: Outlook,
    progress: &mut P,
    out: &mut Out<W>,
) -> Result<(), SimFault>
    ensures told { OnOk result (HasStreamed config.now outlook (R.remaining bytes)
        (W.contents out.old.writer) (W.contents out.new.writer)) }
    ensures fault { IfErr result (IsStreamingFault config.now outlook (R.remaining bytes)) }
    ensures output { (result ≡ Err SimFault.Output) ↔ (out.new.failures ≢ out.old.failures) }
    ensures cut_off { result ≡ Err SimFault.Output
        → HasBegunToStream config.now outlook (R.remaining bytes)
        (W.contents out.old.writer) (W.contents out.new.writer) }
    ensures nothing { IfErr result (λ e. e ≢ SimFault.Output → out.new ≡ out.old) }
{
    let rows = OrderedRows::open(alloc, bytes, config.edges(), MAX_STREAMED_ROWS)?;
    let mut source = WithProgress::new(rows, progress);
    replay_rows(alloc, &mut source, config, outlook, out)
}

/// Runs rows in order of time as their source gives them, and writes what `outlook` asks for. Reports how many rows it has taken; how
/// many there are is not known.
///
/// # Errors
///
/// Those of the source, `Exhausted` and `Memory` as in [`replay`], and `Plan` exactly where a number of `outlook` is out of its range:
/// nothing was written then. `Output` exactly where the writer failed, and what went out is then a beginning of the text.
pub fn replay_rows<S: RowSource, W: Write, P: Progress>(
    alloc: Global,
    rows: &mut WithProgress<'_, S, P>,
    config: &Config,
    outlook: Outlook,
    out: &mut Out<W>,
) -> Result<(), SimFault>
    requires edges { (S.rest rows.old.source).edges ≡ config.now.edges }
    requires begins { (S.rest rows.old.source).latest ≡ 0 }
    requires few { (S.rest rows.old.source).most ≤ 2 ^ 63 }
    ensures told { OnOk result (HasToldOfRows config.now outlook (S.rest rows.old.source).ahead
        (W.contents out.old.writer) (W.contents out.new.writer)) }
    ensures fault { IfErr result
        (IsRowsTellingFault config.now outlook (S.rest rows.old.source).ahead) }
    ensures output { (result ≡ Err SimFault.Output) ↔ (out.new.failures ≢ out.old.failures) }
    ensures cut_off { result ≡ Err SimFault.Output
        → HasBegunToTellOfRows config.now outlook (S.rest rows.old.source).ahead
        (W.contents out.old.writer) (W.contents out.new.writer) }
    ensures nothing { IfErr result (λ e. e ≢ SimFault.Output → out.new ≡ out.old) }
{
    rows.progress.begin(0, u64::MAX);
    let text = text_of_rows(alloc, rows, config, outlook, &mut Silent)?;
    rows.progress.about_to_write();
    write_whole(text.as_slice(), out)
}

/// What `outlook` asks for of a run of rows that a source gives. Reports to `progress` how far the run has come, in ticks.
fn text_of_rows<S: RowSource, P: Progress>(
    alloc: Global,
    rows: &mut S,
    config: &Config,
    outlook: Outlook,
    progress: &mut P,
) -> Result<Vec<u8>, SimFault>
    requires edges { (S.rest rows.old).edges ≡ config.now.edges }
    requires begins { (S.rest rows.old).latest ≡ 0 }
    requires few { (S.rest rows.old).most ≤ 2 ^ 63 }
    ensures text { IfOk result (λ text.
        TellsOfRows config.now outlook (S.rest rows.old).ahead text.items) }
    ensures fault { IfErr result (IsRowsTextFault config.now outlook (S.rest rows.old).ahead) }
{
    let Some(marks) = outlook.marks() else {
        return Err(SimFault::Plan);
    };
    let moments = record_stream(alloc, rows, config, marks, progress)?;
    Ok(tell(alloc, config, outlook, moments.as_slice())?)
}

/// Writes a text whole, or answers `Output`.
fn write_whole<W: Write>(text: &[u8], out: &mut Out<W>) -> Result<(), SimFault>
    ensures whole { OnOk result
        (Appends (W.contents out.old.writer) (W.contents out.new.writer) text.now) }
    ensures beginning { AppendsBeginning (W.contents out.old.writer) (W.contents out.new.writer)
        text.now }
    ensures fault { IfErr result (λ e. e ≡ SimFault.Output) }
    ensures output { (result ≡ Err SimFault.Output) ↔ (out.new.failures ≢ out.old.failures) }
{
    if out.write_text(text) {
        Ok(())
    } else {
        Err(SimFault::Output)
    }
}
