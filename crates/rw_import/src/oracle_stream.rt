//! Logs in the oracle-general format whose trace is written as they are read.

ghost use Rattle.std.specs.Prelude.{◌≡◌, ◌≢◌, ◌↔◌, ◌<◌, false, Err, IfErr, IfNone, IfOk, IfSome, List, OnOk, length, map, unwrap_or};
ghost use Rattle.rw_trace.specs.Pieces.{GivesNone, RiseFrom};
ghost use Rattle.rw_trace.specs.declared.Kind.TheVariants.{Get};
ghost use Rattle.rw_trace.specs.declared.Row.{Row};
ghost use Rattle.rw_import.specs.Log.{AreEnough, IsStrictlyKept, clamped_in, kept_in, left_out_of};
ghost use Rattle.rw_import.specs.Oracle.{piece_said};
ghost use Rattle.rw_import.specs.OracleStream.{HasReadOracle, IsFilled, TellsPiece, pieces_ahead, pieces_told};
ghost use Rattle.rw_import.specs.Sheet.{IsKeepable};
ghost use Rattle.rw_import.specs.Stream.{HasSentWhole, IsFresh};
ghost use Rattle.rw_import.specs.Streamed.{CountsFailure, GainsNoTrace, GainsTrace, IsFirstRefused, IsOfLog, IsStreamRefusal, oracle_rows_since, oracle_told_since, or_said, since};
ghost use Rattle.rw_import.specs.declared.fault.ImportFault.TheVariants.{Output};

use crate::entry::{Counts, Entry};
use crate::fault::{Flaw, ImportFault};
use crate::options::{Options, Streaming};
use crate::oracle::{PIECE, read_piece};
use crate::reading::Reading;
use crate::stream::{
    Stream, add_line, empty_stream, end_stream, judge_since, judge_stream, send_full,
};
use rw_progress::Progress;
use rw_report::Out;
use std::alloc::Global;
use std::io::{BufReader, Read, Write};

/// How many bytes of a log are read at a time.
pub const ROOM: usize = 1 << 16;

/// Fills a piece from a reader, as far as there are bytes; how many there were.
pub fn fill<R: Read>(reader: &mut R, piece: &mut [u8]) -> Result<usize, ImportFault>
    ensures filled { IfOk result (λ n.
        IsFilled (R.remaining reader.old) (R.remaining reader.new) n piece.new) }
    ensures refused { IfErr result (λ e. e ≡ ImportFault.Read) }
{
    let mut filled = 0;
    while filled < piece.len() {
        let Ok(read) = reader.read(&mut piece[filled..]) else {
            return Err(ImportFault::Read);
        };
        if read == 0 {
            return Ok(filled);
        }
        filled += read;
    }
    Ok(filled)
}

/// What becomes of a record. Where the epoch is not known, it is the record's time.
fn judge_piece(
    piece: &[u8],
    options: Options,
    epoch: &mut Option<u128>,
) -> Result<(Entry, u64), Flaw>
    ensures epoch { epoch.new ≡ or_said epoch.old (piece_said piece.now) }
    ensures judged { result ≡ since options.ticks (unwrap_or epoch.new 0) 0 (piece_said piece.now) }
    ensures keepable { IsKeepable options.edges options (unwrap_or epoch.new 0) result }
    ensures get { IfOk result (λ s. s.0.kind ≡ Get) }
{
    match read_piece(piece) {
        Ok((entry, object)) => {
            let entry = judge_since(epoch, options, 0, Ok(entry))?;
            Ok((entry, object))
        }
        Err(flaw) => Err(flaw),
    }
}

/// What becomes of the next record, if there is one.
pub fn next_told<R: Read>(
    reader: &mut R,
    options: Options,
    epoch: &mut Option<u128>,
) -> Result<Option<Result<(Entry, u64), Flaw>>, ImportFault>
    ensures none { IfOk result (λ next. IfNone next
        (GivesNone (pieces_ahead (R.remaining reader.old)) × (epoch.new ≡ epoch.old))) }
    ensures some { IfOk result (λ next. IfSome next (TellsPiece options (R.remaining reader.old)
        (R.remaining reader.new) epoch.old epoch.new)) }
    ensures refused { IfErr result (λ e. e ≡ ImportFault.Read) }
{
    let mut piece = [0; PIECE];
    let filled = fill(reader, &mut piece)?;
    if filled == 0 {
        return Ok(None);
    }
    Ok(Some(judge_piece(&piece[..filled], options, epoch)))
}

/// Reads the rows of a log and writes those that are kept.
fn stream_pieces<R: Read, W: Write, P: Progress>(
    reader: &mut R,
    options: Options,
    stream: &mut Stream,
    reading: &mut Reading<'_, P>,
    out: &mut Out<W>,
) -> Result<(), ImportFault>
    requires kinds { stream.old.kinds ≡ false }
    requires fresh { IsFresh stream.old }
    ensures read { OnOk result (HasReadOracle options (R.remaining reader.old)
        (W.contents out.old.writer) (W.contents out.new.writer) stream.old stream.new) }
    ensures fault { IfErr result (λ e. IsOfLog e
        → IfSome (pieces_ahead (R.remaining reader.old)) (λ all.
        IsFirstRefused options (pieces_told options stream.old.epoch all) e)) }
    ensures cut_off { IfErr result (λ e. e ≢ Output → HasSentWhole options.edges stream.new.begun
        stream.old.kinds (W.contents out.old.writer) (W.contents out.new.writer)) }
    ensures failures { CountsFailure result out.old.failures out.new.failures }
{
    for row in 0..u64::MAX {
        reading.come_to(row, row.saturating_mul(PIECE as u64));
        let Some(told) = next_told(reader, options, &mut stream.epoch)? else {
            return Ok(());
        };
        reading.leave_out_piece(row, options, told.err());
        add_line(stream, options, row, told)?;
        send_full(stream, reading, out)?;
    }
    Err(ImportFault::Memory)
}

/// Writes the trace of a log in the oracle-general format as it reads the log, once. What its records mean is as in
/// [`import_oracle`](crate::import_oracle), but tick 0 is the epoch that `streaming` has, or the time of the first record that says
/// one; a record of an earlier time is left out, as one past the latest of a trace is; and the records that are kept
/// have to stand in order of time. The trace's header has no kind.
///
/// It needs no more memory for a longer log. How many bytes are read is told to `progress`; who knows how many there are
/// tells it before.
///
/// # Errors
///
/// Those of [`stream_csv`](crate::stream_csv), but for those of columns.
pub fn stream_oracle<R: Read + Drop, W: Write, P: Progress>(
    alloc: Global,
    log: R,
    streaming: &Streaming,
    progress: &mut P,
    out: &mut Out<W>,
) -> Result<Counts, ImportFault>
    requires { streaming.now.options.spread ≡ false }
    ensures trace { IfOk result (λ _. IfSome (R.remaining log) (λ bytes. GainsTrace
        streaming.now.options.edges false (oracle_rows_since streaming.now bytes)
        (W.contents out.old.writer) (W.contents out.new.writer))) }
    ensures rising { IfOk result (λ _. IfSome (R.remaining log) (λ bytes.
        RiseFrom 0 (oracle_rows_since streaming.now bytes))) }
    ensures objects { IfSome (R.remaining log) (λ bytes.
        map (λ r. r.object) (oracle_rows_since streaming.now bytes)
        ≡ map (λ s. s.1) (kept_in (oracle_told_since streaming.now bytes))) }
    ensures kept { IfOk result (λ counts. IfSome (R.remaining log) (λ bytes.
        counts.kept ≡ length (kept_in (oracle_told_since streaming.now bytes)))) }
    ensures clamped { IfOk result (λ counts. IfSome (R.remaining log) (λ bytes.
        counts.clamped ≡ clamped_in (kept_in (oracle_told_since streaming.now bytes)))) }
    ensures left_out { IfOk result (λ counts. IfSome (R.remaining log) (λ bytes.
        counts.left_out ≡ left_out_of (oracle_told_since streaming.now bytes))) }
    ensures enough { IfOk result (λ counts.
        AreEnough streaming.now.options counts.kept counts.left_out) }
    ensures strict { IfOk result (λ _. IfSome (R.remaining log) (λ bytes.
        IsStrictlyKept streaming.now.options (oracle_told_since streaming.now bytes))) }
    ensures any { IfOk result (λ _. (rows : List Row) × RiseFrom 0 rows
        × GainsTrace streaming.now.options.edges false rows
        (W.contents out.old.writer) (W.contents out.new.writer)) }
    ensures fault { IfErr result (λ e. IsOfLog e → IfSome (R.remaining log) (λ bytes.
        IsStreamRefusal streaming.now.options (oracle_told_since streaming.now bytes) e)) }
    ensures cut_off { IfErr result (λ e. e ≢ Output
        → GainsNoTrace (W.contents out.old.writer) (W.contents out.new.writer)) }
    ensures output { (result ≡ Err Output) ↔ (out.new.failures ≢ out.old.failures) }
{
    let mut stream = empty_stream(alloc, streaming.epoch, false)?;
    let Ok(mut reader) = BufReader::with_capacity(alloc, ROOM, log) else {
        return Err(ImportFault::Memory);
    };
    let mut reading = Reading::new(progress, &[], 0);
    let read = stream_pieces(
        &mut reader,
        streaming.options,
        &mut stream,
        &mut reading,
        out,
    );
    let read = judge_stream(read, &stream, streaming.options, reading.first_left_out());
    reading.about_to_write();
    end_stream(read, stream, out)
}
