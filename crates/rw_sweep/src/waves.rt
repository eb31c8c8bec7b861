ghost use Rattle.std.specs.Prelude.{◌≡◌, [], true, false, All, IfOk, IfErr, IfSome, MatchBool, MatchResult};
ghost use Rattle.std.specs.List.{Any};
ghost use Rattle.rw_report.specs.Sink.{one_more};
ghost use Rattle.rw_sweep.specs.Working.{AreSlots, CanRun, HasTaken, HasTakenFirst, HasTakenPoint, IsExhaustedAt, IsResultOf};

use crate::batch::Batch;
use crate::entry::Lines;
use crate::point::Point;
use crate::running::run_one;
use crate::working::run_all;
use rw_progress::Progress;
use rw_report::Out;
use rw_trace::Row;
use rw_vt::Refusal;
use std::alloc::Global;
use std::io::Write;
use std::thread::Threads;

/// Writes a header, and then the lines of each configuration, in order. Returns whether the writer took all of it.
///
/// The configurations are run in waves of as many as there are workers, and the lines of a wave are written, one configuration at
/// a time, before the next wave begins.
pub(crate) fn write_all<W: Write, P: Progress, R: Threads + Sync>(
    rt: &R,
    alloc: Global,
    batch: Batch<'_>,
    header: &[u8],
    progress: &mut P,
    out: &mut Out<W>,
) -> Result<bool, Refusal>
    requires { All (CanRun batch.rows.now) batch.points.now }
    ensures taken { IfOk result (λ whole. MatchBool whole
        (HasTaken true batch.entry.rows.now batch.entry.points.now header.now
        (W.contents out.old.writer) (W.contents out.new.writer))
        (HasTakenFirst false batch.entry.rows.now batch.entry.points.now header.now
        (W.contents out.old.writer) (W.contents out.new.writer))) }
    ensures refused { IfErr result (λ _.
        HasTakenFirst true batch.entry.rows.now batch.entry.points.now header.now
        (W.contents out.old.writer) (W.contents out.new.writer)) }
    ensures exhausted { IfErr result (λ refusal. refusal ≡ Refusal.Exhausted
        → Any (IsExhaustedAt batch.entry.rows.now) batch.entry.points.now) }
    ensures failures { MatchResult result
        (λ whole. MatchBool whole (out.new.failures ≡ out.old.failures)
        (out.new.failures ≡ one_more out.old.failures))
        (λ _. out.new.failures ≡ out.old.failures) }
{
    if !out.write_text(header) {
        return Ok(false);
    }
    progress.begin(0, batch.points.len() as u64);
    let mut rest = batch.points;
    while !rest.is_empty() {
        let (wave, later) = rest.split_at(batch.workers.max(1).min(rest.len()));
        let before = batch.points.len().saturating_sub(rest.len()) as u64;
        let wave = Batch {
            points: wave,
            before,
            ..batch
        };
        if !write_wave(rt, alloc, wave, progress, out)? {
            return Ok(false);
        }
        rest = later;
    }
    Ok(true)
}

/// Runs some configurations side by side, and writes the lines of each, in order. Returns whether the writer took all of them.
fn write_wave<W: Write, P: Progress, R: Threads + Sync>(
    rt: &R,
    alloc: Global,
    wave: Batch<'_>,
    progress: &mut P,
    out: &mut Out<W>,
) -> Result<bool, Refusal>
    requires { All (CanRun wave.rows.now) wave.points.now }
    ensures taken { IfOk result (λ whole. MatchBool whole
        (HasTaken true wave.entry.rows.now wave.entry.points.now []
        (W.contents out.old.writer) (W.contents out.new.writer))
        (HasTakenFirst false wave.entry.rows.now wave.entry.points.now []
        (W.contents out.old.writer) (W.contents out.new.writer))) }
    ensures refused { IfErr result (λ _.
        HasTakenFirst true wave.entry.rows.now wave.entry.points.now []
        (W.contents out.old.writer) (W.contents out.new.writer)) }
    ensures exhausted { IfErr result (λ refusal. refusal ≡ Refusal.Exhausted
        → Any (IsExhaustedAt wave.entry.rows.now) wave.entry.points.now) }
    ensures failures { MatchResult result
        (λ whole. MatchBool whole (out.new.failures ≡ out.old.failures)
        (out.new.failures ≡ one_more out.old.failures))
        (λ _. out.new.failures ≡ out.old.failures) }
{
    let Batch { rows, points, .. } = wave;
    let wave = Batch {
        workers: wave.workers.min(points.len()),
        ..wave
    };
    let slots = run_all(rt, alloc, wave, progress)?;
    progress.about_to_write();
    let whole = write_slots(alloc, rows, points, slots.as_slice(), out)?;
    progress.reach(wave.before.saturating_add(points.len() as u64));
    Ok(whole)
}

/// Writes the lines of some configurations, in order, up to the first that has none or that the writer does not take. Returns
/// whether it took all of them.
fn write_slots<W: Write>(
    alloc: Global,
    rows: &[Row],
    points: &[Point],
    slots: &[Option<Lines>],
    out: &mut Out<W>,
) -> Result<bool, Refusal>
    requires can_run { All (CanRun rows.now) points.now }
    requires slots { AreSlots rows.now points.now slots.now }
    ensures taken { IfOk result (λ whole. MatchBool whole
        (HasTaken true rows.now points.now []
        (W.contents out.old.writer) (W.contents out.new.writer))
        (HasTakenFirst false rows.now points.now []
        (W.contents out.old.writer) (W.contents out.new.writer))) }
    ensures refused { IfErr result (λ _. HasTakenFirst true rows.now points.now []
        (W.contents out.old.writer) (W.contents out.new.writer)) }
    ensures exhausted { IfErr result (λ refusal. refusal ≡ Refusal.Exhausted
        → Any (IsExhaustedAt rows.now) points.now) }
    ensures failures { MatchResult result
        (λ whole. MatchBool whole (out.new.failures ≡ out.old.failures)
        (out.new.failures ≡ one_more out.old.failures))
        (λ _. out.new.failures ≡ out.old.failures) }
{
    for (index, point) in points.iter().enumerate() {
        if !write_point(alloc, rows, point, &slots[index], out)? {
            return Ok(false);
        }
    }
    Ok(true)
}

/// Writes the lines of a configuration, as one text. Returns whether the writer took it. Where its slot is empty, it is run now.
fn write_point<W: Write>(
    alloc: Global,
    rows: &[Row],
    point: &Point,
    slot: &Option<Lines>,
    out: &mut Out<W>,
) -> Result<bool, Refusal>
    requires can_run { CanRun rows.now point.now }
    requires slot { IfSome slot.now (IsResultOf rows.now point.now) }
    ensures taken { IfOk result (λ whole. HasTakenPoint whole rows.now point.now
        (W.contents out.old.writer) (W.contents out.new.writer)) }
    ensures refused { IfErr result (λ _. out.new ≡ out.old) }
    ensures exhausted { IfErr result (λ refusal. refusal ≡ Refusal.Exhausted
        → IsExhaustedAt rows.now point.now) }
    ensures failures { IfOk result (λ whole. MatchBool whole
        (out.new.failures ≡ out.old.failures)
        (out.new.failures ≡ one_more out.old.failures)) }
{
    match slot {
        Some(Ok(lines)) => Ok(out.write_text(lines.as_slice())),
        Some(Err(refusal)) => Err(*refusal),
        None => {
            let lines = run_one(alloc, rows, point)?;
            Ok(out.write_text(lines.as_slice()))
        }
    }
}
