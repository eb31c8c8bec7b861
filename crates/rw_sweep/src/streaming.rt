// Rows that many configurations run as they are read.
ghost use Rattle.std.specs.Prelude.{◌≡◌, ◌≤◌, ◌<◌, ◌^◌, All, IfErr, IfOk, map};
ghost use Rattle.rw_sweep.specs.Ongoing.{HaveTakenAll, IsFaultOfRuns};

use crate::facts::Facts;
use crate::ongoing::{OngoingRun, begin_all, feed_all, first_refusal};
use crate::point::Point;
use rw_report::{Marks, SimFault};
use rw_trace::{RowSource, next_piece};
use std::alloc::Global;
use std::thread::Threads;

/// How many rows are read at a time. The runs take a piece one after another, so that the caches of a run stay in those of the
/// processor while it does.
const PIECE: usize = 1 << 18;

/// Runs the rows of a source under each of these configurations as they are read, by so many workers side by side, up to the time of
/// the last row, and returns the runs and the facts of the rows. However many rows there are, it needs the memory of a piece of them,
/// and for each run that of its caches and of what is on its way.
///
/// # Errors
///
/// `Trace` with the first fault of the rows, in the order of reading, and `Read` where a reader underneath answers an error; `Exhausted` only
/// where the run of the rows read so far comes, under some configuration, to a cache that can take no further event; and `Memory`
/// only where memory was refused. Where several configurations end at one piece, the fault is that of the first in order.
pub(crate) fn run_all_streamed<R: Threads + Sync, S: RowSource>(
    rt: &R,
    alloc: Global,
    rows: &mut S,
    points: &[Point],
    marks: Marks,
    workers: usize,
) -> Result<(Vec<OngoingRun>, Facts), SimFault>
    requires workers { 0 < workers }
    requires edges { All (λ p. (S.rest rows.old).edges ≤ p.config.edges) points.now }
    requires begins { (S.rest rows.old).latest ≡ 0 }
    requires few { (S.rest rows.old).most ≤ 2 ^ 63 }
    ensures points { IfOk result (λ all. map (λ g. g.point) all.0.items ≡ points.now) }
    ensures taken { IfOk result (λ all. HaveTakenAll
        (record { start = marks.start; every = marks.every }) (S.rest rows.old).edges
        (S.rest rows.old).ahead all.1 all.0.items) }
    ensures fault { IfErr result (IsFaultOfRuns points.now (S.rest rows.old).ahead) }
{
    let mut runs = begin_all(alloc, points, marks)?;
    let mut piece = Vec::new(alloc);
    let mut facts = Facts::none();
    'pieces: loop {
        next_piece(rows, PIECE, &mut piece)?;
        facts = facts.with_rows(piece.as_slice());
        feed_all(rt, alloc, runs.as_mut_slice(), piece.as_slice(), workers);
        first_refusal(runs.as_slice())?;
        if piece.len() < PIECE {
            return Ok((runs, facts));
        }
    }
}
