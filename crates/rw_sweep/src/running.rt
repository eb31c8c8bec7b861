ghost use Rattle.std.specs.Prelude.{◌≡◌, ◌≤◌, ◌^◌, All, IfErr, IfOk, length};
ghost use Rattle.rw_blocks.specs.State.{IsShape};
ghost use Rattle.rw_trace.specs.Laws.{IsRow};
ghost use Rattle.rw_report.specs.Intervals.{AreMarks};
ghost use Rattle.rw_sweep.specs.OverTime.{HasLines, TellsOfChoice};
ghost use Rattle.rw_sweep.specs.Working.{CanRun, IsExhaustedAt, IsResultOf};

use crate::point::Point;
use crate::point_text::told_of_point;
use crate::table::lines;
use rw_progress::Silent;
use rw_report::{Outlook, counters_of, last_states_of_rows, record_rows};
use rw_trace::Row;
use rw_vt::Refusal;
use std::alloc::Global;

/// Runs these rows on this thread under a configuration, and returns the text of it.
///
/// # Errors
///
/// `Exhausted` only where the run comes to a cache that can take no further event, and `Memory` only where memory was refused.
pub(crate) fn run_one(alloc: Global, rows: &[Row], point: &Point) -> Result<Vec<u8>, Refusal>
    requires { CanRun rows.now point.now }
    ensures { IsResultOf rows.now point.now result }
{
    match point.outlook {
        None => lines_of(alloc, rows, point),
        Some(outlook) => told_under(alloc, rows, point, outlook),
    }
}

/// Runs these rows under a configuration, and returns its three lines.
fn lines_of(alloc: Global, rows: &[Row], point: &Point) -> Result<Vec<u8>, Refusal>
    requires { CanRun rows.now point.now }
    ensures text { IfOk result (λ text. HasLines point.now.config point.now.choice
        point.now.ticks_a_second point.now.place rows.now text.items) }
    ensures exhausted { IfErr result (λ refusal. refusal ≡ Refusal.Exhausted
        → IsExhaustedAt rows.now point.now) }
{
    let states = last_states_of_rows(alloc, rows, &point.config, &mut Silent)?;
    let counters = counters_of(alloc, states.as_slice())?;
    let text = lines(alloc, point, None, counters.as_slice())?;
    Ok(text)
}

/// Runs these rows under a configuration, and returns what an outlook asks for.
fn told_under(
    alloc: Global,
    rows: &[Row],
    point: &Point,
    outlook: Outlook,
) -> Result<Vec<u8>, Refusal>
    requires can_run { CanRun rows.now point.now }
    requires marks { AreMarks outlook }
    ensures text { IfOk result (λ text. TellsOfChoice point.now.config point.now.choice
        point.now.ticks_a_second point.now.place outlook rows.now text.items) }
    ensures exhausted { IfErr result (λ refusal. refusal ≡ Refusal.Exhausted
        → IsExhaustedAt rows.now point.now) }
{
    let Some(marks) = outlook.marks() else {
        unreachable!()
    };
    let moments = record_rows(alloc, rows, &point.config, marks, &mut Silent)?;
    let text = told_of_point(alloc, point, outlook, moments.as_slice())?;
    Ok(text)
}
