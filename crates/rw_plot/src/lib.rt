#![tactic(auto)]
//! Draws a table as an SVG: CSV text in, the bytes of the picture out.
//!
//! There are three kinds of tables, told apart by the header: a sweep, with a row for each configuration
//! and each of `edges`, `origins` and `all`; a table over time, with a row for each interval and each of
//! these; and a sweep over time, with both. The columns that are drawn are found by their names, wherever
//! they stand; of columns with one name the first counts, and all others are left alone. [`read`] gives
//! the rows as numbers, or the first fault. `specs/Tables.antt` defines what a table means and which fault
//! a bad one has, `specs/Layouts.antt` the headers.
//!
//! [`plot`] draws one measure of the rows: over the size of the flash for a sweep, or over time for
//! intervals. `specs/Escape.antt` defines how text is escaped, and `specs/Names.antt` what the name of a
//! line keeps of its rows.
//!
//! Worked examples: `rw_program_tests/src/plots.rt`.

ghost use Rattle.std.specs.Prelude.{◌≡◌, ◌≢◌, Err, IfErr, IsOk, OnOk};
ghost use Rattle.rw_trace.specs.Unread.{records_of};
ghost use Rattle.rw_plot.specs.Tables.{table_of};
ghost use Rattle.rw_plot.specs.declared.plot_fault.PlotFault.TheVariants as fault;

mod chart;
mod dots;
mod drawing;
mod escaping;
mod frame;
mod header;
mod labels;
mod layout;
mod legend;
mod looks;
mod measure;
mod places;
mod plot_fault;
mod row;
mod sample;
mod scale;
mod series;
mod subject;
mod table;
mod time_axis;
mod x_axis;

pub use escaping::escape;
pub use layout::Layout;
pub use measure::{Caches, Drawing, FlashOf, Measure};
pub use plot_fault::PlotFault;
pub use sample::{Configuration, Figures, Interval, Line, Sample, Table};
use std::alloc::Global;
use subject::Subject;
pub use table::{MAX_LINES, every_limit, read};
use x_axis::XAxis;

/// An SVG of one measure of a table, which is a sweep's, one over time, or a sweep's over time. `name` is what the picture calls
/// the table.
///
/// A line joins rows that differ only in what the x axis tells, of the policy and the nine numbers of a configuration; its name has
/// whatever else varies. Over time, the x axis is linear,
/// and a point stands at the middle of its interval: there is a line for each configuration and, of a table of one configuration,
/// for each kind of caches. Of a sweep, the x axis is logarithmic, and is the flash that [`Drawing::x`] names:
///
/// - `Edge`: the flash of one edge cache. A line joins sizes of edges, at one size of origins.
/// - `Origin`: the flash of one origin cache. A line joins sizes of origins, at one size of edges.
/// - `Total`: the flash of all caches of which the rows tell. A line joins the same rows as with `Edge` in rows of edges, and the
///   same as with `Origin` in rows of origins; in rows of all caches the same as with `Edge`, or as with `Origin` where only the
///   size of origins varies.
/// - `None`: `Total` where at most one of the two sizes varies. Where both vary, `Edge`, or `Origin` in rows of origins. Where only
///   the size of the caches varies of which the rows do not tell, theirs.
///
/// Of which caches the rows are that are drawn, [`Drawing::caches`] says. Ratios are drawn as they stand; bytes and requests over
/// time per second: what was counted, times the ticks of a second, divided by those of the interval, rounded down: bytes to whole
/// ones, requests to thousandths.
///
/// Any text of the file may be a policy, and any text the name: they go out escaped, see [`escape`].
///
/// # Errors
///
/// Those of [`read`]: the first fault of the table. `Memory` where a request for memory was refused; nothing is said
/// of the table then.
pub fn plot(alloc: Global, name: &str, bytes: &[u8], drawing: Drawing) -> Result<Vec<u8>, PlotFault>
    ensures drawn { OnOk result (IsOk (table_of drawing (records_of bytes.now))) }
    ensures fault { IfErr result (λ e.
        e ≢ fault.Memory → table_of drawing (records_of bytes.now) ≡ Err e) }
{
    let Table { layout, lines } = read(alloc, bytes, drawing)?;
    let x = XAxis::new(layout, drawing, lines.as_slice());
    let all = series::by_name(alloc, x, lines)?;
    let subject = Subject { layout, drawing, x };
    // A text in memory is refused only for want of memory.
    drawing::draw(alloc, &all, subject, name).map_err(|_| PlotFault::Memory)
}
