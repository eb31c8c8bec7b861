ghost use Rattle.std.specs.Prelude.{◌≡◌};
ghost use Rattle.rw_plot.specs.declared.plot_fault.PlotFault.TheVariants as fault;

use std::alloc::AllocError;

/// Why a table is not drawn, each shown as one line. Rows and columns are numbered from 0, the header not counted.
#[derive(Debug, Drop, thiserror::Error)]
pub enum PlotFault {
    /// There is no record, or the first one is the header of no table that is drawn: it has neither a column `policy` nor `from` and
    /// `to`, or it lacks one that each such table has.
    #[error("sweep: header")]
    Header,
    /// The row has not as many fields as the header.
    #[error("sweep: row {0}: length")]
    RowLength(u64),
    /// The field at this row and column writes no number of its column: a whole number below 2^64, a ratio of six
    /// decimals from `0.000000` to `1.000000`, of flash a whole number from 1, or of an interval's end one over its beginning.
    #[error("sweep: row {0} column {1}: number")]
    Number(u64, u64),
    /// The row's caches are none of `edges`, `origins` and `all`.
    #[error("sweep: row {0}: caches")]
    Caches(u64),
    /// The bytes asked of the backend are to be drawn, and the table has no such column.
    #[error("sweep: no column backend_bytes")]
    NoBackendBytes,
    /// The flash is asked for on the x axis, and the table is one over time, whose x axis is the time.
    #[error("sweep: --x: expected a table by flash size, found one over time; leave --x out")]
    NoFlashAxis,
    /// No row is of the caches that are asked for.
    #[error("sweep: nothing to plot")]
    Nothing,
    /// There are more rows than [`MAX_LINES`](crate::MAX_LINES), and no earlier one is at fault.
    #[error("sweep: too many rows")]
    TooManyRows,
    /// A request for memory was refused.
    #[error("memory")]
    Memory,
}

impl From<AllocError> for PlotFault {
    ghost from_gives = { λ _ e. e ≡ fault.Memory };

    fn from(_refusal: AllocError) -> PlotFault {
        PlotFault::Memory
    }
}
