use crate::point::Point;
use rw_trace::Row;

/// Configurations that run the same rows, some of them side by side.
#[derive(Clone, Copy)]
pub(crate) struct Batch<'a> {
    /// The rows.
    pub(crate) rows: &'a [Row],
    /// The configurations, in order.
    pub(crate) points: &'a [Point],
    /// How many configurations the sweep has run before these.
    pub(crate) before: u64,
    /// How many are run side by side.
    pub(crate) workers: usize,
}
