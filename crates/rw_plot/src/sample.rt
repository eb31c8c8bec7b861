use crate::layout::Layout;
use crate::measure::Caches;

/// The numbers of a configuration, as a row tells them. The last five are 0 in a table that lacks their columns.
#[derive(Clone, Copy, PartialEq, Eq, PartialOrd, Ord)]
pub struct Configuration {
    /// How many sections each cache has.
    pub sections: u64,
    /// The size of a block, in bytes.
    pub block: u64,
    /// The blocks of an edge cache.
    pub edge_blocks: u64,
    /// The blocks of an origin cache.
    pub origin_blocks: u64,
    /// How many edge caches there are.
    pub edges: u64,
    /// How many origin caches there are.
    pub origins: u64,
    /// From an edge to an origin, in ticks.
    pub up: u64,
    /// From an origin to an edge, in ticks.
    pub down: u64,
    /// From an origin to the backend and back, in ticks.
    pub back: u64,
}

/// An interval, in ticks.
#[derive(Clone, Copy)]
pub struct Interval {
    /// Its first tick.
    pub from: u64,
    /// The tick before which it ends, over `from`.
    pub to: u64,
}

/// What is drawn of what a row tells of its caches.
#[derive(Clone, Copy)]
pub struct Figures {
    /// The share of requests that were hits, in millionths: at most 1,000,000.
    pub hit_ratio: u64,
    /// The share of bytes that were hits, in millionths: at most 1,000,000.
    pub byte_hit_ratio: u64,
    /// The size of the flash in bytes, from 1.
    pub flash_bytes: u64,
    /// The bytes that were written to flash.
    pub written_bytes: u64,
    /// The requests that reached the backend.
    pub backend_requests: u64,
}

/// What is drawn of a row.
#[derive(Clone, Copy)]
pub struct Sample {
    /// The configuration; `None` in a table of one.
    pub configuration: Option<Configuration>,
    /// The interval; `None` in a sweep's table, which is of the whole trace.
    pub interval: Option<Interval>,
    /// Of which caches the row tells.
    pub caches: Caches,
    /// What it tells of them.
    pub figures: Figures,
    /// The bytes that were asked of the backend; `None` in a table that lacks their column.
    pub backend_bytes: Option<u64>,
}

/// A row that is drawn, with its policy.
#[derive(Drop)]
pub struct Line {
    /// The text of its policy, which may be any bytes; none in a table of one configuration.
    pub policy: Vec<u8>,
    /// Its numbers.
    pub sample: Sample,
}

/// What is drawn of a table.
#[derive(Drop)]
pub struct Table {
    /// Which table it is.
    pub layout: Layout,
    /// The rows that are drawn, in their order; there is one at least.
    pub lines: Vec<Line>,
}
