/// What is drawn of each row.
#[derive(Clone, Copy)]
pub enum Measure {
    /// The share of requests that were hits: the column `hit_ratio`.
    HitRatio,
    /// The share of bytes that were hits: the column `byte_hit_ratio`.
    ByteHitRatio,
    /// The bytes that were written to flash: the column `written_bytes`; over time per second.
    FlashWrites,
    /// The requests that reached the backend: the column `backend_requests`; over time per second.
    BackendRequests,
    /// The bytes that were asked of the backend: the column `backend_bytes`, which a table may lack; over time per second.
    BackendBytes,
}

/// Of which caches a row tells, and which rows are drawn.
#[derive(Clone, Copy, PartialEq, Eq, PartialOrd, Ord)]
pub enum Caches {
    /// The edge caches.
    Edges,
    /// The origin caches.
    Origins,
    /// All caches.
    All,
}

/// Whose flash stands on the x axis of a sweep's table.
#[derive(Clone, Copy)]
pub enum FlashOf {
    /// That of one edge cache: `edge_blocks` times `block`.
    Edge,
    /// That of one origin cache: `origin_blocks` times `block`.
    Origin,
    /// That of all caches of which a row tells: the column `flash_bytes`.
    Total,
}

/// What is asked for of a table.
#[derive(Clone, Copy)]
pub struct Drawing {
    /// What is drawn of each row.
    pub measure: Measure,
    /// Of which caches the rows are that are drawn. `None`: in a table of one configuration over time those of all three kinds,
    /// a line for each; in other tables those of `All`.
    pub caches: Option<Caches>,
    /// Whose flash stands on the x axis. `None`: the one that tells the rows apart. A table over time takes none, since its x axis
    /// is the time.
    pub x: Option<FlashOf>,
    /// How many ticks of a table over time are a second, from 1 to 10^9; 0 is taken as 1. Of no use to a sweep's table.
    pub ticks_a_second: u32,
}
