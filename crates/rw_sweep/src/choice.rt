use rw_photo::Policy;

/// What one configuration of a grid has of its own.
#[derive(Clone, Copy)]
pub struct Choice {
    /// What is stored, and where it goes.
    pub policy: Policy,
    /// The sections of each queue.
    pub sections: u64,
    /// The bytes of a block.
    pub block: u64,
    /// The sealed device blocks of each edge.
    pub edge_blocks: u64,
    /// The sealed device blocks of each origin.
    pub origin_blocks: u64,
    /// Edge caches.
    pub edges: u64,
    /// Origin caches.
    pub origins: u64,
    /// From an edge to an origin, in ticks.
    pub up: u64,
    /// From an origin to an edge, in ticks.
    pub down: u64,
    /// From an origin to the backend and back, in ticks.
    pub back: u64,
}
