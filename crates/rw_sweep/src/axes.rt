use rw_photo::Policy;

/// What is varied, and what all configurations have in common.
#[derive(Drop)]
pub struct Axes {
    /// What is stored, and where it goes.
    pub policies: Vec<Policy>,
    /// The sections of each queue, each 1 to 16.
    pub sections: Vec<u64>,
    /// The bytes of a block, each 1 to 268435456.
    pub blocks: Vec<u64>,
    /// The sealed device blocks of each edge, each 1 to 65536.
    pub edge_blocks: Vec<u64>,
    /// The sealed device blocks of each origin, each 1 to 65536.
    pub origin_blocks: Vec<u64>,
    /// The numbers of edge caches, each 1 to 256. A trace may name the edges below the least of these.
    pub edges: Vec<u64>,
    /// The numbers of origin caches, each 1 to 64.
    pub origins: Vec<u64>,
    /// From an edge to an origin, in ticks, each 1 to 1048576.
    pub up: Vec<u64>,
    /// From an origin to an edge, in ticks, each 1 to 1048576.
    pub down: Vec<u64>,
    /// From an origin to the backend and back, in ticks, each 1 to 1048576.
    pub back: Vec<u64>,
    /// Whether a purge also takes out the sealed block that it leaves without objects.
    pub reclaim: bool,
    /// How many ticks a second has, where that is known.
    pub ticks_a_second: Option<u64>,
}

/// Which of the numbers of a choice.
#[derive(Clone, Copy)]
pub(crate) enum Axis {
    Sections,
    Block,
    EdgeBlocks,
    OriginBlocks,
    Edges,
    Origins,
    Up,
    Down,
    Back,
}
