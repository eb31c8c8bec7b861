ghost use Rattle.std.specs.Prelude.{◌≡◌, false, ◌+◌, ◌≤◌, ◌<◌, ◌%◌, IsSome, IsTrue, IfSome, ◌↔◌};
ghost use Rattle.rw_photo.specs.Limits.{longest_delay, most_edges, most_origins};
ghost use Rattle.rw_photo.specs.Ranges.{IsConfig, IsDelay};

use rw_ripq::{Policy, Shape};

/// How many edges and origins there are, what they store, and how long what they send is on its way.
#[derive(Clone, Copy)]
pub struct Config {
    /// Edge caches, 1 to 256: processes 0 to `edges - 1`.
    pub edges: u32,
    /// Origin caches, 1 to 64: the processes behind the edges. Object `o` is asked of origin `o mod origins`.
    pub origins: u32,
    /// What is stored, and where it goes.
    pub policy: Policy,
    /// The shape of each edge's queue.
    pub edge_shape: Shape,
    /// The shape of each origin's queue.
    pub origin_shape: Shape,
    /// From an edge to an origin, in ticks, 1 to 1048576.
    pub up: u64,
    /// From an origin to an edge, in ticks, 1 to 1048576.
    pub down: u64,
    /// From an origin to the backend and back, in ticks, 1 to 1048576.
    pub back: u64,
    /// Whether a purge also takes out the sealed block that it leaves without objects.
    pub reclaim: bool,
    ghost in_range: { IsConfig edges origins up down back },
}

impl Config {
    /// The most edges.
    pub const MAX_EDGES: u32 = 256;

    /// The most origins.
    pub const MAX_ORIGINS: u32 = 64;

    /// The longest delay, in ticks.
    pub const MAX_DELAY: u64 = 1_048_576;

    /// A configuration; `None` exactly where a number is out of its range. A purge leaves sealed blocks as they are, unless
    /// [`with_reclaim`](Config::with_reclaim) says otherwise. Takes no memory.
    pub fn new(
        edges: u32,
        origins: u32,
        policy: Policy,
        edge_shape: Shape,
        origin_shape: Shape,
        up: u64,
        down: u64,
        back: u64,
    ) -> Option<Config>
        ensures found { IsSome result ↔ IsConfig edges origins up down back }
        ensures edges { IfSome result (λ c. c.edges ≡ edges) }
        ensures origins { IfSome result (λ c. c.origins ≡ origins) }
        ensures policy { IfSome result (λ c. c.policy ≡ policy) }
        ensures edge_shape { IfSome result (λ c. c.edge_shape ≡ edge_shape) }
        ensures origin_shape { IfSome result (λ c. c.origin_shape ≡ origin_shape) }
        ensures up { IfSome result (λ c. c.up ≡ up) }
        ensures down { IfSome result (λ c. c.down ≡ down) }
        ensures back { IfSome result (λ c. c.back ≡ back) }
        ensures reclaim { IfSome result (λ c. c.reclaim ≡ false) }
    {
        let counts = (1..=Self::MAX_EDGES).contains(&edges)
            && (1..=Self::MAX_ORIGINS).contains(&origins);
        let delays = is_delay(up) && is_delay(down) && is_delay(back);
        if counts && delays {
            Some(Config {
                edges,
                origins,
                policy,
                edge_shape,
                origin_shape,
                up,
                down,
                back,
                reclaim: false,
            })
        } else {
            None
        }
    }

    /// The configuration in which a purge also takes out the sealed block that it leaves without objects, or does not. Takes
    /// no memory.
    pub fn with_reclaim(mut self, reclaim: bool) -> Config
        ensures { result ≡ record self { reclaim = reclaim } }
    {
        self.reclaim = reclaim;
        self
    }

    /// How many edges there are. Takes no memory.
    pub fn edges(&self) -> u32
        ensures { result ≡ self.now.edges }
    {
        self.edges
    }

    /// How many origins there are. Takes no memory.
    pub fn origins(&self) -> u32
        ensures { result ≡ self.now.origins }
    {
        self.origins
    }

    /// The shape of each edge. Takes no memory.
    pub fn edge_shape(&self) -> Shape
        ensures { result ≡ self.now.edge_shape }
    {
        self.edge_shape
    }

    /// The shape of each origin. Takes no memory.
    pub fn origin_shape(&self) -> Shape
        ensures { result ≡ self.now.origin_shape }
    {
        self.origin_shape
    }
}

/// Whether a delay is in its range.
fn is_delay(ticks: u64) -> bool
    ensures { IsTrue result ↔ IsDelay ticks }
{
    (1..=Config::MAX_DELAY).contains(&ticks)
}

/// Each of the constants of [`Config`] is the limit that stands in `specs/Limits.antt`, which the definitions cite. The
/// call itself does nothing.
pub fn every_limit()
    ensures edges { Config.MAX_EDGES ≡ most_edges }
    ensures origins { Config.MAX_ORIGINS ≡ most_origins }
    ensures delay { Config.MAX_DELAY ≡ longest_delay }
{}
