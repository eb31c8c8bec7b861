ghost use Rattle.std.specs.Prelude.{◌≡◌};
ghost use Rattle.rw_plot.specs.Names.{AreSizesOnLine, sizes_of_row};

use crate::measure::Caches;
use crate::sample::{Configuration, Line, Sample};
use crate::subject::Subject;
use crate::x_axis::{Along, XAxis, sizes_of};
use std::alloc::{AllocError, Global};
use std::collections::BTreeMap;

/// What the points of a polyline have in common: all but what the x axis tells.
#[derive(PartialEq, Eq, PartialOrd, Ord, Drop)]
pub(crate) struct Name {
    /// The text of the policy, which may be any bytes; none in a table of one configuration.
    pub(crate) policy: Vec<u8>,
    /// Of which caches its points tell.
    pub(crate) caches: Caches,
    /// The numbers of the configuration; the block count that changes along the line is 0.
    pub(crate) sizes: Configuration,
}

/// The points of each polyline, from the left.
pub(crate) type AllSeries = BTreeMap<Name, Vec<Sample>>;

/// The name of the polyline in which a row stands. So rows of one name differ at most in one of the two block counts, and over time
/// in none.
fn name_of(x: XAxis, policy: Vec<u8>, sample: &Sample) -> Name
    ensures policy { result.policy ≡ policy }
    ensures caches { result.caches ≡ sample.now.caches }
    ensures sizes { AreSizesOnLine (sizes_of_row sample.now) result.sizes }
{
    let mut sizes = sizes_of(sample);
    match x.along() {
        None => {}
        Some(Along::Edges) => sizes.edge_blocks = 0,
        Some(Along::Origins) => sizes.origin_blocks = 0,
    }
    Name {
        policy,
        caches: sample.caches,
        sizes,
    }
}

/// Puts a row to the points of its polyline.
fn add(alloc: Global, x: XAxis, all: &mut AllSeries, line: Line) -> Result<(), AllocError> {
    let Line { policy, sample } = line;
    let name = name_of(x, policy, &sample);
    let entry = all.entry(name).map_err(AllocError::from)?;
    entry.or_insert(Vec::new(alloc)).push(sample)?;
    Ok(())
}

/// Puts rows to the points of their polylines, in their order.
fn add_all(
    alloc: Global,
    x: XAxis,
    all: &mut AllSeries,
    lines: Vec<Line>,
) -> Result<(), AllocError> {
    for line in lines {
        add(alloc, x, all, line)?;
    }
    Ok(())
}

/// By what the points of a polyline stand from left to right: the beginning of the interval, else the flash.
fn order_of(x: XAxis, sample: &Sample) -> u64 {
    match sample.interval {
        Some(interval) => interval.from,
        None => x.flash_bytes(sample),
    }
}

/// The rows by the polyline in which they stand, in each from the left.
pub(crate) fn by_name(
    alloc: Global,
    x: XAxis,
    mut lines: Vec<Line>,
) -> Result<AllSeries, AllocError> {
    lines.sort_by_key(|line| order_of(x, &line.sample))?;
    let mut all = BTreeMap::new(alloc);
    add_all(alloc, x, &mut all, lines)?;
    Ok(all)
}

/// A part of a name.
#[derive(Clone, Copy)]
pub(crate) enum Part {
    /// The policy.
    Policy,
    /// The caches.
    Caches,
    /// The number of sections.
    Sections,
    /// The size of a block.
    Block,
    /// How many blocks an edge cache has.
    EdgeBlocks,
    /// How many blocks an origin cache has.
    OriginBlocks,
    /// How many edge caches there are.
    Edges,
    /// How many origin caches there are.
    Origins,
    /// The delay from an edge to an origin.
    Up,
    /// The delay from an origin to an edge.
    Down,
    /// The delay from an origin to the backend and back.
    Back,
}

impl Part {
    /// Whether two names have it in common.
    pub(crate) fn is_same(self, a: &Name, b: &Name) -> bool {
        match self {
            Part::Policy => a.policy == b.policy,
            Part::Caches => a.caches == b.caches,
            Part::Sections => a.sizes.sections == b.sizes.sections,
            Part::Block => a.sizes.block == b.sizes.block,
            Part::EdgeBlocks => a.sizes.edge_blocks == b.sizes.edge_blocks,
            Part::OriginBlocks => a.sizes.origin_blocks == b.sizes.origin_blocks,
            Part::Edges => a.sizes.edges == b.sizes.edges,
            Part::Origins => a.sizes.origins == b.sizes.origins,
            Part::Up => a.sizes.up == b.sizes.up,
            Part::Down => a.sizes.down == b.sizes.down,
            Part::Back => a.sizes.back == b.sizes.back,
        }
    }
}

/// Which parts of a name differ among some names.
#[derive(Clone, Copy)]
pub(crate) struct Varying {
    /// The policy does.
    policies: bool,
    /// The caches do.
    caches: bool,
    /// The number of sections does.
    pub(crate) sections: bool,
    /// The size of a block does.
    pub(crate) blocks: bool,
    /// How many blocks an edge cache has does.
    pub(crate) edge_blocks: bool,
    /// How many blocks an origin cache has does.
    pub(crate) origin_blocks: bool,
    /// How many edge caches there are does.
    pub(crate) edges: bool,
    /// How many origin caches there are does.
    pub(crate) origins: bool,
    /// The delay from an edge to an origin does.
    pub(crate) up: bool,
    /// The delay from an origin to an edge does.
    pub(crate) down: bool,
    /// The delay from an origin to the backend and back does.
    pub(crate) back: bool,
}

impl Varying {
    /// Which parts differ among the names of these polylines.
    pub(crate) fn among(all: &AllSeries) -> Varying {
        let mut varying = Varying {
            policies: false,
            caches: false,
            sections: false,
            blocks: false,
            edge_blocks: false,
            origin_blocks: false,
            edges: false,
            origins: false,
            up: false,
            down: false,
            back: false,
        };
        let Some((first, _)) = all.first_key_value() else {
            return varying;
        };
        for name in all.keys() {
            varying.policies = varying.policies || name.policy != first.policy;
            varying.caches = varying.caches || name.caches != first.caches;
            varying = varying.with(name.sizes, first.sizes);
        }
        varying
    }

    /// The same, with the numbers that differ between two configurations.
    fn with(self, a: Configuration, b: Configuration) -> Varying {
        Varying {
            policies: self.policies,
            caches: self.caches,
            sections: self.sections || a.sections != b.sections,
            blocks: self.blocks || a.block != b.block,
            edge_blocks: self.edge_blocks || a.edge_blocks != b.edge_blocks,
            origin_blocks: self.origin_blocks || a.origin_blocks != b.origin_blocks,
            edges: self.edges || a.edges != b.edges,
            origins: self.origins || a.origins != b.origins,
            up: self.up || a.up != b.up,
            down: self.down || a.down != b.down,
            back: self.back || a.back != b.back,
        }
    }

    /// Whether a number that stands behind the policy does.
    pub(crate) fn is_any_number(self) -> bool {
        let is_any_size = self.sections || self.blocks || self.edge_blocks || self.origin_blocks;
        is_any_size || self.edges || self.origins || self.up || self.down || self.back
    }

    /// The first part that does; the policy where none does.
    pub(crate) fn first(self) -> Part {
        let parts = [
            (self.policies, Part::Policy),
            (self.caches, Part::Caches),
            (self.sections, Part::Sections),
            (self.blocks, Part::Block),
            (self.edge_blocks, Part::EdgeBlocks),
            (self.origin_blocks, Part::OriginBlocks),
            (self.edges, Part::Edges),
            (self.origins, Part::Origins),
            (self.up, Part::Up),
            (self.down, Part::Down),
            (self.back, Part::Back),
        ];
        for (varies, part) in parts {
            if varies {
                return part;
            }
        }
        Part::Policy
    }
}

/// From where to where some points reach.
#[derive(Clone, Copy)]
pub(crate) struct Extent {
    /// The least flash, in bytes.
    pub(crate) least_flash: u64,
    /// The most flash, in bytes.
    pub(crate) most_flash: u64,
    /// The first tick.
    pub(crate) first_tick: u64,
    /// The tick before which the last interval ends.
    pub(crate) past_tick: u64,
    /// The greatest value.
    pub(crate) most: u128,
    /// The most points of a polyline.
    pub(crate) most_points: usize,
}

impl Extent {
    /// From where to where the points of these polylines reach.
    pub(crate) fn of(all: &AllSeries, subject: Subject) -> Extent {
        let mut extent = Extent {
            least_flash: u64::MAX,
            most_flash: 1,
            first_tick: u64::MAX,
            past_tick: 0,
            most: 0,
            most_points: 0,
        };
        for points in all.values() {
            extent = extent.with(points.as_slice(), subject);
        }
        extent
    }

    /// The same, with some more points.
    fn with(self, points: &[Sample], subject: Subject) -> Extent {
        let mut extent = self;
        extent.most_points = extent.most_points.max(points.len());
        for point in points {
            let flash_bytes = subject.x.flash_bytes(point);
            extent.least_flash = extent.least_flash.min(flash_bytes);
            extent.most_flash = extent.most_flash.max(flash_bytes);
            if let Some(interval) = point.interval {
                extent.first_tick = extent.first_tick.min(interval.from);
                extent.past_tick = extent.past_tick.max(interval.to);
            }
            extent.most = extent.most.max(subject.value(point));
        }
        extent
    }
}
