//! What stands on the x axis, and so which rows a line joins.

ghost use Rattle.std.specs.Prelude.{◌≡◌};
ghost use Rattle.rw_plot.specs.Names.{sizes_of_row};

use crate::layout::Layout;
use crate::measure::{Caches, Drawing, FlashOf};
use crate::sample::{Configuration, Line, Sample};
use std::fmt;

/// What stands on the x axis.
///
/// A line joins rows that differ only in what the axis tells: the time, the blocks of an edge cache, or those of an origin cache.
/// All else is in its name. So rows of different policies, sections, blocks, numbers of caches or delays are never joined, and at
/// most one of the two block counts changes along a line.
#[derive(Clone, Copy)]
pub(crate) enum XAxis {
    /// The time.
    Time,
    /// The size of some flash.
    Flash(Flash),
}

/// The caches whose block count changes along a line.
#[derive(Clone, Copy)]
pub(crate) enum Along {
    /// The edge caches.
    Edges,
    /// The origin caches.
    Origins,
}

/// The flash that stands on the x axis.
#[derive(Clone, Copy)]
pub(crate) struct Flash {
    /// Whose it is.
    of: FlashOf,
    /// Of which caches the rows tell.
    caches: Caches,
    /// Whose block count changes along a line.
    along: Along,
}

impl XAxis {
    /// The x axis for these rows of a table.
    pub(crate) fn new(layout: Layout, drawing: Drawing, lines: &[Line]) -> XAxis {
        if layout.is_over_time() {
            return XAxis::Time;
        }
        let caches = drawing.caches.unwrap_or(Caches::All);
        XAxis::Flash(Flash::new(drawing.x, caches, BlockCounts::among(lines)))
    }

    /// The flash over which a row stands, in bytes; 0 over time.
    pub(crate) fn flash_bytes(self, sample: &Sample) -> u64 {
        match self {
            XAxis::Time => 0,
            XAxis::Flash(flash) => flash.bytes(sample),
        }
    }

    /// The caches whose block count changes along a line; none over time.
    pub(crate) fn along(self) -> Option<Along> {
        match self {
            XAxis::Time => None,
            XAxis::Flash(flash) => Some(flash.along),
        }
    }
}

impl Flash {
    /// The flash that is asked for, or else the one that tells these rows apart.
    fn new(asked: Option<FlashOf>, caches: Caches, varying: BlockCounts) -> Flash {
        let of = asked.unwrap_or(varying.default_flash(caches));
        let along = match (of, caches) {
            (FlashOf::Edge, _) | (FlashOf::Total, Caches::Edges) => Along::Edges,
            (FlashOf::Origin, _) | (FlashOf::Total, Caches::Origins) => Along::Origins,
            // The total changes with both counts: of two that vary, that of the origins stays in the name.
            (FlashOf::Total, Caches::All) if varying.edges || !varying.origins => Along::Edges,
            (FlashOf::Total, Caches::All) => Along::Origins,
        };
        Flash { of, caches, along }
    }

    /// The size over which a row stands, in bytes.
    pub(crate) fn bytes(self, sample: &Sample) -> u64 {
        let sizes = sizes_of(sample);
        match self.of {
            FlashOf::Edge => sizes.edge_blocks.saturating_mul(sizes.block),
            FlashOf::Origin => sizes.origin_blocks.saturating_mul(sizes.block),
            FlashOf::Total => sample.figures.flash_bytes,
        }
    }

    /// Whose it is, as a picture says it behind the word `flash`.
    pub(crate) fn whose(self) -> &'static str {
        match (self.of, self.caches) {
            (FlashOf::Edge, _) => "of an edge",
            (FlashOf::Origin, _) => "of an origin",
            (FlashOf::Total, Caches::Edges) => "of all edges",
            (FlashOf::Total, Caches::Origins) => "of all origins",
            (FlashOf::Total, Caches::All) => "of all caches",
        }
    }
}

/// What the axis is called.
impl fmt::Display for Flash {
    fn fmt<W: fmt::Write>(&self, f: &mut fmt::Formatter<W>) -> fmt::Result {
        let whose = self.whose();
        write!(f, "Flash {whose} (log scale)")
    }
}

/// The numbers of the configuration of a row; all are 0 in a table of one configuration.
pub(crate) fn sizes_of(sample: &Sample) -> Configuration
    ensures { result ≡ sizes_of_row sample.now }
{
    sample.configuration.unwrap_or(Configuration {
        sections: 0,
        block: 0,
        edge_blocks: 0,
        origin_blocks: 0,
        edges: 0,
        origins: 0,
        up: 0,
        down: 0,
        back: 0,
    })
}

/// Which block counts differ among some rows.
#[derive(Clone, Copy)]
struct BlockCounts {
    /// Those of an edge cache do.
    edges: bool,
    /// Those of an origin cache do.
    origins: bool,
}

impl BlockCounts {
    /// Which differ among these rows.
    fn among(lines: &[Line]) -> BlockCounts {
        let mut varying = BlockCounts {
            edges: false,
            origins: false,
        };
        let Some(first) = lines.first() else {
            return varying;
        };
        let first = sizes_of(&first.sample);
        for line in lines {
            let sizes = sizes_of(&line.sample);
            varying.edges = varying.edges || sizes.edge_blocks != first.edge_blocks;
            varying.origins = varying.origins || sizes.origin_blocks != first.origin_blocks;
        }
        varying
    }

    /// Whose flash tells rows of these caches apart: the total, unless both counts vary, or only that of the other caches does.
    fn default_flash(self, caches: Caches) -> FlashOf {
        match (caches, self.edges, self.origins) {
            (Caches::Origins, true, true) | (Caches::Edges, false, true) => FlashOf::Origin,
            (_, true, true) | (Caches::Origins, true, false) => FlashOf::Edge,
            _ => FlashOf::Total,
        }
    }
}
