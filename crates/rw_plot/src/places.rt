// Where the columns of a table stand that are drawn.
ghost use Rattle.std.specs.Prelude.{◌≡◌};
ghost use Rattle.rw_plot.specs.Tables.{lacks_measure};

use crate::layout::Layout;
use crate::measure::Measure;

/// Where the columns of a configuration stand in a row, counted from 0.
#[derive(Clone, Copy)]
pub struct ConfigurationPlaces {
    /// Where `policy` stands.
    pub policy: usize,
    /// Where `sections` stands.
    pub sections: usize,
    /// Where `block` stands.
    pub block: usize,
    /// Where `edge_blocks` stands.
    pub edge_blocks: usize,
    /// Where `origin_blocks` stands.
    pub origin_blocks: usize,
    /// Where `edges` stands, if there is such a column.
    pub edges: Option<usize>,
    /// Where `origins` stands, if there is such a column.
    pub origins: Option<usize>,
    /// Where `up` stands, if there is such a column.
    pub up: Option<usize>,
    /// Where `down` stands, if there is such a column.
    pub down: Option<usize>,
    /// Where `back` stands, if there is such a column.
    pub back: Option<usize>,
}

/// Where the columns of an interval stand in a row, counted from 0.
#[derive(Clone, Copy)]
pub struct IntervalPlaces {
    /// Where `from` stands.
    pub from: usize,
    /// Where `to` stands.
    pub to: usize,
}

/// Where the columns of the figures stand in a row, counted from 0.
#[derive(Clone, Copy)]
pub struct FigurePlaces {
    /// Where `hit_ratio` stands.
    pub hit_ratio: usize,
    /// Where `byte_hit_ratio` stands.
    pub byte_hit_ratio: usize,
    /// Where `flash_bytes` stands.
    pub flash_bytes: usize,
    /// Where `written_bytes` stands.
    pub written_bytes: usize,
    /// Where `backend_requests` stands.
    pub backend_requests: usize,
}

/// Where the columns that are drawn stand in the rows of a table, counted from 0.
#[derive(Clone, Copy)]
pub struct Places {
    /// Which table it is.
    pub layout: Layout,
    /// How many columns it has.
    pub width: usize,
    /// Those of the configuration; `None` in a table of one configuration.
    pub configuration: Option<ConfigurationPlaces>,
    /// Those of the interval; `None` in a sweep's table, which is of the whole trace.
    pub interval: Option<IntervalPlaces>,
    /// Where `caches` stands.
    pub caches: usize,
    /// Those of what a row tells of its caches.
    pub figures: FigurePlaces,
    /// Where `backend_bytes` stands, if there is such a column.
    pub backend_bytes: Option<usize>,
}

impl Places {
    /// Whether the table lacks what is to be drawn of it.
    pub(crate) fn lacks(&self, measure: Measure) -> bool
        ensures { result ≡ lacks_measure self.now.backend_bytes measure }
    {
        match (self.backend_bytes, measure) {
            (None, Measure::BackendBytes) => true,
            _ => false,
        }
    }
}
