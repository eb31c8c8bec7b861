// What the edges, the origins and all caches of a configuration have counted together.
ghost use Rattle.std.specs.Prelude.{◌≡◌, ◌<◌, ◌*◌, ◌^◌, ◌++◌, OnOk};
ghost use Rattle.rw_photo.specs.Counts.{minus};
ghost use Rattle.rw_report.specs.Columns.{those_of};
ghost use Rattle.rw_report.specs.Formats.{measured_at, sums_of};
ghost use Rattle.rw_report.specs.Sums.{counted_by, edges_measured, measured_by, origins_measured, sums_line};

use crate::columns::{Caches, Measured, caches_name, totals, write_counts};
use rw_photo::{Config, Counters, NoMemory, Shape};

/// What the caches of a configuration have counted together.
#[derive(Clone, Copy)]
pub(crate) struct Sums {
    /// The edges.
    pub edges: Counters,
    /// The origins.
    pub origins: Counters,
    /// All caches.
    pub all: Counters,
}

impl Sums {
    /// What these caches have counted together.
    fn counted(&self, caches: Caches) -> &Counters
        ensures { result.now ≡ counted_by self.now caches }
    {
        match caches {
            Caches::Edges => &self.edges,
            Caches::Origins => &self.origins,
            Caches::All => &self.all,
        }
    }

    /// What is measured of these caches.
    fn measured(&self, config: &Config, caches: Caches) -> Measured
        ensures { result ≡ measured_by config.now self.now caches }
    {
        let edges = edges_measured(config, config.edges(), &self.edges);
        let origins = origins_measured(config, config.origins(), &self.origins);
        match caches {
            Caches::Edges => edges,
            Caches::Origins => origins,
            Caches::All => Measured {
                flash_bytes: edges.flash_bytes + origins.flash_bytes,
                written_bytes: edges.written_bytes + origins.written_bytes,
                ..origins
            },
        }
    }
}

/// What the edges, the origins and all caches have counted together.
pub(crate) fn sums_of(config: &Config, all: &[Counters]) -> Sums
    ensures { result ≡ sums_of config.now all.now }
{
    Sums {
        edges: totals(those(config, Caches::Edges, all)),
        origins: totals(those(config, Caches::Origins, all)),
        all: totals(all),
    }
}

/// Writes the columns of these caches, from their name on, and the end of their line.
pub(crate) fn write_sums(
    text: &mut Vec<u8>,
    config: &Config,
    sums: &Sums,
    caches: Caches,
) -> Result<(), NoMemory>
    ensures { OnOk result
        (text.new.items ≡ text.old.items ++ sums_line config.now sums.now caches) }
{
    text.extend_from_slice(caches_name(caches))?;
    write_counts(text, sums.counted(caches), sums.measured(config, caches))?;
    text.push(b'\n')?;
    Ok(())
}

/// Of what is said of each cache, the edges first, that of these caches.
pub(crate) fn those<'a>(config: &Config, caches: Caches, all: &'a [Counters]) -> &'a [Counters]
    ensures { result.now ≡ those_of config.now caches all.now }
{
    let edges = (config.edges() as usize).min(all.len());
    match caches {
        Caches::Edges => &all[..edges],
        Caches::Origins => &all[edges..],
        Caches::All => all,
    }
}

/// What is measured of the cache of a process.
pub(crate) fn measured_at(config: &Config, process: u64, counted: &Counters) -> Measured
    ensures { result ≡ measured_at config.now process counted.now }
{
    if process < u64::from(config.edges()) {
        edges_measured(config, 1, counted)
    } else {
        origins_measured(config, 1, counted)
    }
}

/// What is measured of so many edges that have counted so much together: they never ask the backend.
fn edges_measured(config: &Config, count: u32, counted: &Counters) -> Measured
    ensures measured { result ≡ edges_measured config.now count counted.now }
    ensures flash { result.flash_bytes < 2 ^ 80 }
    ensures written { result.written_bytes < 2 ^ 100 }
{
    Measured {
        flash_bytes: flash_bytes(count, config.edge_shape()),
        written_bytes: written_bytes(counted, config.edge_shape()),
        backend_requests: 0,
        backend_bytes: 0,
    }
}

/// What is measured of so many origins that have counted so much together: each miss asks the backend.
fn origins_measured(config: &Config, count: u32, counted: &Counters) -> Measured
    ensures measured { result ≡ origins_measured config.now count counted.now }
    ensures flash { result.flash_bytes < 2 ^ 80 }
    ensures written { result.written_bytes < 2 ^ 100 }
{
    Measured {
        flash_bytes: flash_bytes(count, config.origin_shape()),
        written_bytes: written_bytes(counted, config.origin_shape()),
        backend_requests: counted.misses,
        backend_bytes: counted.request_bytes.wrapping_sub(counted.hit_bytes),
    }
}

/// The bytes of all device blocks of so many caches of a shape.
fn flash_bytes(count: u32, shape: Shape) -> u128
    ensures bytes { result ≡ count * shape.blocks * shape.block }
    ensures few { result < 2 ^ 80 }
{
    let (_, block, blocks) = shape.limits();
    u128::from(count) * u128::from(blocks) * u128::from(block)
}

/// The bytes of the blocks that caches of a shape have written.
fn written_bytes(counted: &Counters, shape: Shape) -> u128
    ensures bytes { result ≡ counted.now.writes * shape.block }
    ensures few { result < 2 ^ 100 }
{
    let (_, block, _) = shape.limits();
    u128::from(counted.writes) * u128::from(block)
}
