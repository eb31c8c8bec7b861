// The numbers of a row, or what is first wrong in it.
ghost use Rattle.std.specs.Prelude.{◌≡◌};
ghost use Rattle.csv.specs.Records.{fields_of};
ghost use Rattle.rw_plot.specs.Tables.{backend_bytes_of, caches_of_column, configuration_of, count_if, count_of_column, figures_of, flash_of_column, interval_of, interval_to, millionths_of, ratio_of, ratio_of_column, sample_of, sizes_of, ticks_of};

use crate::header::is_field;
use crate::measure::Caches;
use crate::places::{ConfigurationPlaces, FigurePlaces, IntervalPlaces, Places};
use crate::plot_fault::PlotFault;
use crate::sample::{Configuration, Figures, Interval, Sample};
use csv::ByteRecord;
use rw_trace::number;

/// The whole number at a column of a row, or `Number` where its field writes none.
#[tactic(auto, unfolding(crate::specs::Tables::count_of_column))]
fn count_at(fields: &ByteRecord, row: u64, column: usize) -> Result<u64, PlotFault>
    ensures { result ≡ count_of_column row column (fields_of fields.now) }
{
    let fault = PlotFault::Number(row, column as u64);
    match fields.get(column) {
        Some(field) => number(field).ok_or(fault),
        None => Err(fault),
    }
}

/// The whole number at a column of a row, or 0 in a table that lacks it; or `Number` where its field writes none.
fn count_if(fields: &ByteRecord, row: u64, column: Option<usize>) -> Result<u64, PlotFault>
    ensures { result ≡ count_if row column (fields_of fields.now) }
{
    match column {
        Some(column) => count_at(fields, row, column),
        None => Ok(0),
    }
}

/// A ratio in millionths, from its digit and its six decimals. `None` exactly where it is over 1, or one of them is none.
fn millionths(whole: Option<u64>, decimals: Option<u64>) -> Option<u64>
    ensures { result ≡ millionths_of whole decimals }
{
    match (whole, decimals) {
        (Some(0), decimals) => decimals,
        (Some(1), Some(0)) => Some(1_000_000),
        _ => None,
    }
}

/// The ratio that a field writes, in millionths: a digit, a point and six decimals, at most 1. `None` exactly where it
/// writes none.
#[tactic(auto, unfolding(crate::specs::Tables::ratio_of))]
fn ratio(field: &[u8]) -> Option<u64>
    ensures { result ≡ ratio_of field.now }
{
    if field.len() != 8 || field[1] != b'.' {
        return None;
    }
    millionths(number(&field[..1]), number(&field[2..]))
}

/// The ratio at a column of a row, in millionths, or `Number` where its field writes none.
#[tactic(auto, unfolding(crate::specs::Tables::ratio_of_column))]
fn ratio_at(fields: &ByteRecord, row: u64, column: usize) -> Result<u64, PlotFault>
    ensures { result ≡ ratio_of_column row column (fields_of fields.now) }
{
    let fault = PlotFault::Number(row, column as u64);
    match fields.get(column) {
        Some(field) => ratio(field).ok_or(fault),
        None => Err(fault),
    }
}

/// The size of the flash at a column of a row, or `Number` where its field writes none that is over 0.
#[tactic(auto, unfolding(crate::specs::Tables::flash_of_column))]
fn flash_at(fields: &ByteRecord, row: u64, column: usize) -> Result<u64, PlotFault>
    ensures { result ≡ flash_of_column row column (fields_of fields.now) }
{
    let flash_bytes = count_at(fields, row, column)?;
    if flash_bytes == 0 {
        return Err(PlotFault::Number(row, column as u64));
    }
    Ok(flash_bytes)
}

/// The numbers of the configuration of a row, or what is first wrong in them.
#[tactic(auto, unfolding(crate::specs::Tables::sizes_of))]
fn sizes_at(
    places: &ConfigurationPlaces,
    fields: &ByteRecord,
    row: u64,
) -> Result<Configuration, PlotFault>
    ensures { result ≡ sizes_of places.now row (fields_of fields.now) }
{
    let sections = count_at(fields, row, places.sections)?;
    let block = count_at(fields, row, places.block)?;
    let edge_blocks = count_at(fields, row, places.edge_blocks)?;
    let origin_blocks = count_at(fields, row, places.origin_blocks)?;
    let edges = count_if(fields, row, places.edges)?;
    let origins = count_if(fields, row, places.origins)?;
    let up = count_if(fields, row, places.up)?;
    let down = count_if(fields, row, places.down)?;
    let back = count_if(fields, row, places.back)?;
    Ok(Configuration {
        sections,
        block,
        edge_blocks,
        origin_blocks,
        edges,
        origins,
        up,
        down,
        back,
    })
}

/// The configuration of a row, which a table of one does not tell, or what is first wrong in it.
#[tactic(auto, unfolding(crate::specs::Tables::configuration_of))]
fn configuration_at(
    places: &Option<ConfigurationPlaces>,
    fields: &ByteRecord,
    row: u64,
) -> Result<Option<Configuration>, PlotFault>
    ensures { result ≡ configuration_of places.now row (fields_of fields.now) }
{
    match places {
        Some(places) => Ok(Some(sizes_at(places, fields, row)?)),
        None => Ok(None),
    }
}

/// The interval from a tick to another, or `Number` of the row and the column of the second where that is not over the first.
fn interval_between(row: u64, column: usize, from: u64, to: u64) -> Result<Interval, PlotFault>
    ensures { result ≡ interval_to row column from to }
{
    if from < to {
        Ok(Interval { from, to })
    } else {
        Err(PlotFault::Number(row, column as u64))
    }
}

/// The interval at two columns of a row, or what is first wrong in it.
#[tactic(auto, unfolding(crate::specs::Tables::ticks_of))]
fn ticks_at(places: IntervalPlaces, fields: &ByteRecord, row: u64) -> Result<Interval, PlotFault>
    ensures { result ≡ ticks_of places row (fields_of fields.now) }
{
    let from = count_at(fields, row, places.from)?;
    let to = count_at(fields, row, places.to)?;
    interval_between(row, places.to, from, to)
}

/// The interval of a row, which only a table over time tells, or what is first wrong in it.
#[tactic(auto, unfolding(crate::specs::Tables::interval_of))]
fn interval_at(
    places: Option<IntervalPlaces>,
    fields: &ByteRecord,
    row: u64,
) -> Result<Option<Interval>, PlotFault>
    ensures { result ≡ interval_of places row (fields_of fields.now) }
{
    match places {
        Some(places) => Ok(Some(ticks_at(places, fields, row)?)),
        None => Ok(None),
    }
}

/// The caches at a column of a row, or `None` where its field is none of the three words.
#[tactic(auto, unfolding(crate::specs::Tables::caches_of_column))]
fn caches_at(fields: &ByteRecord, column: usize) -> Option<Caches>
    ensures { result ≡ caches_of_column column (fields_of fields.now) }
{
    if is_field(fields, column, b"edges") {
        Some(Caches::Edges)
    } else if is_field(fields, column, b"origins") {
        Some(Caches::Origins)
    } else if is_field(fields, column, b"all") {
        Some(Caches::All)
    } else {
        None
    }
}

/// What a row tells of its caches, or what is first wrong in it.
#[tactic(auto, unfolding(crate::specs::Tables::figures_of))]
fn figures_at(places: &FigurePlaces, fields: &ByteRecord, row: u64) -> Result<Figures, PlotFault>
    ensures { result ≡ figures_of places.now row (fields_of fields.now) }
{
    let hit_ratio = ratio_at(fields, row, places.hit_ratio)?;
    let byte_hit_ratio = ratio_at(fields, row, places.byte_hit_ratio)?;
    let flash_bytes = flash_at(fields, row, places.flash_bytes)?;
    let written_bytes = count_at(fields, row, places.written_bytes)?;
    let backend_requests = count_at(fields, row, places.backend_requests)?;
    Ok(Figures {
        hit_ratio,
        byte_hit_ratio,
        flash_bytes,
        written_bytes,
        backend_requests,
    })
}

/// The bytes that were asked of the backend, which a table may lack, or `Number` where the field writes no whole number.
#[tactic(auto, unfolding(crate::specs::Tables::backend_bytes_of))]
fn backend_bytes_at(
    column: Option<usize>,
    fields: &ByteRecord,
    row: u64,
) -> Result<Option<u64>, PlotFault>
    ensures { result ≡ backend_bytes_of column row (fields_of fields.now) }
{
    match column {
        Some(column) => Ok(Some(count_at(fields, row, column)?)),
        None => Ok(None),
    }
}

/// What is drawn of a record, or what is first wrong in it.
#[tactic(auto, unfolding(crate::specs::Tables::sample_of))]
pub(crate) fn sample_at(places: &Places, fields: &ByteRecord, row: u64) -> Result<Sample, PlotFault>
    ensures { result ≡ sample_of places.now row (fields_of fields.now) }
{
    if fields.len() != places.width {
        return Err(PlotFault::RowLength(row));
    }
    let configuration = configuration_at(&places.configuration, fields, row)?;
    let interval = interval_at(places.interval, fields, row)?;
    let caches = caches_at(fields, places.caches).ok_or(PlotFault::Caches(row))?;
    let figures = figures_at(&places.figures, fields, row)?;
    let backend_bytes = backend_bytes_at(places.backend_bytes, fields, row)?;
    Ok(Sample {
        configuration,
        interval,
        caches,
        figures,
        backend_bytes,
    })
}
