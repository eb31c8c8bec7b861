// The header of a table says which of the three it is, and where its columns stand.
ghost use Rattle.std.specs.Prelude.{◌≡◌};
ghost use Rattle.csv.specs.Records.{fields_of};
ghost use Rattle.rw_trace.specs.Trace.{is_text_at};
ghost use Rattle.rw_plot.specs.Layouts.{configuration_places, figure_places, interval_places, layout_with, column_named, table_places};

use crate::layout::Layout;
use crate::places::{ConfigurationPlaces, FigurePlaces, IntervalPlaces, Places};
use csv::ByteRecord;

/// Whether the field at a column is `text`.
#[tactic(auto, unfolding(rw_trace::specs::Trace::is_text_at))]
pub(crate) fn is_field(fields: &ByteRecord, column: usize, text: &[u8]) -> bool
    ensures { result ≡ is_text_at column text.now (fields_of fields.now) }
{
    match fields.get(column) {
        Some(field) => field == text,
        None => false,
    }
}

/// The place of the first column of this name.
fn column_named(header: &ByteRecord, name: &[u8]) -> Option<usize>
    ensures { result ≡ column_named name.now (fields_of header.now) }
{
    for place in 0..header.len() {
        if is_field(header, place, name) {
            return Some(place);
        }
    }
    None
}

/// The places of the columns of a configuration. `None` where one is missing that each table of a sweep has.
#[tactic(auto, unfolding(crate::specs::Layouts::configuration_places))]
fn configuration_places(header: &ByteRecord) -> Option<ConfigurationPlaces>
    ensures { result ≡ configuration_places (fields_of header.now) }
{
    let policy = column_named(header, b"policy")?;
    let sections = column_named(header, b"sections")?;
    let block = column_named(header, b"block")?;
    let edge_blocks = column_named(header, b"edge_blocks")?;
    let origin_blocks = column_named(header, b"origin_blocks")?;
    Some(ConfigurationPlaces {
        policy,
        sections,
        block,
        edge_blocks,
        origin_blocks,
        edges: column_named(header, b"edges"),
        origins: column_named(header, b"origins"),
        up: column_named(header, b"up"),
        down: column_named(header, b"down"),
        back: column_named(header, b"back"),
    })
}

/// The places of the columns of an interval. `None` where one is missing.
#[tactic(auto, unfolding(crate::specs::Layouts::interval_places))]
fn interval_places(header: &ByteRecord) -> Option<IntervalPlaces>
    ensures { result ≡ interval_places (fields_of header.now) }
{
    let from = column_named(header, b"from")?;
    let to = column_named(header, b"to")?;
    Some(IntervalPlaces { from, to })
}

/// The places of the columns of the figures. `None` where one is missing.
#[tactic(auto, unfolding(crate::specs::Layouts::figure_places))]
fn figure_places(header: &ByteRecord) -> Option<FigurePlaces>
    ensures { result ≡ figure_places (fields_of header.now) }
{
    let hit_ratio = column_named(header, b"hit_ratio")?;
    let byte_hit_ratio = column_named(header, b"byte_hit_ratio")?;
    let flash_bytes = column_named(header, b"flash_bytes")?;
    let written_bytes = column_named(header, b"written_bytes")?;
    let backend_requests = column_named(header, b"backend_requests")?;
    Some(FigurePlaces {
        hit_ratio,
        byte_hit_ratio,
        flash_bytes,
        written_bytes,
        backend_requests,
    })
}

/// The table with a column `policy` or none, and with these columns of a configuration and of an interval. `None` where these
/// are those of no table.
fn layout_with(
    policy: Option<usize>,
    configuration: Option<ConfigurationPlaces>,
    interval: Option<IntervalPlaces>,
) -> Option<Layout>
    ensures { result ≡ layout_with policy configuration interval }
{
    match (policy, configuration, interval) {
        (Some(_), Some(_), None) => Some(Layout::Sweep),
        (Some(_), Some(_), Some(_)) => Some(Layout::SweepOverTime),
        (None, _, Some(_)) => Some(Layout::OverTime),
        (Some(_), None, _) | (None, _, None) => None,
    }
}

/// Where the columns that are drawn stand in the table whose header a record is; `None` exactly where it is none's.
#[tactic(auto, unfolding(crate::specs::Layouts::table_places, crate::specs::Layouts::layout_of))]
pub(crate) fn table_places(header: &ByteRecord) -> Option<Places>
    ensures { result ≡ table_places (fields_of header.now) }
{
    let configuration = configuration_places(header);
    let interval = interval_places(header);
    let layout = layout_with(column_named(header, b"policy"), configuration, interval)?;
    let caches = column_named(header, b"caches")?;
    let figures = figure_places(header)?;
    Some(Places {
        layout,
        width: header.len(),
        configuration,
        interval,
        caches,
        figures,
        backend_bytes: column_named(header, b"backend_bytes"),
    })
}
