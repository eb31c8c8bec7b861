// The rows of a table that are drawn, or its first fault.
ghost use Rattle.std.specs.Prelude.{◌≡◌, ◌≢◌, ◌∷◌, [], IfOk, IfErr, OnOk, Ok, Some, Err, map, ◌++◌, if◌then◌else◌, false, true};
ghost use Rattle.csv.specs.Records.{fields_of};
ghost use Rattle.rw_trace.specs.Unread.{Steady, records_of, unread};
ghost use Rattle.rw_plot.specs.Layouts.{layout_of_table};
ghost use Rattle.rw_plot.specs.Tables.{are_same_caches, drawn_caches, drawn_of, drawn_row, has_table_header, is_drawn, most_lines, policy_of_fields, row_of_line, rows_drawn, table_of};
ghost use Rattle.rw_plot.specs.declared.plot_fault.PlotFault.TheVariants.{Header, Memory};

use crate::header::table_places;
use crate::layout::Layout;
use crate::measure::{Caches, Drawing};
use crate::places::{ConfigurationPlaces, Places};
use crate::plot_fault::PlotFault;
use crate::row::sample_at;
use crate::sample::{Line, Sample, Table};
use csv::{ByteRecord, Reader};
use rw_trace::{next_record, open_records};
use std::alloc::Global;

/// The most rows of a table behind its header: 2^20.
pub const MAX_LINES: u64 = 1 << 20;

/// [`MAX_LINES`] is the limit that stands in `specs/Tables.antt`, which the definitions cite. The call itself does nothing.
pub fn every_limit()
    ensures { MAX_LINES ≡ most_lines }
{}

/// Whether two are the same caches.
fn is_same(a: Caches, b: Caches) -> bool
    ensures { result ≡ are_same_caches a b }
{
    match (a, b) {
        (Caches::Edges, Caches::Edges)
        | (Caches::Origins, Caches::Origins)
        | (Caches::All, Caches::All) => true,
        _ => false,
    }
}

/// The caches that are drawn, or `None` where all three are.
fn caches_drawn(layout: Layout, asked: Option<Caches>) -> Option<Caches>
    ensures { result ≡ drawn_caches layout asked }
{
    match (layout, asked) {
        (_, Some(caches)) => Some(caches),
        (Layout::Sweep | Layout::SweepOverTime, None) => Some(Caches::All),
        (Layout::OverTime, None) => None,
    }
}

/// Whether a row of these caches is drawn.
fn is_among(drawn: Option<Caches>, caches: Caches) -> bool
    ensures { result ≡ is_drawn drawn caches }
{
    match drawn {
        None => true,
        Some(drawn) => is_same(caches, drawn),
    }
}

/// The text of the policy of a record; none in a table of one configuration.
#[tactic(auto, unfolding(crate::specs::Tables::policy_of_fields))]
fn policy_of<'a>(places: &Option<ConfigurationPlaces>, fields: &'a ByteRecord) -> &'a [u8]
    ensures { result.now ≡ policy_of_fields places.now (fields_of fields.now) }
{
    match places {
        Some(places) => fields.get(places.policy).unwrap_or(b""),
        None => b"",
    }
}

/// The row of a record, with its policy. `Memory` where memory was refused.
fn line_of_record(alloc: Global, policy: &[u8], sample: Sample) -> Result<Line, PlotFault>
    ensures row { IfOk result (λ l. row_of_line l ≡ drawn_row policy.now sample) }
    ensures refused { IfErr result (λ e. e ≡ Memory) }
{
    match Vec::from_slice(alloc, policy) {
        Ok(policy) => Ok(Line { policy, sample }),
        Err(_) => Err(PlotFault::Memory),
    }
}

/// Puts a row to some others, if it is drawn. `Memory` where memory was refused.
fn add_line(
    alloc: Global,
    lines: &mut Vec<Line>,
    policy: &[u8],
    sample: Sample,
    drawn: Option<Caches>,
) -> Result<(), PlotFault>
    ensures rows { OnOk result (map row_of_line lines.new.items
        ≡ (if is_drawn drawn sample.caches
        then map row_of_line lines.old.items ++ drawn_row policy.now sample ∷ []
        else map row_of_line lines.old.items)) }
    ensures refused { IfErr result (λ e. e ≡ Memory) }
{
    if !is_among(drawn, sample.caches) {
        return Ok(());
    }
    let one = line_of_record(alloc, policy, sample)?;
    if lines.push(one).is_err() {
        return Err(PlotFault::Memory);
    }
    Ok(())
}

/// Puts the rows that are drawn among the records that are left into `lines`, which is empty; or the first fault among all of
/// them.
fn lines_left(
    alloc: Global,
    reader: &mut Reader<&[u8]>,
    fields: &mut ByteRecord,
    places: &Places,
    drawn: Option<Caches>,
    lines: &mut Vec<Line>,
) -> Result<(), PlotFault>
    requires steady { Steady reader.old }
    requires empty { lines.old.items ≡ [] }
    ensures rows { OnOk result (drawn_of places.now drawn most_lines 0 (unread reader.old)
        ≡ Ok (map row_of_line lines.new.items)) }
    ensures fault { IfErr result (λ e.
        e ≢ Memory → drawn_of places.now drawn most_lines 0 (unread reader.old) ≡ Err e) }
{
    for at in 0..MAX_LINES {
        if !next_record(reader, fields)? {
            return Ok(());
        }
        let sample = sample_at(places, fields, at)?;
        let policy = policy_of(&places.configuration, fields);
        add_line(alloc, lines, policy, sample, drawn)?;
    }
    if next_record(reader, fields)? {
        return Err(PlotFault::TooManyRows);
    }
    Ok(())
}

/// Puts the rows that are drawn, below a header, into `lines`, which is empty; there is one at least.
#[tactic(auto, unfolding(crate::specs::Tables::rows_drawn))]
fn lines_below(
    alloc: Global,
    reader: &mut Reader<&[u8]>,
    fields: &mut ByteRecord,
    places: &Places,
    drawing: Drawing,
    lines: &mut Vec<Line>,
) -> Result<(), PlotFault>
    requires steady { Steady reader.old }
    requires empty { lines.old.items ≡ [] }
    ensures rows { OnOk result (rows_drawn drawing (unread reader.old) places.now
        ≡ Ok (map row_of_line lines.new.items)) }
    ensures fault { IfErr result (λ e.
        e ≢ Memory → rows_drawn drawing (unread reader.old) places.now ≡ Err e) }
{
    if places.lacks(drawing.measure) {
        return Err(PlotFault::NoBackendBytes);
    }
    if places.layout.lacks_flash_axis(drawing.x) {
        return Err(PlotFault::NoFlashAxis);
    }
    let drawn = caches_drawn(places.layout, drawing.caches);
    lines_left(alloc, reader, fields, places, drawn, lines)?;
    if lines.is_empty() {
        return Err(PlotFault::Nothing);
    }
    Ok(())
}

/// Puts the rows that are drawn of the table of these records into `lines`, which is empty; there is one at least.
#[tactic(auto, unfolding(crate::specs::Tables::table_of))]
fn lines_of_table(
    alloc: Global,
    reader: &mut Reader<&[u8]>,
    fields: &mut ByteRecord,
    drawing: Drawing,
    lines: &mut Vec<Line>,
) -> Result<Layout, PlotFault>
    requires steady { Steady reader.old }
    requires empty { lines.old.items ≡ [] }
    ensures layout { IfOk result (λ layout. layout_of_table (unread reader.old) ≡ Some layout) }
    ensures rows { OnOk result (table_of drawing (unread reader.old)
        ≡ Ok (map row_of_line lines.new.items)) }
    ensures fault { IfErr result (λ e.
        e ≢ Memory → table_of drawing (unread reader.old) ≡ Err e) }
{
    if !next_record(reader, fields)? {
        return Err(PlotFault::Header);
    }
    let Some(places) = table_places(fields) else {
        return Err(PlotFault::Header);
    };
    lines_below(alloc, reader, fields, &places, drawing, lines)?;
    Ok(places.layout)
}

/// The rows of the bytes of a table that are drawn.
///
/// # Errors
///
/// `Header` where the first record is the header of no table; else `NoBackendBytes` where these are asked for and there is no such
/// column; else `NoFlashAxis` where the x axis of a table over time is to be the flash; else the first fault of the rows: that of
/// the first faulty row, within it first its length, and then in this order, wherever its columns stand: its configuration, its
/// interval, its caches, what it tells of them, and the bytes that were asked of the backend. Other columns may hold any text.
/// `TooManyRows` for more than [`MAX_LINES`] rows. `Nothing` where no row is of the caches that are drawn. `Memory` where a
/// request for memory was refused; nothing is said of the table then.
pub fn read(alloc: Global, bytes: &[u8], drawing: Drawing) -> Result<Table, PlotFault>
    ensures layout { IfOk result (λ t. layout_of_table (records_of bytes.now) ≡ Some t.layout) }
    ensures rows { IfOk result (λ t. table_of drawing (records_of bytes.now)
        ≡ Ok (map row_of_line t.lines.items)) }
    ensures fault { IfErr result (λ e.
        e ≢ Memory → table_of drawing (records_of bytes.now) ≡ Err e) }
    ensures headed { IfOk result (λ _. has_table_header (records_of bytes.now) ≡ true) }
    ensures header { IfErr result (λ e.
        e ≡ Header → has_table_header (records_of bytes.now) ≡ false) }
{
    let mut lines = Vec::new(alloc);
    let mut reader = open_records(alloc, bytes);
    let mut fields = ByteRecord::new(alloc);
    let layout = lines_of_table(alloc, &mut reader, &mut fields, drawing, &mut lines)?;
    Ok(Table { layout, lines })
}
