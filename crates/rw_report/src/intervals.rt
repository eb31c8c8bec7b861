// The texts of a run, over time or in all.
ghost use Rattle.std.specs.Prelude.{◌≡◌, ◌++◌, ◌↔◌, None, IfOk, IfSome, IsSome, IsTrue, OnOk, unwrap_or};
ghost use Rattle.rw_vt.specs.Limits.{end_of_time};
ghost use Rattle.rw_report.specs.Intervals.{AreMarks, counted_between, counted_by_each, counted_from, first_counters, interval_lines, interval_start, intervals_header, last_counters, lines_of, sums_between, table_header, table_lines, told, told_of};

use crate::cache_table::{caches_header, write_caches};
use crate::columns::{Caches, totals, write_number};
use crate::format::{Format, json_lines};
use crate::header_around_counts;
use crate::moments::{Marks, Moment};
use crate::report_text::report_of_counters;
use crate::sums::{Sums, those, write_sums};
use rw_photo::{Config, Counters, NoMemory};
use rw_vt::END;
use std::alloc::Global;

/// What is reported of a run: its report, or a table.
#[derive(Clone, Copy)]
pub struct Outlook {
    /// The tick from which counts are reported, where the caches warm up till then: at most [`END`].
    pub warm_up: Option<u64>,
    /// The ticks of an interval, where a table of intervals is asked for: 1 to [`END`].
    pub every: Option<u64>,
    /// How it is written.
    pub format: Format,
}

impl Outlook {
    /// Whether it is the report of the whole run, as text. Takes no memory.
    pub fn is_plain(&self) -> bool
        ensures { IsTrue result ↔ ((self.now.warm_up ≡ None) × (self.now.every ≡ None)
            × (self.now.format ≡ Format.Text)) }
    {
        self.warm_up.is_none() && self.every.is_none() && self.format == Format::Text
    }

    /// The marks at which a run is recorded for it. `None` exactly where `warm_up` or `every` is out of its range. Takes no memory.
    pub fn marks(&self) -> Option<Marks>
        ensures in_range { IsSome result ↔ AreMarks self.now }
        ensures marks { IfSome result (λ marks. (marks.start ≡ unwrap_or self.now.warm_up 0)
            × (marks.every ≡ unwrap_or self.now.every end_of_time)) }
    {
        Marks::new(self.warm_up.unwrap_or(0), self.every.unwrap_or(END))
    }
}

/// The names of the columns of a table of intervals.
const HEADER: &str = header_around_counts!("from,to,caches,", "\n");

/// The line with the names of the columns of a table of intervals. Takes no memory.
pub fn intervals_header() -> &'static [u8]
    ensures { result.now ≡ intervals_header }
{
    HEADER.as_bytes()
}

/// The text of a run, from its moments. As text it is a table where intervals are asked for, and the report otherwise; as CSV it is
/// that table, or a table of caches; as JSON it is the lines of the CSV table. Where there is a warm-up, counts start at the first
/// moment.
///
/// # Errors
///
/// `NoMemory` only where memory was refused.
pub fn tell(
    alloc: Global,
    config: &Config,
    outlook: Outlook,
    moments: &[Moment],
) -> Result<Vec<u8>, NoMemory>
    ensures { IfOk result (λ text. text.items ≡ told_of config.now outlook moments.now) }
{
    match outlook.format {
        Format::Text => report_or_table(alloc, config, outlook, moments),
        Format::Csv => table(alloc, config, outlook, moments),
        Format::Json => {
            let mut lines = Vec::new(alloc);
            write_lines(&mut lines, alloc, config, outlook, moments)?;
            json_lines(alloc, table_header(outlook.every), lines.as_slice())
        }
    }
}

/// The text format: the table where intervals are asked for, and the report otherwise.
fn report_or_table(
    alloc: Global,
    config: &Config,
    outlook: Outlook,
    moments: &[Moment],
) -> Result<Vec<u8>, NoMemory>
    ensures { IfOk result (λ text. text.items
        ≡ told config.now Format.Text outlook.warm_up outlook.every moments.now) }
{
    match outlook.every {
        Some(_) => table(alloc, config, outlook, moments),
        None => {
            let counted = counted_from(alloc, outlook.warm_up, moments)?;
            report_of_counters(alloc, config, counted.as_slice())
        }
    }
}

/// The table: of intervals where they are asked for, and of caches otherwise.
fn table(
    alloc: Global,
    config: &Config,
    outlook: Outlook,
    moments: &[Moment],
) -> Result<Vec<u8>, NoMemory>
    ensures { IfOk result (λ text. text.items ≡ table_header outlook.every
        ++ table_lines config.now outlook.warm_up outlook.every moments.now) }
{
    let mut text = Vec::from_slice(alloc, table_header(outlook.every))?;
    write_lines(&mut text, alloc, config, outlook, moments)?;
    Ok(text)
}

/// The line with the names of the columns of the table.
fn table_header(every: Option<u64>) -> &'static [u8]
    ensures { result.now ≡ table_header every }
{
    match every {
        Some(_) => intervals_header(),
        None => caches_header(),
    }
}

/// Writes the lines of the table.
fn write_lines(
    text: &mut Vec<u8>,
    alloc: Global,
    config: &Config,
    outlook: Outlook,
    moments: &[Moment],
) -> Result<(), NoMemory>
    ensures { OnOk result (text.new.items ≡ text.old.items
        ++ table_lines config.now outlook.warm_up outlook.every moments.now) }
{
    match outlook.every {
        Some(_) => write_intervals(text, config, b"", moments),
        None => {
            let counted = counted_from(alloc, outlook.warm_up, moments)?;
            write_caches(text, config, counted.as_slice())
        }
    }
}

/// What each cache has counted by the last moment; from the first moment on, where there is a warm-up.
///
/// # Errors
///
/// `NoMemory` only where memory was refused.
pub fn counted_from(
    alloc: Global,
    warm_up: Option<u64>,
    moments: &[Moment],
) -> Result<Vec<Counters>, NoMemory>
    ensures { IfOk result (λ counted. counted.items ≡ counted_from warm_up moments.now) }
{
    match warm_up {
        Some(_) => count_each(alloc, first_counters(moments), last_counters(moments)),
        None => Ok(Vec::from_slice(alloc, last_counters(moments))?),
    }
}

/// The counters of each cache by the first moment.
fn first_counters(moments: &[Moment]) -> &[Counters]
    ensures { result.now ≡ first_counters moments.now }
{
    match moments.first() {
        Some(moment) => moment.counters.as_slice(),
        None => &[],
    }
}

/// The counters of each cache by the last moment.
fn last_counters(moments: &[Moment]) -> &[Counters]
    ensures { result.now ≡ last_counters moments.now }
{
    match moments.last() {
        Some(moment) => moment.counters.as_slice(),
        None => &[],
    }
}

/// Writes the lines of the intervals between some moments, each behind `before`.
///
/// # Errors
///
/// `NoMemory` only where memory was refused.
pub fn write_intervals(
    text: &mut Vec<u8>,
    config: &Config,
    before: &[u8],
    moments: &[Moment],
) -> Result<(), NoMemory>
    ensures { OnOk result
        (text.new.items ≡ text.old.items ++ lines_of config.now before.now moments.now) }
{
    for next in 1..moments.len() {
        write_interval(text, config, before, &moments[next - 1], &moments[next])?;
    }
    Ok(())
}

/// Writes the three lines of an interval, each behind `before`.
fn write_interval(
    text: &mut Vec<u8>,
    config: &Config,
    before: &[u8],
    from: &Moment,
    to: &Moment,
) -> Result<(), NoMemory>
    ensures { OnOk result (text.new.items
        ≡ text.old.items ++ interval_lines config.now before.now from.now to.now) }
{
    let sums = sums_between(config, from, to);
    write_start(text, before, from, to)?;
    write_sums(text, config, &sums, Caches::Edges)?;
    write_start(text, before, from, to)?;
    write_sums(text, config, &sums, Caches::Origins)?;
    write_start(text, before, from, to)?;
    write_sums(text, config, &sums, Caches::All)
}

/// Writes what stands before the caches in each line of an interval.
fn write_start(
    text: &mut Vec<u8>,
    before: &[u8],
    from: &Moment,
    to: &Moment,
) -> Result<(), NoMemory>
    ensures { OnOk result (text.new.items
        ≡ text.old.items ++ interval_start before.now from.now to.now) }
{
    text.extend_from_slice(before)?;
    write_number(text, u128::from(from.time))?;
    text.push(b',')?;
    write_number(text, u128::from(to.time))?;
    text.push(b',')?;
    Ok(())
}

/// What the edges, the origins and all caches have counted together from one moment to a later one.
fn sums_between(config: &Config, from: &Moment, to: &Moment) -> Sums
    ensures { result ≡ sums_between config.now from.now to.now }
{
    Sums {
        edges: counted_between(config, Caches::Edges, from, to),
        origins: counted_between(config, Caches::Origins, from, to),
        all: counted_between(config, Caches::All, from, to),
    }
}

/// What these caches have counted together from one moment to a later one.
fn counted_between(config: &Config, caches: Caches, from: &Moment, to: &Moment) -> Counters
    ensures { result ≡ counted_between config.now caches from.now to.now }
{
    let mut counted = totals(those(config, caches, to.counters.as_slice()));
    counted.take_off(&totals(those(config, caches, from.counters.as_slice())));
    counted
}

/// What each cache has counted from one time to another.
fn count_each(
    alloc: Global,
    earlier: &[Counters],
    later: &[Counters],
) -> Result<Vec<Counters>, NoMemory>
    ensures { IfOk result (λ counted. counted.items ≡ counted_by_each earlier.now later.now) }
{
    let count = earlier.len().min(later.len());
    let mut counted = Vec::with_capacity(alloc, count)?;
    for index in 0..count {
        let mut counters = later[index];
        counters.take_off(&earlier[index]);
        counted.push(counters)?;
    }
    Ok(counted)
}
