// The text of a configuration, from the moments of its run.
ghost use Rattle.std.specs.Prelude.{◌≡◌, ◌<◌, ◌^◌, IfOk};
ghost use Rattle.rw_report.specs.Intervals.{lines_of};
ghost use Rattle.std.specs.Option.{is_some};
ghost use Rattle.rw_sweep.specs.OverTime.{before_interval, header_under, in_format, told_of_choice};
ghost use Rattle.rw_sweep.specs.Table.{conditions};

use crate::point::Point;
use crate::table::{header_under, lines, write_before_interval};
use rw_photo::NoMemory;
use rw_report::{Format, Moment, Outlook, counted_from, json_lines, write_intervals};
use std::alloc::Global;

/// What an outlook asks for of a configuration, from the moments of its run, in its format: the lines of its intervals, or its three
/// lines.
///
/// # Errors
///
/// `NoMemory` only where memory was refused.
pub(crate) fn told_of_point(
    alloc: Global,
    point: &Point,
    outlook: Outlook,
    moments: &[Moment],
) -> Result<Vec<u8>, NoMemory>
    requires edge_blocks { point.now.choice.edge_blocks < 2 ^ 17 }
    requires origin_blocks { point.now.choice.origin_blocks < 2 ^ 17 }
    ensures { IfOk result (λ text. text.items
        ≡ in_format outlook.format (header_under (is_some point.now.place) outlook.every)
        (told_of_choice point.now.config point.now.choice
        (conditions point.now.ticks_a_second outlook.warm_up point.now.facts)
        point.now.place outlook.every moments.now)) }
{
    let lines = lines_under(alloc, point, outlook, moments)?;
    match outlook.format {
        Format::Text | Format::Csv => Ok(lines),
        Format::Json => {
            let header = header_under(alloc, point.place.is_some(), outlook.every)?;
            json_lines(alloc, header.as_slice(), lines.as_slice())
        }
    }
}

/// The lines of the intervals of a configuration, or its three lines, as an outlook asks for them, from the moments of its run.
fn lines_under(
    alloc: Global,
    point: &Point,
    outlook: Outlook,
    moments: &[Moment],
) -> Result<Vec<u8>, NoMemory>
    requires edge_blocks { point.now.choice.edge_blocks < 2 ^ 17 }
    requires origin_blocks { point.now.choice.origin_blocks < 2 ^ 17 }
    ensures { IfOk result (λ text. text.items ≡ told_of_choice point.now.config point.now.choice
        (conditions point.now.ticks_a_second outlook.warm_up point.now.facts)
        point.now.place outlook.every moments.now) }
{
    match outlook.every {
        Some(_) => interval_lines(alloc, point, moments),
        None => {
            let counted = counted_from(alloc, outlook.warm_up, moments)?;
            lines(alloc, point, outlook.warm_up, counted.as_slice())
        }
    }
}

/// The lines of the intervals between some moments. Before each stand the place of the configuration, if it has one, and its choice.
fn interval_lines(alloc: Global, point: &Point, moments: &[Moment]) -> Result<Vec<u8>, NoMemory>
    ensures { IfOk result (λ text. text.items ≡ lines_of point.now.config
        (before_interval point.now.place point.now.choice) moments.now) }
{
    let mut before = Vec::new(alloc);
    write_before_interval(&mut before, point)?;
    let mut text = Vec::new(alloc);
    write_intervals(&mut text, &point.config, before.as_slice(), moments)?;
    Ok(text)
}
