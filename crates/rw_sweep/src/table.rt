ghost use Rattle.std.specs.Prelude.{◌≡◌, ◌<◌, ◌*◌, ◌^◌, ◌++◌, IfOk, OnOk, cond};
ghost use Rattle.rw_sweep.specs.Lists.{list_header, listed_line};
ghost use Rattle.rw_sweep.specs.OverTime.{before_interval, header_told, header_under};
ghost use Rattle.rw_sweep.specs.Parts.{before_line, text_of_lines};
ghost use Rattle.rw_sweep.specs.Table.{asked, choice_columns, conditions, conditions_columns, daily_writes, fetched, flash_bytes, header_line, if_some, line_with, measured, policy_name, sweep_lines};

use crate::choice::Choice;
use crate::part::Part;
use crate::point::Point;
use rw_photo::{Config, Counters, NoMemory, Policy};
use rw_report::{
    Caches, Format, Measured, Outlook, caches_name, header_around_counts, intervals_header, totals,
    write_columns, write_counts, write_decimals, write_number,
};
use std::alloc::Global;

/// The names of the columns that say which configuration.
const CHOICE_NAMES: &str =
    "policy,sections,block,edge_blocks,origin_blocks,edges,origins,up,down,back";

/// The names of the columns of a table, those first.
const HEADER: &str = header_around_counts!(
    "policy,sections,block,edge_blocks,origin_blocks,edges,origins,up,down,back,caches,",
    ",drive_writes_a_day,reclaim,warm_up,ticks_a_second,rows,span,digest\n"
);

/// The name of the column before those of a part.
const PLACE: &[u8] = b"place,";

/// The line with the names of a table's columns. Takes no memory.
pub fn header_text() -> &'static [u8]
    ensures { result.now ≡ header_line }
{
    HEADER.as_bytes()
}

/// What stands before all lines of a table, or of a part of one: its header; nothing of JSON.
pub(crate) fn header_told(
    alloc: Global,
    part: Option<Part>,
    outlook: Outlook,
) -> Result<Vec<u8>, NoMemory>
    ensures { IfOk result (λ text. text.items ≡ header_told part outlook) }
{
    match outlook.format {
        Format::Text | Format::Csv => header_under(alloc, part.is_some(), outlook.every),
        Format::Json => Ok(Vec::new(alloc)),
    }
}

/// The header of a table, or of a part of one, which has the column of places: over time, where intervals are asked for.
pub(crate) fn header_under(
    alloc: Global,
    is_placed: bool,
    every: Option<u64>,
) -> Result<Vec<u8>, NoMemory>
    ensures { IfOk result (λ text. text.items ≡ header_under is_placed every) }
{
    let mut text = Vec::new(alloc);
    if is_placed {
        text.extend_from_slice(PLACE)?;
    }
    match every {
        Some(_) => {
            text.extend_from_slice(CHOICE_NAMES.as_bytes())?;
            text.push(b',')?;
            text.extend_from_slice(intervals_header())?;
        }
        None => text.extend_from_slice(header_text())?,
    }
    Ok(text)
}

/// The first line of a list.
pub(crate) fn list_header(alloc: Global) -> Result<Vec<u8>, NoMemory>
    ensures { IfOk result (λ text. text.items ≡ list_header) }
{
    let mut text = Vec::new(alloc);
    text.extend_from_slice(PLACE)?;
    text.extend_from_slice(CHOICE_NAMES.as_bytes())?;
    text.push(b'\n')?;
    Ok(text)
}

/// The line of a list for the configuration at a place.
pub(crate) fn write_listed(text: &mut Vec<u8>, place: u64, choice: Choice) -> Result<(), NoMemory>
    ensures { OnOk result (text.new.items ≡ text.old.items ++ listed_line (place, choice)) }
{
    write_place(text, Some(place))?;
    write_choice(text, choice)?;
    text.push(b'\n')?;
    Ok(())
}

/// The three lines of a configuration whose caches have counted so much, the edges before the origins, each behind its place, where
/// that is told.
pub(crate) fn lines(
    alloc: Global,
    point: &Point,
    warm_up: Option<u64>,
    all: &[Counters],
) -> Result<Vec<u8>, NoMemory>
    requires edge_blocks { point.now.choice.edge_blocks < 2 ^ 17 }
    requires origin_blocks { point.now.choice.origin_blocks < 2 ^ 17 }
    ensures { IfOk result (λ text. text.items ≡ text_of_lines point.now.place
        (sweep_lines point.now.config point.now.choice
        (conditions point.now.ticks_a_second warm_up point.now.facts) all.now)) }
{
    let edges = (point.config.edges() as usize).min(all.len());
    let (edges, origins) = all.split_at(edges);
    let (edges, origins, all) = (totals(edges), totals(origins), totals(all));
    let mut text = Vec::new(alloc);
    write_placed(&mut text, point, warm_up, Caches::Edges, &edges, &origins)?;
    write_placed(
        &mut text,
        point,
        warm_up,
        Caches::Origins,
        &origins,
        &origins,
    )?;
    write_placed(&mut text, point, warm_up, Caches::All, &all, &origins)?;
    Ok(text)
}

/// A configuration's line for these caches behind its place, where that is told, from what they and the origins have counted together.
fn write_placed(
    text: &mut Vec<u8>,
    point: &Point,
    warm_up: Option<u64>,
    caches: Caches,
    total: &Counters,
    origins: &Counters,
) -> Result<(), NoMemory>
    requires edge_blocks { point.now.choice.edge_blocks < 2 ^ 17 }
    requires origin_blocks { point.now.choice.origin_blocks < 2 ^ 17 }
    ensures { OnOk result (text.new.items ≡ text.old.items ++ (before_line point.now.place
        ++ line_with point.now.config point.now.choice
        (conditions point.now.ticks_a_second warm_up point.now.facts)
        caches total.now origins.now)) }
{
    write_place(text, point.place)?;
    write_line(text, point, warm_up, caches, total, origins)
}

/// What stands before each line of the intervals of a configuration: its place, where that is told, and its choice.
pub(crate) fn write_before_interval(text: &mut Vec<u8>, point: &Point) -> Result<(), NoMemory>
    ensures { OnOk result (text.new.items
        ≡ text.old.items ++ before_interval point.now.place point.now.choice) }
{
    write_place(text, point.place)?;
    write_choice(text, point.choice)?;
    text.push(b',')?;
    Ok(())
}

/// What stands before a line: its place, where that is told.
fn write_place(text: &mut Vec<u8>, place: Option<u64>) -> Result<(), NoMemory>
    ensures { OnOk result (text.new.items ≡ text.old.items ++ before_line place) }
{
    if let Some(place) = place {
        write_number(text, u128::from(place))?;
        text.push(b',')?;
    }
    Ok(())
}

/// A configuration's line for these caches, from what they and the origins have counted together.
fn write_line(
    text: &mut Vec<u8>,
    point: &Point,
    warm_up: Option<u64>,
    caches: Caches,
    total: &Counters,
    origins: &Counters,
) -> Result<(), NoMemory>
    requires edge_blocks { point.now.choice.edge_blocks < 2 ^ 17 }
    requires origin_blocks { point.now.choice.origin_blocks < 2 ^ 17 }
    ensures { OnOk result (text.new.items ≡ text.old.items
        ++ line_with point.now.config point.now.choice
        (conditions point.now.ticks_a_second warm_up point.now.facts)
        caches total.now origins.now) }
{
    let measured = measured(point, caches, total, origins);
    write_choice(text, point.choice)?;
    text.push(b',')?;
    text.extend_from_slice(caches_name(caches))?;
    write_counts(text, total, measured)?;
    write_conditions(text, point, warm_up, measured)?;
    text.push(b'\n')?;
    Ok(())
}

/// What is measured of these caches, from what they and the origins have counted together.
fn measured(point: &Point, caches: Caches, total: &Counters, origins: &Counters) -> Measured
    requires edge_blocks { point.now.choice.edge_blocks < 2 ^ 17 }
    requires origin_blocks { point.now.choice.origin_blocks < 2 ^ 17 }
    ensures { result ≡ measured point.now.config point.now.choice caches total.now origins.now }
{
    let choice = point.choice;
    Measured {
        flash_bytes: flash_bytes(&point.config, choice, caches),
        written_bytes: written_bytes(total.writes, choice.block),
        backend_requests: asked(caches, origins),
        backend_bytes: fetched(caches, origins),
    }
}

/// The bytes of so many blocks that were written.
fn written_bytes(writes: u64, block: u64) -> u128
    ensures { result ≡ writes * block }
{
    u128::from(writes) * u128::from(block)
}

/// How often these caches asked the backend, from what the origins have counted together: once for each miss at an origin.
fn asked(caches: Caches, origins: &Counters) -> u64
    ensures { result ≡ asked caches origins.now }
{
    match caches {
        Caches::Edges => 0,
        Caches::Origins | Caches::All => origins.misses,
    }
}

/// The bytes that these caches had of the backend, modulo 2^64: those of each miss at an origin.
fn fetched(caches: Caches, origins: &Counters) -> u64
    ensures { result ≡ fetched caches origins.now }
{
    match caches {
        Caches::Edges => 0,
        Caches::Origins | Caches::All => origins.request_bytes.wrapping_sub(origins.hit_bytes),
    }
}

/// The columns behind what was counted: how often a day the flash is written, and then what all lines of the sweep have in common.
fn write_conditions(
    text: &mut Vec<u8>,
    point: &Point,
    warm_up: Option<u64>,
    measured: Measured,
) -> Result<(), NoMemory>
    ensures { OnOk result (text.new.items ≡ text.old.items ++ conditions_columns point.now.config
        (conditions point.now.ticks_a_second warm_up point.now.facts) measured) }
{
    let facts = point.facts;
    let start = warm_up.unwrap_or(0);
    let counted = facts.span_from(start);
    text.push(b',')?;
    write_if_some(text, daily_writes(point.ticks_a_second, counted, measured))?;
    let numbers = [
        reclaim_number(point.config.reclaim),
        u128::from(start),
        u128::from(point.ticks_a_second.unwrap_or(0)),
        u128::from(facts.rows),
        u128::from(facts.span()),
        u128::from(facts.digest),
    ];
    write_columns(text, &numbers)
}

/// Whether purges reclaim, as a number.
fn reclaim_number(reclaim: bool) -> u128
    ensures { result ≡ cond reclaim 1 0 }
{
    if reclaim { 1 } else { 0 }
}

/// So many millionths, as a number with six decimals, where there are any.
fn write_if_some(text: &mut Vec<u8>, millionths: Option<u128>) -> Result<(), NoMemory>
    ensures { OnOk result (text.new.items ≡ text.old.items ++ if_some millionths) }
{
    match millionths {
        Some(millionths) => write_decimals(text, millionths),
        None => Ok(()),
    }
}

/// How often a day caches write as many bytes as their flash has, in millionths, rounded down, where they have written that much in
/// `span` ticks. `None` where it is not known how long a tick is, where `span` is 0, and where there is no flash.
///
/// The bytes that are written in 86400000000 seconds are taken for 2^128 - 1, where they are more.
fn daily_writes(ticks_a_second: Option<u64>, span: u64, measured: Measured) -> Option<u128>
    ensures { result ≡ daily_writes ticks_a_second span
        measured.flash_bytes measured.written_bytes }
{
    let ticks = u128::from(ticks_a_second?) * 86_400_000_000;
    if measured.flash_bytes == 0 {
        return None;
    }
    if span == 0 {
        return None;
    }
    let written = measured.written_bytes.saturating_mul(ticks);
    Some(written / measured.flash_bytes / u128::from(span))
}

/// The columns that say which configuration.
fn write_choice(text: &mut Vec<u8>, choice: Choice) -> Result<(), NoMemory>
    ensures { OnOk result (text.new.items ≡ text.old.items ++ choice_columns choice) }
{
    write_policy(text, choice.policy)?;
    let numbers = [
        u128::from(choice.sections),
        u128::from(choice.block),
        u128::from(choice.edge_blocks),
        u128::from(choice.origin_blocks),
        u128::from(choice.edges),
        u128::from(choice.origins),
        u128::from(choice.up),
        u128::from(choice.down),
        u128::from(choice.back),
    ];
    write_columns(text, &numbers)
}

/// A policy by its name.
fn write_policy(text: &mut Vec<u8>, policy: Policy) -> Result<(), NoMemory>
    ensures { OnOk result (text.new.items ≡ text.old.items ++ policy_name policy) }
{
    match policy {
        Policy::Off => text.extend_from_slice(b"off")?,
        Policy::Lru => text.extend_from_slice(b"lru")?,
        Policy::Slru(levels) => {
            text.extend_from_slice(b"slru")?;
            write_number(text, u128::from(levels.segments))?;
        }
    }
    Ok(())
}

/// The bytes of all sealed device blocks of these caches.
fn flash_bytes(config: &Config, choice: Choice, caches: Caches) -> u128
    requires edge_blocks { choice.edge_blocks < 2 ^ 17 }
    requires origin_blocks { choice.origin_blocks < 2 ^ 17 }
    ensures { result ≡ flash_bytes config.now choice caches }
{
    let block = u128::from(choice.block);
    let edges = u128::from(config.edges()) * u128::from(choice.edge_blocks) * block;
    let origins = u128::from(config.origins()) * u128::from(choice.origin_blocks) * block;
    match caches {
        Caches::Edges => edges,
        Caches::Origins => origins,
        Caches::All => edges + origins,
    }
}
