//! Rows of one time, spread within the unit of the log's time.
//!
//! A log whose times are whole seconds, say, gives all rows of a second one tick. Spreading gives
//! them different ones: of the n rows of one time, the k-th (from 0, in the order of the rows) comes
//! k n-ths of a unit later, rounded down.

ghost use Rattle.std.specs.Prelude.{◌≡◌, ◌≤◌, ◌<◌, ◌+◌, ◌*◌, ◌/◌, ◌^◌, All, IfOk, OnOk, cond, nat_eq};
ghost use Rattle.rw_numbers.specs.Words.{Time};
ghost use Rattle.rw_trace.specs.Limits.{latest_time};
ghost use Rattle.rw_trace.specs.declared.Row.{Row as TraceRow};
ghost use Rattle.rw_import.specs.Limits.{most_unit_ticks};
ghost use Rattle.rw_import.specs.Spread.{SpreadsRows, crowded, is_same, request_of, rows_at, rows_like, spread, times_in};

use rw_trace::Row;
use std::alloc::{AllocError, Global};
use std::collections::HashMap;
use std::hash::Hash;

/// How often a key has come.
fn times_of<K: Eq + Hash>(counts: &HashMap<K, u64>, key: &K) -> u64
    ensures { result ≡ times_in K.eq counts.now key.now }
{
    counts.get(key).copied().unwrap_or(0)
}

/// Counts a key once more. Answers how often it had come before.
fn count<K: Eq + Hash + Drop>(counts: &mut HashMap<K, u64>, key: K) -> Result<u64, AllocError>
    requires { times_in K.eq counts.old key + 1 < 2 ^ 64 }
    ensures before { IfOk result (λ n. n ≡ times_in K.eq counts.old key) }
    ensures counted { OnOk result ((k : K) → times_in K.eq counts.new k
        ≡ cond (K.eq key k) (times_in K.eq counts.old key + 1) (times_in K.eq counts.old k)) }
{
    let before = times_of(counts, &key);
    counts.insert(key, before + 1)?;
    Ok(before)
}

/// How many rows each time has.
fn count_times(alloc: Global, rows: &[Row]) -> Result<HashMap<u64, u64>, AllocError>
    ensures { IfOk result (λ counts. (t : Time) → times_in nat_eq counts t ≡ rows_at rows.now t) }
{
    let mut counts = HashMap::new(alloc);
    for row in rows {
        count(&mut counts, row.time)?;
    }
    Ok(counts)
}

/// How many ticks after the beginning of its unit a row comes, with `before` of the unit's rows in front of it.
fn ticks_after(before: u64, rows: u64, ticks: u64) -> u64
    requires among { before < rows }
    requires some { 1 ≤ ticks }
    ensures share { result ≡ (before * ticks) / rows }
    ensures within { result < ticks }
{
    (u128::from(before) * u128::from(ticks) / u128::from(rows)) as u64
}

/// Spreads rows, where `counts` has how many each time has.
fn spread_counted(
    alloc: Global,
    rows: &mut [Row],
    counts: &HashMap<u64, u64>,
    ticks: u64,
) -> Result<(), AllocError>
    requires some { 1 ≤ ticks }
    requires few { ticks ≤ most_unit_ticks }
    requires times { All (λ r. r.time ≤ latest_time) rows.old }
    requires counts { (t : Time) → times_in nat_eq counts.now t ≡ rows_at rows.old t }
    ensures effect { OnOk result (rows.new ≡ spread ticks rows.old) }
    ensures law { OnOk result (SpreadsRows ticks rows.old rows.new) }
{
    let mut seen = HashMap::new(alloc);
    for row in rows.iter_mut() {
        let before = count(&mut seen, row.time)?;
        row.time += ticks_after(before, times_of(counts, &row.time), ticks);
    }
    Ok(())
}

/// Spreads rows within their units, of `ticks` ticks each: 1 to [`MAX_TICKS`](crate::MAX_TICKS). Of the n rows of one
/// time the k-th, from 0, comes `k * ticks / n` ticks later. The rows may stand in any order, and keep their places.
/// Takes expected time in proportion to the rows, and memory in proportion to the different times.
///
/// # Errors
///
/// A request for memory was refused. Nothing is said of the rows' times then.
pub fn spread(alloc: Global, rows: &mut Vec<Row>, ticks: u64) -> Result<(), AllocError>
    requires some { 1 ≤ ticks }
    requires few { ticks ≤ most_unit_ticks }
    requires times { All (λ r. r.time ≤ latest_time) rows.old.items }
    ensures effect { OnOk result (rows.new.items ≡ spread ticks rows.old.items) }
    ensures law { OnOk result (SpreadsRows ticks rows.old.items rows.new.items) }
{
    let counts = count_times(alloc, rows)?;
    spread_counted(alloc, rows, &counts, ticks)
}

/// How many rows have each time and object.
fn count_requests(alloc: Global, rows: &[Row]) -> Result<HashMap<(u64, u64), u64>, AllocError>
    ensures { IfOk result (λ counts. (r : TraceRow)
        → times_in is_same counts (request_of r) ≡ rows_like rows.now r) }
{
    let mut counts = HashMap::new(alloc);
    for row in rows {
        count(&mut counts, (row.time, row.object))?;
    }
    Ok(counts)
}

/// How many rows have the time and the object of another row. Each of them counts: of three equal ones, three.
/// Takes expected time in proportion to the rows, and memory in proportion to the different times and objects.
///
/// # Errors
///
/// A request for memory was refused.
pub fn crowded(alloc: Global, rows: &[Row]) -> Result<u64, AllocError>
    ensures { IfOk result (λ n. n ≡ crowded rows.now) }
{
    let counts = count_requests(alloc, rows)?;
    let mut crowded = 0;
    for row in rows {
        if times_of(&counts, &(row.time, row.object)) >= 2 {
            crowded += 1;
        }
    }
    Ok(crowded)
}
