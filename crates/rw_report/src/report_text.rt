ghost use Rattle.std.specs.Prelude.{◌≡◌, ◌+◌, ◌<◌, ◌++◌, length, map, IfOk, OnOk, decimal};
ghost use Rattle.rw_report.specs.Report.{line, name_of, report_text};

use crate::moments::counters_of;
use itoa::Buffer;
use rw_photo::{CacheState, Config, Counters, Photo};
use rw_vt::{NoMemory, Outcome};
use std::alloc::Global;

/// The report of a finished run: a line of counters for each edge, for each origin, and for all caches together.
///
/// Each line is a name and thirteen words, each with its number in decimal, one space between, and a line feed at its
/// end. Totals are modulo 2^64.
pub fn report(alloc: Global, config: &Config, outcome: &Outcome<Photo>) -> Result<Vec<u8>, NoMemory>
    requires { length outcome.now.states.items ≡ config.now.edges + config.now.origins }
    ensures { IfOk result (λ text.
        text.items ≡ report_text config.now (map (λ s. s.counters) outcome.now.states.items)) }
{
    report_of_states(alloc, config, outcome.states.as_slice())
}

/// The report of caches that are in these states, the edges before the origins: the text that
/// [`report`] makes of them.
pub fn report_of_states(
    alloc: Global,
    config: &Config,
    states: &[CacheState],
) -> Result<Vec<u8>, NoMemory>
    requires { length states.now ≡ config.now.edges + config.now.origins }
    ensures { IfOk result (λ text.
        text.items ≡ report_text config.now (map (λ s. s.counters) states.now)) }
{
    let counters = counters_of(alloc, states)?;
    report_of_counters(alloc, config, counters.as_slice())
}

/// The report of caches that have counted so much, the edges before the origins.
pub fn report_of_counters(
    alloc: Global,
    config: &Config,
    all: &[Counters],
) -> Result<Vec<u8>, NoMemory>
    ensures { IfOk result (λ text. text.items ≡ report_text config.now all.now) }
{
    let mut text = Vec::new(alloc);
    let mut total = Counters::default();
    for (process, counters) in all.iter().enumerate() {
        write_name(&mut text, config, process as u64)?;
        write_counters(&mut text, counters)?;
        total.add(counters);
    }
    text.extend_from_slice(b"total")?;
    write_counters(&mut text, &total)?;
    Ok(text)
}

/// The name of a cache, at the beginning of its line.
pub(crate) fn write_name(text: &mut Vec<u8>, config: &Config, process: u64) -> Result<(), NoMemory>
    ensures { OnOk result (text.new.items ≡ text.old.items ++ name_of config.now process) }
{
    let edges = u64::from(config.edges());
    if process < edges {
        write_count(text, b"edge ", process)
    } else {
        write_count(text, b"origin ", process - edges)
    }
}

/// The rest of a line: each count behind its word.
fn write_counters(text: &mut Vec<u8>, counters: &Counters) -> Result<(), NoMemory>
    ensures { OnOk result (text.new.items ≡ line text.old.items counters.now) }
{
    write_count(text, b" requests ", counters.requests)?;
    write_count(text, b" hits ", counters.hits)?;
    write_count(text, b" misses ", counters.misses)?;
    write_count(text, b" coalesced ", counters.coalesced)?;
    write_count(text, b" late ", counters.late)?;
    write_count(text, b" bypassed ", counters.bypassed)?;
    write_count(text, b" inserted ", counters.inserted)?;
    write_count(text, b" evicted ", counters.evicted)?;
    write_count(text, b" reinserted ", counters.reinserted)?;
    write_count(text, b" promoted ", counters.promoted)?;
    write_count(text, b" writes ", counters.writes)?;
    write_count(text, b" splits ", counters.splits)?;
    write_count(text, b" merges ", counters.merges)?;
    text.push(b'\n')?;
    Ok(())
}

/// Writes a word, and behind it a number in decimal, as the lines of reports and journals are made.
pub fn write_count(text: &mut Vec<u8>, word: &[u8], count: u64) -> Result<(), NoMemory>
    ensures { OnOk result (text.new.items ≡ text.old.items ++ word.now ++ decimal count) }
{
    text.extend_from_slice(word)?;
    let mut digits = Buffer::new();
    text.extend_from_slice(digits.format(count).as_bytes())?;
    Ok(())
}
