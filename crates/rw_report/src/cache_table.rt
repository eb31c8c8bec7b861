// The table of what each cache has counted.
ghost use Rattle.std.specs.Prelude.{◌≡◌, ◌++◌, OnOk};
ghost use Rattle.rw_report.specs.Formats.{cache_line, caches_header, caches_lines, each_line, sums_lines};

use crate::columns::{Caches, write_counts};
use crate::header_around_counts;
use crate::report_text::write_name;
use crate::sums::{Sums, measured_at, sums_of, write_sums};
use rw_photo::{Config, Counters, NoMemory};

/// The names of the columns.
const HEADER: &str = header_around_counts!("cache,", "\n");

/// The line with the names of the columns of a table of caches. Takes no memory.
pub(crate) fn caches_header() -> &'static [u8]
    ensures { result.now ≡ caches_header }
{
    HEADER.as_bytes()
}

/// Writes a line for each cache, the edges before the origins, and for the edges, the origins and all caches together.
pub(crate) fn write_caches(
    text: &mut Vec<u8>,
    config: &Config,
    all: &[Counters],
) -> Result<(), NoMemory>
    ensures { OnOk result (text.new.items ≡ text.old.items ++ caches_lines config.now all.now) }
{
    write_each(text, config, all)?;
    write_all_sums(text, config, &sums_of(config, all))
}

/// Writes a line for each cache.
fn write_each(text: &mut Vec<u8>, config: &Config, all: &[Counters]) -> Result<(), NoMemory>
    ensures { OnOk result (text.new.items ≡ text.old.items ++ each_line config.now 0 all.now) }
{
    for (process, counters) in all.iter().enumerate() {
        write_cache(text, config, process as u64, counters)?;
    }
    Ok(())
}

/// Writes the line of the cache of a process.
fn write_cache(
    text: &mut Vec<u8>,
    config: &Config,
    process: u64,
    counters: &Counters,
) -> Result<(), NoMemory>
    ensures { OnOk result
        (text.new.items ≡ text.old.items ++ cache_line config.now process counters.now) }
{
    write_name(text, config, process)?;
    write_counts(text, counters, measured_at(config, process, counters))?;
    text.push(b'\n')?;
    Ok(())
}

/// Writes the lines of the edges, of the origins, and of all caches.
fn write_all_sums(text: &mut Vec<u8>, config: &Config, sums: &Sums) -> Result<(), NoMemory>
    ensures { OnOk result (text.new.items ≡ text.old.items ++ sums_lines config.now sums.now) }
{
    write_sums(text, config, sums, Caches::Edges)?;
    write_sums(text, config, sums, Caches::Origins)?;
    write_sums(text, config, sums, Caches::All)
}
