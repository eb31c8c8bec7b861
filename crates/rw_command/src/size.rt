// The least flash that reaches a hit ratio.
ghost use Rattle.std.specs.Prelude.{◌≡◌, ◌≢◌, ◌↔◌, IfErr, IfOk, IsErrAnd};
ghost use Rattle.rw_command.specs.Status.{status_of};
ghost use Rattle.rw_sweep.specs.Sizing.{IsSearch};

use crate::arguments::{Argument, Given, Value};
use crate::caches::{
    BACK, BLOCK, DOWN, EDGE_TIER, EDGES, ORIGIN_TIER, ORIGINS, POLICY, RECLAIM, SECTIONS,
    TICKS_A_SECOND, UP, block, blocks_searched, config_with,
};
use crate::entries::{Entry, Hints};
use crate::fault::Fault;
use crate::files::{read, write};
use crate::options_file::OPTIONS;
use crate::outlook::{FORMAT, QUIET, TRACE, format};
use crate::source::Source;
use crate::stderr::Stderr;
use crate::values::{invalid, millionths};
use clap::ArgMatches;
use rw_photo::NoMemory;
use rw_progress::{Measure, Progress};
use rw_report::{
    Caches, Format, Out, SimFault, json_lines, write_columns, write_count, write_number,
    write_ratio,
};
use rw_sweep::{Answer, Search, Tier, Try};
use std::alloc::Global;
use std::io::Write;
use std::time::Clock;

/// The command.
static ENTRY: Entry = Entry {
    name: "size",
    about: "Finds the least flash of a range that reaches a hit ratio, by bisection, and prints each size tried",
    examples: "Examples:
  ripqwarp size --target 0.8 --edge-flash 1G..64G --edges 4 trace.csv
  ripqwarp size --target 0.3 --caches origins --origin-blocks 64..8192 --policy lru trace.csv
  ripqwarp size --target 0.8 --edge-blocks 16..4096 --format json trace.csv | jq 'select(.least == 1)'",
    hints: Hints::Always,
    own: &SIZING,
    shared: &[],
};

/// The command.
pub(crate) fn entry() -> &'static Entry {
    &ENTRY
}

/// What is searched, and in which caches.
const SIZING: [Argument; 20] = [
    TRACE,
    Argument {
        name: "target",
        value: Value::Text("RATIO"),
        given: Given::Always,
        help: "The hit ratio to reach, 0 to 1 with up to six decimals",
    },
    Argument {
        name: "caches",
        value: Value::Word("CACHES", &["edges", "origins", "all"]),
        given: Given::Or("edges"),
        help: "The caches whose hit ratio counts",
    },
    Argument {
        name: "edge-blocks",
        value: Value::Text("N"),
        given: Given::Or("64"),
        help: "Full blocks on each edge's flash, 1 to 65536, or the range to search, as 16..4096",
    },
    Argument {
        name: "edge-flash",
        value: Value::Text("SIZE"),
        given: Given::Maybe,
        help: "Bytes of each edge's flash, in place of --edge-blocks: a multiple of --block, or a range, as 1G..64G",
    },
    Argument {
        name: "origin-blocks",
        value: Value::Text("N"),
        given: Given::Or("64"),
        help: "Full blocks on each origin's flash, 1 to 65536, or the range to search",
    },
    Argument {
        name: "origin-flash",
        value: Value::Text("SIZE"),
        given: Given::Maybe,
        help: "Bytes of each origin's flash, in place of --origin-blocks, or a range",
    },
    QUIET,
    FORMAT,
    EDGES,
    ORIGINS,
    POLICY,
    SECTIONS,
    BLOCK,
    UP,
    DOWN,
    BACK,
    TICKS_A_SECOND,
    RECLAIM,
    OPTIONS,
];

/// Runs the trace that the options name under sizes of a range, and writes the hit ratio of each, and which of them is the least that
/// reaches the target: see [`rw_sweep::size`].
///
/// # Errors
///
/// [`Fault::CommandLine`] where the target is no ratio, and where not exactly one size is a range; those of the source, and a fault of a
/// run: nothing was written then. `Output` exactly where the writer failed.
pub(crate) fn size<S: Source, W: Write, E: Write, C: Clock>(
    clock: &C,
    alloc: Global,
    options: &ArgMatches<'_>,
    source: &mut S,
    out: &mut Out<W>,
    err: &mut Stderr<E>,
) -> Result<(), Fault>
    ensures output { IsErrAnd result (λ e. status_of e ≡ 8)
        ↔ (out.new.failures ≢ out.old.failures) }
    ensures nothing { IfErr result (λ e. status_of e ≢ 8 → out.new ≡ out.old) }
{
    let search = search(alloc, options)?;
    let format = format(options)?;
    let bytes = read(alloc, options, "trace", source)?;
    let mut line = err.progress(clock, "size", Measure::Pieces, options.get_flag("quiet"));
    let answer = answer(alloc, bytes.as_slice(), &search, &mut line)?;
    let text = text_of(alloc, &search, &answer, format).map_err(|_| Fault::Memory)?;
    line.about_to_write();
    write(text.as_slice(), out)
}

/// The answer of a search in a trace.
fn answer<P: Progress>(
    alloc: Global,
    bytes: &[u8],
    search: &Search,
    progress: &mut P,
) -> Result<Answer, SimFault>
    requires { IsSearch search.now }
    ensures unwritten { IfErr result (λ e. e ≢ SimFault.Output) }
{
    let rows = rw_trace::read(alloc, bytes, search.config.edges())?;
    Ok(rw_sweep::size(alloc, rows.as_slice(), search, progress)?)
}

/// The search that the options ask for.
fn search(alloc: Global, options: &ArgMatches<'_>) -> Result<Search, Fault>
    ensures in_range { IfOk result IsSearch }
    ensures unwritten { IfErr result (λ e. status_of e ≢ 8) }
{
    let block = block(alloc, options)?;
    let edge_blocks = blocks_searched(alloc, options, EDGE_TIER, block)?;
    let origin_blocks = blocks_searched(alloc, options, ORIGIN_TIER, block)?;
    let (tier, (least, most)) = match (is_range(edge_blocks), is_range(origin_blocks)) {
        (true, false) => (Tier::Edges, edge_blocks),
        (false, true) => (Tier::Origins, origin_blocks),
        _ => return Err(not_one_range(alloc)),
    };
    let search = Search {
        config: config_with(alloc, options, block, edge_blocks.0, origin_blocks.0)?,
        tier,
        least,
        most,
        target: target(alloc, options)?,
        caches: caches(options)?,
    };
    if search.is_in_range() {
        Ok(search)
    } else {
        Err(Fault::Plan)
    }
}

/// Whether the ends of a range differ.
fn is_range(ends: (u64, u64)) -> bool {
    ends.0 != ends.1
}

/// The fault of options that do not give exactly one range.
fn not_one_range(alloc: Global) -> Fault
    ensures { status_of result ≢ 8 }
{
    let text = "error: give exactly one size as a range to search, as --edge-flash 1G..64G";
    match String::from_str(alloc, text) {
        Ok(text) => Fault::CommandLine(text),
        Err(_) => Fault::Memory,
    }
}

/// The hit ratio to reach, in millionths.
fn target(alloc: Global, options: &ArgMatches<'_>) -> Result<u64, Fault>
    ensures unwritten { IfErr result (λ e. status_of e ≢ 8) }
{
    let text = options.get_str("target").ok_or(Fault::Plan)?;
    match millionths(text) {
        Some(target) => Ok(target),
        None => {
            let expected = "a ratio from 0 to 1 with up to six decimals, as 0.8";
            Err(invalid(alloc, text, "target", expected))
        }
    }
}

/// The caches whose hit ratio counts.
fn caches(options: &ArgMatches<'_>) -> Result<Caches, Fault>
    ensures unwritten { IfErr result (λ e. status_of e ≢ 8) }
{
    match options.get_str("caches") {
        Some("edges") => Ok(Caches::Edges),
        Some("origins") => Ok(Caches::Origins),
        Some("all") => Ok(Caches::All),
        _ => Err(Fault::Plan),
    }
}

/// The names of the columns of a table of sizes.
const HEADER: &[u8] = b"blocks,flash,requests,hits,hit_ratio,reaches,least\n";

/// A size that was tried, and its outcome.
#[derive(Clone, Copy)]
struct Tried {
    /// Full blocks on the flash of each cache that is sized.
    blocks: u64,
    /// The bytes of them.
    flash: u64,
    /// Requests at the caches whose hit ratio counts.
    requests: u64,
    /// Those that hit.
    hits: u64,
    /// Whether they reach the target.
    reaches: bool,
    /// Whether it is the answer.
    is_least: bool,
}

impl Tried {
    /// The outcome of a try of a search whose answer is known.
    fn of(search: &Search, tried: &Try, least: Option<u64>) -> Tried {
        let counters = tried.counters.as_slice();
        let total = search.total(counters);
        let (_, block, _) = search.config.edge_shape().limits();
        Tried {
            blocks: tried.blocks,
            flash: tried.blocks.saturating_mul(block),
            requests: total.requests,
            hits: total.hits,
            reaches: search.is_reached(counters),
            is_least: least == Some(tried.blocks),
        }
    }

    /// Appends it as a line of a table.
    fn write_csv(&self, text: &mut Vec<u8>) -> Result<(), NoMemory> {
        write_number(text, u128::from(self.blocks))?;
        let counts = [
            u128::from(self.flash),
            u128::from(self.requests),
            u128::from(self.hits),
        ];
        write_columns(text, &counts)?;
        text.push(b',')?;
        write_ratio(text, self.hits, self.requests)?;
        let flags = [u128::from(self.reaches), u128::from(self.is_least)];
        write_columns(text, &flags)?;
        text.push(b'\n')?;
        Ok(())
    }

    /// Appends it as a line in words.
    fn write_text(&self, text: &mut Vec<u8>) -> Result<(), NoMemory> {
        write_count(text, b"blocks ", self.blocks)?;
        write_count(text, b" flash ", self.flash)?;
        write_count(text, b" requests ", self.requests)?;
        write_count(text, b" hits ", self.hits)?;
        text.extend_from_slice(b" hit_ratio ")?;
        write_ratio(text, self.hits, self.requests)?;
        text.push(b'\n')?;
        Ok(())
    }
}

/// An answer in a format: the sizes in the order in which they were tried. As text the answer follows them; in a table it is the line
/// whose column `least` is 1.
fn text_of(
    alloc: Global,
    search: &Search,
    answer: &Answer,
    format: Format,
) -> Result<Vec<u8>, NoMemory> {
    match format {
        Format::Text => words(alloc, search, answer),
        Format::Csv => {
            let mut text = Vec::from_slice(alloc, HEADER)?;
            write_lines(&mut text, search, answer)?;
            Ok(text)
        }
        Format::Json => {
            let mut lines = Vec::new(alloc);
            write_lines(&mut lines, search, answer)?;
            json_lines(alloc, HEADER, lines.as_slice())
        }
    }
}

/// Appends a line of a table for each try.
fn write_lines(text: &mut Vec<u8>, search: &Search, answer: &Answer) -> Result<(), NoMemory> {
    for tried in answer.tries.as_slice() {
        Tried::of(search, tried, answer.reached).write_csv(text)?;
    }
    Ok(())
}

/// A line in words for each try, and then the least size that reaches the target.
fn words(alloc: Global, search: &Search, answer: &Answer) -> Result<Vec<u8>, NoMemory> {
    let mut text = Vec::new(alloc);
    for tried in answer.tries.as_slice() {
        Tried::of(search, tried, answer.reached).write_text(&mut text)?;
    }
    text.extend_from_slice(b"least ")?;
    for tried in answer.tries.as_slice() {
        let tried = Tried::of(search, tried, answer.reached);
        if tried.is_least {
            tried.write_text(&mut text)?;
            return Ok(text);
        }
    }
    text.extend_from_slice(b"none\n")?;
    Ok(text)
}
