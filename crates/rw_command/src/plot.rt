// From a table to a picture.
ghost use Rattle.std.specs.Prelude.{◌≡◌, ◌≢◌, ◌↔◌, IfErr, IsErrAnd};
ghost use Rattle.rw_command.specs.Status.{status_of};

use crate::arguments::{Argument, Given, Value};
use crate::entries::{Entry, Hints};
use crate::fault::Fault;
use crate::files::{read, write};
use crate::options_file::OPTIONS;
use crate::source::Source;
use clap::ArgMatches;
use rw_import::MAX_TICKS;
use rw_plot::{Caches, Drawing, FlashOf, Measure};
use rw_report::Out;
use std::alloc::Global;
use std::io::Write;

/// The command.
static ENTRY: Entry = Entry {
    name: "plot",
    about: "Draws what sweep printed over the size of the flash, or a table over time, as SVG",
    examples: "Examples:
  ripqwarp sweep --policy lru,slru3 --edge-blocks 64..1024x2 trace.csv | ripqwarp plot - > hit_ratio.svg
  ripqwarp plot --of backend_requests --caches origins table.csv > backend.svg",
    hints: Hints::Always,
    own: &DRAWING,
    shared: &[],
};

/// The command.
pub(crate) fn entry() -> &'static Entry {
    &ENTRY
}

/// What is drawn of a table.
const DRAWING: [Argument; 7] = [
    Argument {
        name: "table",
        value: Value::File("TABLE"),
        given: Given::Always,
        help: "What sweep printed, or serial or sweep with --every; - is standard input",
    },
    Argument {
        name: "of",
        value: Value::Word(
            "MEASURE",
            &[
                "hit_ratio",
                "byte_hit_ratio",
                "flash_writes",
                "backend_requests",
                "backend_bytes",
            ],
        ),
        given: Given::Or("hit_ratio"),
        help: "What is drawn, over the size of the flash or over time",
    },
    Argument {
        name: "caches",
        value: Value::Word("CACHES", &["edges", "origins", "all"]),
        given: Given::Maybe,
        help: "The caches to draw; by default all, and of serial over time a line for each of the three",
    },
    Argument {
        name: "x",
        value: Value::Word("FLASH", &["edge", "origin", "total"]),
        given: Given::Maybe,
        help: "Whose flash is on the x axis; by default total, and where both block counts vary that of one cache",
    },
    Argument {
        name: "ticks-a-second",
        value: Value::Count(MAX_TICKS as i64),
        given: Given::Or("1000"),
        help: "Ticks in a second of a table over time, 1 to 1000000000",
    },
    Argument {
        name: "name",
        value: Value::Text("TEXT"),
        given: Given::Maybe,
        help: "What the picture calls the table; by default its file",
    },
    OPTIONS,
];

/// Reads the table that the options name, and writes the picture that they ask for.
///
/// # Errors
///
/// `NotOfEdges` where the edges' part of what reached the backend is asked for; those of the source, a
/// [`PlotFault`](rw_plot::PlotFault), and `Memory`: nothing was written then. `Output` exactly where the writer failed.
pub(crate) fn plot<S: Source, W: Write>(
    alloc: Global,
    options: &ArgMatches<'_>,
    source: &mut S,
    out: &mut Out<W>,
) -> Result<(), Fault>
    ensures output { IsErrAnd result (λ e. status_of e ≡ 8)
        ↔ (out.new.failures ≢ out.old.failures) }
    ensures nothing { IfErr result (λ e. status_of e ≢ 8 → out.new ≡ out.old) }
{
    let drawing = drawing(options).ok_or(Fault::Plan)?;
    if let Some(measure) = edges_never(drawing) {
        return Err(Fault::NotOfEdges(measure));
    }
    let table = read(alloc, options, "table", source)?;
    let picture = rw_plot::plot(alloc, table_name(options), table.as_slice(), drawing)?;
    Ok(write(picture.as_slice(), out)?)
}

/// What to draw; None where an option has none of the values that the command line takes.
fn drawing(options: &ArgMatches<'_>) -> Option<Drawing> {
    Some(Drawing {
        measure: measure(options)?,
        caches: caches(options)?,
        x: flash(options)?,
        ticks_a_second: options.get_one("ticks-a-second")?,
    })
}

/// The measure to draw; None where the option has none of the words that the command line takes.
fn measure(options: &ArgMatches<'_>) -> Option<Measure> {
    match options.get_str("of")? {
        "hit_ratio" => Some(Measure::HitRatio),
        "byte_hit_ratio" => Some(Measure::ByteHitRatio),
        "flash_writes" => Some(Measure::FlashWrites),
        "backend_requests" => Some(Measure::BackendRequests),
        "backend_bytes" => Some(Measure::BackendBytes),
        _ => None,
    }
}

/// The caches to draw, if the option is there; None where its value is none of the words that the command line takes.
fn caches(options: &ArgMatches<'_>) -> Option<Option<Caches>> {
    match options.get_str("caches") {
        None => Some(None),
        Some("edges") => Some(Some(Caches::Edges)),
        Some("origins") => Some(Some(Caches::Origins)),
        Some("all") => Some(Some(Caches::All)),
        Some(_) => None,
    }
}

/// Whose flash is on the x axis, if the option is there; None where its value is none of the words that the command line takes.
fn flash(options: &ArgMatches<'_>) -> Option<Option<FlashOf>> {
    match options.get_str("x") {
        None => Some(None),
        Some("edge") => Some(Some(FlashOf::Edge)),
        Some("origin") => Some(Some(FlashOf::Origin)),
        Some("total") => Some(Some(FlashOf::Total)),
        Some(_) => None,
    }
}

/// The word of the measure where it is one of the backend's, of edges: these ask an origin, so it is 0 throughout.
fn edges_never(drawing: Drawing) -> Option<&'static str> {
    match (drawing.measure, drawing.caches) {
        (Measure::BackendRequests, Some(Caches::Edges)) => Some("backend_requests"),
        (Measure::BackendBytes, Some(Caches::Edges)) => Some("backend_bytes"),
        _ => None,
    }
}

/// What the picture calls the table: what the options say, or its file, as it was named.
fn table_name<'a>(options: &ArgMatches<'a>) -> &'a str {
    if let Some(name) = options.get_str("name") {
        return name;
    }
    match options.get_str("table") {
        None | Some("-") => "standard input",
        Some(path) => path,
    }
}
