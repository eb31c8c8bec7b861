// More of a fault: the file and the line, what was expected there and what was found.
use crate::entries::program;
use crate::fault::Fault;
use crate::source::{Source, SourceFault};
use clap::ArgMatches;
use csv::{ByteRecord, Reader, ReaderBuilder};
use rw_import::format_of;
use rw_photo::Config;
use rw_plot::PlotFault;
use rw_report::SimFault;
use rw_sweep::JoinFault;
use rw_trace::{MAX_DIGITS, MAX_ROWS, MAX_SIZE, MAX_TIME, TraceFault};
use std::alloc::Global;
use std::fmt::{self, Display, Formatter};
use std::io::Read;

/// The headers of a trace.
const OF_TRACES: &str = "time,edge,object,size or time,edge,object,size,kind";

/// The headers of the tables that are drawn.
const OF_TABLES: &str = "that of a table of sweep, or of serial or sweep with --every";

/// The header of a part of a sweep.
const OF_PARTS: &str = "that of a part, as sweep --part writes it";

/// More of a fault of the command that these words ask for, if there is more to say. A file is read again for it; standard input and
/// pipes are not.
pub(crate) fn hint<S: Source>(
    alloc: Global,
    fault: &Fault,
    words: &[String],
    source: &mut S,
) -> Option<String> {
    let matches = program(alloc).ok()?.try_get_matches_from(words).ok()?;
    let (_, options) = matches.subcommand()?;
    match fault {
        Fault::Source(SourceFault::Read) => of_missing(alloc, options, source),
        Fault::Run(SimFault::Trace(fault)) => {
            of_trace(alloc, fault, options.get_str("trace")?, source)
        }
        Fault::Run(SimFault::Rounds) => said(alloc, "a run with more --rounds may end"),
        Fault::Run(SimFault::NoThread) => said(
            alloc,
            "a run with fewer --workers starts fewer threads",
        ),
        Fault::Plot(fault) => of_table(alloc, fault, options.get_str("table")?, source),
        Fault::Join(fault) => of_parts(alloc, fault, options, source),
        _ => None,
    }
}

/// These words.
fn said<D: Display + Drop>(alloc: Global, words: D) -> Option<String> {
    format!(in alloc; "{words}").ok()
}

/// The first of the files that the options name which cannot be read, and why.
fn of_missing<S: Source>(
    alloc: Global,
    options: &ArgMatches<'_>,
    source: &mut S,
) -> Option<String> {
    for argument in ["trace", "log", "table", "parts"] {
        for path in options.get_strs(argument).unwrap_or(&[]) {
            if let Some(why) = source.why_not(path) {
                return said(alloc, format_args!("{path}: {why}"));
            }
        }
    }
    None
}

/// More of a fault of a trace.
fn of_trace<S: Source>(
    alloc: Global,
    fault: &TraceFault,
    path: &str,
    source: &mut S,
) -> Option<String> {
    match *fault {
        TraceFault::Header => of_header(alloc, path, OF_TRACES, source),
        TraceFault::TooManyRows => said(
            alloc,
            format_args!("a trace of more than {MAX_ROWS} rows runs with --stream"),
        ),
        TraceFault::RowLength(row) => of_length(alloc, &row_of(alloc, path, row, source)?),
        TraceFault::Number(row, column) => {
            let row = row_of(alloc, path, row, source)?;
            let found = row.field(column as usize);
            said(
                alloc,
                format_args!(
                    "{row}: {found} is not a number of 1 to {MAX_DIGITS} digits, below 2^64"
                ),
            )
        }
        TraceFault::TimeRange(row) => {
            let row = row_of(alloc, path, row, source)?;
            let found = row.field(0);
            said(
                alloc,
                format_args!("{row}: time {found} is over {MAX_TIME}"),
            )
        }
        TraceFault::EdgeRange(row) => of_edge(alloc, path, row, source),
        TraceFault::SizeRange(row) => {
            let row = row_of(alloc, path, row, source)?;
            let found = row.field(3);
            said(
                alloc,
                format_args!("{row}: size {found} is not 1 to {MAX_SIZE}"),
            )
        }
        TraceFault::Kind(row) => {
            let row = row_of(alloc, path, row, source)?;
            let found = row.field(4);
            said(
                alloc,
                format_args!("{row}: kind {found} is neither get nor purge"),
            )
        }
        TraceFault::Order(row) => {
            let row = row_of(alloc, path, row, source)?;
            said(
                alloc,
                format_args!(
                    "{row}: the time is before that of the row in front; without --stream, rows come in any order"
                ),
            )
        }
        TraceFault::Memory => None,
    }
}

/// More of an edge that the options do not have: how many edges the whole trace asks for.
fn of_edge<S: Source>(alloc: Global, path: &str, row: u64, source: &mut S) -> Option<String> {
    let row = row_of(alloc, path, row, source)?;
    let edge = row.number(1)?;
    let greatest = greatest_edge(alloc, path, source)?.max(edge);
    if greatest >= u64::from(Config::MAX_EDGES) {
        let most = Config::MAX_EDGES;
        return said(
            alloc,
            format_args!(
                "{row}: edge {edge}; the trace has an edge {greatest}, and --edges is at most {most}"
            ),
        );
    }
    let edges = greatest.checked_add(1)?;
    said(
        alloc,
        format_args!("{row}: edge {edge}; the trace has edges up to {greatest}: --edges {edges}"),
    )
}

/// The greatest edge of a trace in a file; 0 where it has none. Reads as many rows as a trace in memory may have.
fn greatest_edge<S: Source>(alloc: Global, path: &str, source: &mut S) -> Option<u64> {
    let reader = source.reopen(path)?;
    let mut records: Reader<S::Reader> = ReaderBuilder::new()
        .has_headers(true)
        .flexible(true)
        .from_reader(alloc, reader);
    let mut fields = ByteRecord::new(alloc);
    let mut greatest = 0;
    for _record in 0..MAX_ROWS {
        if !records.read_byte_record(&mut fields).ok()? {
            break;
        }
        if let Some(edge) = fields.get(1) {
            greatest = rw_trace::number(edge).unwrap_or(0).max(greatest);
        }
    }
    Some(greatest)
}

/// More of a fault of a table that is drawn.
fn of_table<S: Source>(
    alloc: Global,
    fault: &PlotFault,
    path: &str,
    source: &mut S,
) -> Option<String> {
    match *fault {
        PlotFault::Header => of_header(alloc, path, OF_TABLES, source),
        PlotFault::RowLength(row) => of_length(alloc, &row_of(alloc, path, row, source)?),
        PlotFault::Number(row, column) => {
            of_number(alloc, &row_of(alloc, path, row, source)?, column)
        }
        PlotFault::Caches(row) => {
            let row = row_of(alloc, path, row, source)?;
            said(
                alloc,
                format_args!("{row}: the caches are none of edges, origins and all"),
            )
        }
        _ => None,
    }
}

/// More of a fault of the parts of a sweep.
fn of_parts<S: Source>(
    alloc: Global,
    fault: &JoinFault,
    options: &ArgMatches<'_>,
    source: &mut S,
) -> Option<String> {
    let paths = options.get_strs("parts")?;
    match *fault {
        JoinFault::Header(file) => { of_header(alloc, paths.get(file as usize)?, OF_PARTS, source) }
        JoinFault::CutOff(file) => {
            let path = Named(paths.get(file as usize)?);
            said(
                alloc,
                format_args!("{path}: the last line has no end; run that part again"),
            )
        }
        JoinFault::Length(file, row) => {
            let path = paths.get(file as usize)?;
            of_length(alloc, &row_of(alloc, path, row, source)?)
        }
        JoinFault::Number(file, row, column) => {
            let path = paths.get(file as usize)?;
            of_number(alloc, &row_of(alloc, path, row, source)?, column)
        }
        JoinFault::Missing(_) => said(
            alloc,
            "a part is missing; sweep --list has the combinations by their places",
        ),
        JoinFault::Twice(_) => said(
            alloc,
            "a part is given twice, or parts of several sweeps are mixed",
        ),
        _ => None,
    }
}

/// More of a row that has not as many fields as the header.
fn of_length(alloc: Global, row: &Row<'_>) -> Option<String> {
    let count = row.fields.len();
    said(
        alloc,
        format_args!("{row}: {count} fields, not as many as the header has"),
    )
}

/// More of a field that is no value of its column.
fn of_number(alloc: Global, row: &Row<'_>, column: u64) -> Option<String> {
    let found = row.field(column as usize);
    said(
        alloc,
        format_args!("{row}: {found} is no value of its column"),
    )
}

/// What the header of a file should be, and with what the file begins.
fn of_header<S: Source>(
    alloc: Global,
    path: &str,
    expected: &str,
    source: &mut S,
) -> Option<String> {
    let Some(mut reader) = source.reopen(path) else {
        return said(alloc, format_args!("the header should be {expected}"));
    };
    let beginning = Beginning::read(&mut reader);
    if let Some(format) = format_of(beginning.as_bytes()) {
        return said(alloc, format_args!("{path} is {format}"));
    }
    let found = Excerpt(beginning.first_line());
    said(
        alloc,
        format_args!("{path} begins with {found}; the header should be {expected}"),
    )
}

/// A file, as it is named to people.
#[derive(Clone, Copy)]
struct Named<'a>(&'a str);

impl Display for Named<'_> {
    fn fmt<W: fmt::Write>(&self, formatter: &mut Formatter<W>) -> fmt::Result {
        formatter.write_str(if self.0 == "-" {
            "standard input"
        } else {
            self.0
        })
    }
}

/// The beginning of a field or of a line, between quotes. A byte that is no visible ASCII character is shown as `?`.
#[derive(Clone, Copy)]
struct Excerpt<'a>(&'a [u8]);

impl Display for Excerpt<'_> {
    fn fmt<W: fmt::Write>(&self, formatter: &mut Formatter<W>) -> fmt::Result {
        formatter.write_char('`')?;
        for byte in self.0.iter().take(40) {
            let shown = if *byte == b' ' || byte.is_ascii_graphic() {
                char::from(*byte)
            } else {
                '?'
            };
            formatter.write_char(shown)?;
        }
        formatter.write_str(if self.0.len() > 40 { "..`" } else { "`" })
    }
}

/// What a file begins with.
#[derive(Clone, Copy)]
struct Beginning {
    bytes: [u8; Beginning::ROOM],
    length: usize,
}

impl Beginning {
    /// How many bytes of it are looked at.
    const ROOM: usize = 64;

    /// The beginning of what a reader gives; where it fails, what came before that.
    fn read<R: Read>(reader: &mut R) -> Beginning {
        let mut bytes = [0; Beginning::ROOM];
        let mut length = 0;
        while length < Beginning::ROOM {
            let count = reader.read(&mut bytes[length..]).unwrap_or(0);
            if count == 0 {
                break;
            }
            length += count;
        }
        Beginning { bytes, length }
    }

    /// Its bytes.
    fn as_bytes(&self) -> &[u8] {
        self.bytes.get(..self.length).unwrap_or(&[])
    }

    /// Its first line.
    fn first_line(&self) -> &[u8] {
        let bytes = self.as_bytes();
        bytes.split(|byte| *byte == b'\n').next().unwrap_or(bytes)
    }
}

/// A row of a file, shown as the file and the line on which it begins, from 1.
#[derive(Drop)]
struct Row<'a> {
    path: &'a str,
    line: u64,
    fields: ByteRecord,
}

impl Row<'_> {
    /// A field of it, by its number from 0, as it is shown.
    fn field(&self, column: usize) -> Excerpt<'_> {
        Excerpt(self.fields.get(column).unwrap_or(&[]))
    }

    /// A field of it as a number.
    fn number(&self, column: usize) -> Option<u64> {
        rw_trace::number(self.fields.get(column)?)
    }
}

impl Display for Row<'_> {
    fn fmt<W: fmt::Write>(&self, formatter: &mut Formatter<W>) -> fmt::Result {
        let Row { path, line, .. } = self;
        write!(formatter, "{path} line {line}")
    }
}

/// A row of a file, by its number from 0, where the header is not counted.
fn row_of<'a, S: Source>(
    alloc: Global,
    path: &'a str,
    row: u64,
    source: &mut S,
) -> Option<Row<'a>> {
    let reader = source.reopen(path)?;
    let mut records: Reader<S::Reader> = ReaderBuilder::new()
        .has_headers(false)
        .flexible(true)
        .from_reader(alloc, reader);
    let mut fields = ByteRecord::new(alloc);
    for _record in 0..=row.checked_add(1)? {
        if !records.read_byte_record(&mut fields).ok()? {
            return None;
        }
    }
    let line = fields.position()?.line();
    Some(Row { path, line, fields })
}
