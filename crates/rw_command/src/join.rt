// Parts of a sweep, put together.
ghost use Rattle.std.specs.Prelude.{◌≡◌, ◌≢◌, ◌↔◌, IfErr, IsErrAnd};
ghost use Rattle.rw_command.specs.Status.{status_of};

use crate::arguments::{Argument, Given, Value};
use crate::entries::{Entry, Hints};
use crate::fault::Fault;
use crate::files::write;
use crate::source::Source;
use clap::ArgMatches;
use rw_report::Out;
use rw_sweep::MAX_CONFIGURATIONS;
use std::alloc::Global;
use std::io::Write;

/// The command.
static ENTRY: Entry = Entry {
    name: "join",
    about: "Puts the parts of a sweep together and prints the table that sweep prints",
    examples: "Examples:
  ripqwarp sweep --part 0/2 --edge-blocks 64..1024x2 trace.csv > 0.csv
  ripqwarp sweep --part 1/2 --edge-blocks 64..1024x2 trace.csv > 1.csv
  ripqwarp join 0.csv 1.csv > table.csv",
    hints: Hints::Always,
    own: &PARTS,
    shared: &[],
};

/// The command.
pub(crate) fn entry() -> &'static Entry {
    &ENTRY
}

/// The parts of a sweep.
const PARTS: [Argument; 2] = [
    Argument {
        name: "parts",
        value: Value::Files("PART"),
        given: Given::Always,
        help: "What sweep --part printed, every part once, in any order; - is standard input",
    },
    Argument {
        name: "of",
        value: Value::Count(MAX_CONFIGURATIONS as i64),
        given: Given::Maybe,
        help: "Combinations that there have to be, as sweep --list counts them, 1 to 65536",
    },
];

/// Reads the parts that the options name, and writes the table that they make.
///
/// # Errors
///
/// Those of the source, a [`JoinFault`](rw_sweep::JoinFault), and `Memory`: nothing was written then. `Output` exactly where the
/// writer failed.
pub(crate) fn join<S: Source, W: Write>(
    alloc: Global,
    options: &ArgMatches<'_>,
    source: &mut S,
    out: &mut Out<W>,
) -> Result<(), Fault>
    ensures output { IsErrAnd result (λ e. status_of e ≡ 8)
        ↔ (out.new.failures ≢ out.old.failures) }
    ensures nothing { IfErr result (λ e. status_of e ≢ 8 → out.new ≡ out.old) }
{
    let parts = parts(alloc, options, source)?;
    let count: Option<u32> = options.get_one("of");
    let table = rw_sweep::join(alloc, parts.as_slice(), count.map(u64::from))?;
    Ok(write(table.as_slice(), out)?)
}

/// The bytes of all files that the options name, in their order.
fn parts<S: Source>(
    alloc: Global,
    options: &ArgMatches<'_>,
    source: &mut S,
) -> Result<Vec<Vec<u8>>, Fault>
    ensures unwritten { IfErr result (λ e. status_of e ≢ 8) }
{
    let mut parts = Vec::new(alloc);
    let paths = options.get_strs("parts").ok_or(Fault::Plan)?;
    for path in paths {
        let bytes = source.bytes(alloc, path)?;
        parts.push(bytes).map_err(|_| Fault::Memory)?;
    }
    Ok(parts)
}
