//! What can be wrong with a log.

ghost use Rattle.std.specs.Prelude.{◌≡◌};
ghost use Rattle.rw_import.specs.declared.fault.ImportFault.TheVariants as fault;

use crate::entry::Counts;
use crate::first::FirstLeftOut;
use crate::format::Format;
use crate::sheet::all_left_out;
use std::alloc::AllocError;
use std::fmt;

/// A part of a row: a column of the log.
#[derive(Clone, Copy, PartialEq, Eq, Debug)]
pub enum Part {
    Time,
    Edge,
    Object,
    Size,
    Kind,
}

impl fmt::Display for Part {
    fn fmt<W: fmt::Write>(&self, f: &mut fmt::Formatter<W>) -> fmt::Result {
        f.write_str(match self {
            Part::Time => "time",
            Part::Edge => "edge",
            Part::Object => "object",
            Part::Size => "size",
            Part::Kind => "kind",
        })
    }
}

/// What is first wrong with a row.
#[derive(Clone, Copy, PartialEq, Eq, Debug)]
pub enum Flaw {
    /// A column is not there, or the record is cut off.
    Length,
    /// The column with this number, from 0, does not have what it should.
    Column(u64, Part),
}

/// Why too few rows of a log are kept.
#[derive(Clone, Copy, Debug)]
pub struct Losses {
    /// How many rows were kept, and how many left out.
    pub counts: Counts,
    /// The most rows of a hundred that may be left out.
    pub most: u64,
    /// The first row that is left out, if there is one.
    pub first: Option<FirstLeftOut>,
}

impl fmt::Display for Losses {
    fn fmt<W: fmt::Write>(&self, f: &mut fmt::Formatter<W>) -> fmt::Result {
        let Losses {
            counts: Counts { kept, left_out, .. },
            most,
            first,
        } = self;
        if *kept == 0 {
            f.write_str("nothing kept: ")?;
        } else {
            let left = all_left_out(*left_out);
            let all = u128::from(*kept) + left;
            write!(
                f,
                "{left} of {all} rows left out, more than --max-left-out {most} percent: {left_out}; "
            )?;
        }
        match first {
            Some(first) => write!(f, "{first}"),
            None => f.write_str("there is no row"),
        }
    }
}

/// Why a log is refused, each shown as one line. Rows and columns are numbered from 0, and a header is no row; lines are numbered from 1.
#[derive(Debug, Drop, thiserror::Error)]
pub enum ImportFault {
    /// There is no record, and so no header.
    #[error("log: header")]
    Header,
    /// The header has no column of the name.
    #[error("log: no column {0}")]
    NoColumn(Part),
    /// Strict, the first row that is left out has a column too few, or is cut off.
    #[error("log: row {0}: length")]
    RowLength(u64),
    /// Strict, the first row that is left out, the column's number and what is wrong there.
    #[error("log: row {0} column {1}: {2}")]
    Row(u64, u64, Part),
    /// More rows are kept than a trace may have.
    #[error("log: too many rows")]
    TooManyRows,
    /// A request for memory was refused.
    #[error("memory")]
    Memory,
    /// The row is kept, and its time is before that of the kept row in front of it.
    #[error("log: row {0}: order")]
    Order(u64),
    /// The reader of the log answered an error.
    #[error("file: cannot read")]
    Read,
    /// The writer of the trace failed: what went out is a beginning of the text.
    #[error("output")]
    Output,
    /// A field has a line end inside it, where the layout allows none. Its record begins on this line.
    #[error("log: line {0}: quote not closed")]
    OpenQuote(u64),
    /// No row is kept, or too many are left out.
    #[error("log: {0}")]
    TooFewKept(Losses),
    /// It is in another format, which its first bytes tell.
    #[error("log: this is {0}")]
    Format(Format),
}

impl From<AllocError> for ImportFault {
    ghost from_gives = { λ _ e. e ≡ fault.Memory };

    fn from(_refusal: AllocError) -> ImportFault {
        ImportFault::Memory
    }
}
