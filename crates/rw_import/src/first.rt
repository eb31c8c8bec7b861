//! The first row of a log that is left out: where it stands, what is wrong with it, and what may help.

use crate::csv_row::{UNIT, field_of, time_of};
use crate::fault::{Flaw, Part};
use crate::layout::Places;
use crate::options::Options;
use csv::ByteRecord;
use std::fmt;

/// Where a row of a log stands.
#[derive(Clone, Copy, Debug)]
pub enum Spot {
    /// On this line of a log of fields, from 1.
    Line(u64),
    /// It is this record of a binary log, from 1.
    Record(u64),
}

impl fmt::Display for Spot {
    fn fmt<W: fmt::Write>(&self, f: &mut fmt::Formatter<W>) -> fmt::Result {
        match self {
            Spot::Line(line) => write!(f, "line {line}"),
            Spot::Record(record) => write!(f, "record {record}"),
        }
    }
}

/// What is wrong with a row, as it is told.
#[derive(Clone, Copy, Debug)]
pub enum Wrong {
    /// It has this many fields, too few for the columns.
    Fields(u64),
    /// It is cut off.
    CutOff,
    /// Its time is none.
    Time,
    /// Its time is no whole number of units, as one has to be that is spread.
    Fraction,
    /// Its time is before the epoch.
    Early,
    /// Its time is past the latest of a trace, where a unit of the log's time is this many ticks.
    Late(u64),
    /// Its edge is none.
    Edge,
    /// It has no object.
    Object,
    /// Its size is none.
    Size,
    /// Its kind is none.
    Kind,
}

/// The most bytes of a field that are shown.
const SHOWN: usize = 32;

/// The beginning of a field.
#[derive(Clone, Copy, Debug)]
pub struct Excerpt {
    bytes: [u8; SHOWN],
    length: usize,
    /// Whether the field goes on.
    is_cut: bool,
}

impl Excerpt {
    /// The beginning of a field.
    fn new(field: &[u8]) -> Excerpt {
        let mut bytes = [b' '; SHOWN];
        let length = field.len().min(SHOWN);
        bytes[..length].copy_from_slice(&field[..length]);
        Excerpt {
            bytes,
            length,
            is_cut: field.len() > SHOWN,
        }
    }
}

/// In double quotes; a byte that is no visible ASCII character is a question mark.
impl fmt::Display for Excerpt {
    fn fmt<W: fmt::Write>(&self, f: &mut fmt::Formatter<W>) -> fmt::Result {
        f.write_char('"')?;
        for place in 0..self.length.min(SHOWN) {
            let byte = self.bytes[place];
            let shown = if byte == b' ' || byte.is_ascii_graphic() {
                char::from(byte)
            } else {
                '?'
            };
            f.write_char(shown)?;
        }
        f.write_str(if self.is_cut { "..\"" } else { "\"" })
    }
}

/// The first row of a log that is left out, shown as where it stands, what was expected there and found, and, where that may help, what
/// to try.
#[derive(Clone, Copy, Debug)]
pub struct FirstLeftOut {
    /// Where it stands.
    pub spot: Spot,
    /// What is wrong with it.
    pub wrong: Wrong,
    /// The beginning of the field that is wrong; of a row of too few fields that of its first.
    pub found: Excerpt,
}

impl FirstLeftOut {
    /// The first row left out of a log of fields, where tick 0 is at `first`.
    pub(crate) fn of_record(
        spot: Spot,
        fields: &ByteRecord,
        places: Places,
        options: Options,
        first: u128,
        flaw: Flaw,
    ) -> FirstLeftOut {
        let place = match flaw {
            Flaw::Length => 0,
            Flaw::Column(place, _) => place,
        };
        let found = field_of(fields, place);
        let wrong = match flaw {
            Flaw::Length => Wrong::Fields(fields.len() as u64),
            Flaw::Column(_, Part::Time) => wrong_time(found, options, first, places.whole_times),
            Flaw::Column(_, part) => wrong_part(part),
        };
        FirstLeftOut {
            spot,
            wrong,
            found: Excerpt::new(found),
        }
    }

    /// The first record left out of a binary log, its number from 0.
    pub(crate) fn of_piece(number: u64, options: Options, flaw: Flaw) -> FirstLeftOut {
        let wrong = match flaw {
            Flaw::Length => Wrong::CutOff,
            Flaw::Column(_, Part::Time) => Wrong::Late(options.ticks),
            Flaw::Column(_, part) => wrong_part(part),
        };
        FirstLeftOut {
            spot: Spot::Record(number.saturating_add(1)),
            wrong,
            found: Excerpt::new(b""),
        }
    }
}

/// What is wrong with a time, where tick 0 is at `first`.
fn wrong_time(text: &[u8], options: Options, first: u128, is_whole: bool) -> Wrong {
    match time_of(text) {
        None => Wrong::Time,
        Some(time) if is_whole && time % UNIT != 0 => Wrong::Fraction,
        Some(time) if time < first => Wrong::Early,
        Some(_) => Wrong::Late(options.ticks),
    }
}

/// What is wrong with another part.
fn wrong_part(part: Part) -> Wrong {
    match part {
        Part::Time => Wrong::Time,
        Part::Edge => Wrong::Edge,
        Part::Object => Wrong::Object,
        Part::Size => Wrong::Size,
        Part::Kind => Wrong::Kind,
    }
}

impl fmt::Display for FirstLeftOut {
    fn fmt<W: fmt::Write>(&self, f: &mut fmt::Formatter<W>) -> fmt::Result {
        let FirstLeftOut { spot, wrong, found } = self;
        write!(f, "{spot}: ")?;
        match wrong {
            Wrong::Fields(1) => write!(f, "one field, {found}; try --delimiter"),
            Wrong::Fields(count) => write!(f, "{count} fields are too few"),
            Wrong::CutOff => f.write_str("cut off"),
            Wrong::Time => write!(f, "time: expected a number, found {found}"),
            Wrong::Fraction => write!(
                f,
                "time: expected a whole number, to be spread, found {found}"
            ),
            Wrong::Early => write!(f, "time: expected none before the epoch, found {found}"),
            Wrong::Late(1) => f.write_str("time: over 2^39 ticks after the first"),
            Wrong::Late(ticks) => write!(
                f,
                "time: over 2^39 ticks after the first, at --ticks {ticks}; try --ticks 1"
            ),
            Wrong::Edge => write!(f, "edge: expected a number below 256, found {found}"),
            Wrong::Object => f.write_str("object: expected a text, found none"),
            Wrong::Size => write!(f, "size: expected a number from 1, found {found}"),
            Wrong::Kind => write!(f, "kind: expected get or purge, found {found}"),
        }
    }
}
