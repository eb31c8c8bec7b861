//! What a row of a log says, and what a log comes to.

use rw_trace::Kind;
use std::fmt;

/// What a row of a log says, but its object.
#[derive(Clone, Copy)]
pub struct Entry {
    /// When, in billionths of the log's unit.
    pub time: u128,
    /// At which edge, if the log has a column of edges.
    pub edge: Option<u32>,
    /// The object's size in bytes.
    pub size: u64,
    /// Whether the log has a greater size.
    pub clamped: bool,
    /// Whether the object is asked for or purged.
    pub kind: Kind,
}

/// How many rows of a log were left out, each counted once, by what was first wrong with it.
#[derive(Clone, Copy, Debug)]
pub struct LeftOut {
    /// A column was not there, or a record was cut off.
    pub length: u64,
    /// The time could not be read, is past the latest of a trace, or is before the epoch.
    pub time: u64,
    /// The edge was no number below 256.
    pub edge: u64,
    /// The object was empty.
    pub object: u64,
    /// The size was no number, or 0.
    pub size: u64,
    /// The kind was neither `get` nor `purge`.
    pub kind: u64,
}

impl fmt::Display for LeftOut {
    fn fmt<W: fmt::Write>(&self, f: &mut fmt::Formatter<W>) -> fmt::Result {
        let LeftOut {
            length,
            time,
            edge,
            object,
            size,
            kind,
        } = *self;
        write!(
            f,
            "length {length} time {time} edge {edge} object {object} size {size} kind {kind}"
        )
    }
}

/// What came of the rows of a log.
#[derive(Clone, Copy, Debug)]
pub struct Counts {
    /// How many rows were kept.
    pub kept: u64,
    /// How many of these have a size over 2^32 - 1 in the log, and 2^32 - 1 in the trace.
    pub clamped: u64,
    /// How many rows were left out.
    pub left_out: LeftOut,
}

/// A log as a trace.
#[derive(Drop)]
pub struct Imported {
    /// The text of the trace.
    pub text: Vec<u8>,
    /// How many kept rows have the time and the object of another one that they would not have if rows were spread: of a log whose times
    /// are whole units of more than one tick, and are not spread; else 0. For advice; no clause says that it is right.
    pub crowded: u64,
    /// How many rows were kept.
    pub kept: u64,
    /// How many of these have a size over 2^32 - 1 in the log, and 2^32 - 1 in the trace.
    pub clamped: u64,
    /// How many rows were left out.
    pub left_out: LeftOut,
}
