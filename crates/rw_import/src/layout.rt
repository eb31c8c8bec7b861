//! How a log of fields is read.

use std::hash::RandomState;

/// Which column of a log.
#[derive(Drop)]
pub enum Column {
    /// The first one of this name in the log's header, which is its first record.
    Named(Vec<u8>),
    /// The one with this number, from 0.
    At(u64),
}

/// What a double quote is in a log of fields.
#[derive(Clone, Copy)]
pub enum Quotes {
    /// A field may stand between two of them, and has no line end inside it: a log that has one is refused, since it is mostly a
    /// quote that is not closed, and the rows behind it would be part of that field.
    OneLine,
    /// A field may stand between two of them, and may have line ends inside it.
    Multiline,
    /// A byte as any other: a record is a line, split at the delimiter.
    Plain,
}

/// Which bytes part the fields of a log, which columns its rows are read from, and how the texts of its objects are hashed.
#[derive(Drop)]
pub struct Layout {
    /// The byte between two fields.
    pub delimiter: u8,
    /// What a double quote is.
    pub quotes: Quotes,
    /// The column of times: a number of up to 20 digits and 64 bits, and perhaps a point and digits behind it, of which
    /// nine count.
    pub time: Column,
    /// Whether a time has to be a whole number of units.
    pub whole_times: bool,
    /// The column of objects: any bytes, but not none.
    pub object: Column,
    /// The column of sizes in bytes. A size over 2^32 - 1 is taken as 2^32 - 1, and counted.
    pub size: Column,
    /// The size of a row that names none: of which the field is empty, `-` or 0. `None`: such a row is left out.
    pub missing_size: Option<u64>,
    /// The column of edges, if there is one: numbers below 256.
    pub edge: Option<Column>,
    /// The column of kinds, if there is one: `get` or `purge`, in capitals or not.
    pub kind: Option<Column>,
    /// The keys of the hash by which the text of an object is found. No number of an object depends on them.
    pub keys: RandomState,
}

/// Where the columns of a log stand, from 0; whether times have to be whole; and the size of a row that names none.
#[derive(Clone, Copy)]
pub struct Places {
    pub time: u64,
    pub whole_times: bool,
    pub object: u64,
    pub size: u64,
    pub missing_size: Option<u64>,
    pub edge: Option<u64>,
    pub kind: Option<u64>,
}
