//! The rows of a trace in memory, as long as its lines are plain and stand in order of time. They are read off the text as they are
//! asked for, with nothing in between.
ghost use Rattle.std.specs.Prelude.{◌≡◌, ◌+◌, ◌∷◌, [], IfErr, IfNone, IfOk, IfSome, OnOk, Some};
ghost use Rattle.rw_trace.specs.Pieces.{ordered_trace_of};
ghost use Rattle.rw_trace.specs.Unread.{records_of};

use crate::pieces::RowsFault;
use crate::plain::{header_line, plain_row};
use crate::row_source::RowSource;
use crate::{Row, Version};
use memchr::memrchr;
use std::marker::Model;

/// The rows of a trace in memory whose lines are plain and stand in order of time. Contracts see what is still to come.
///
/// It gives up with [`RowsFault::Read`], which says nothing of the trace, at the first line of another kind, at a row that is before
/// the one in front of it, and at one row too many: [`read`](crate::read) tells what such a trace is.
#[derive(Drop)]
pub struct PlainRows<'a> {
    bytes: &'a [u8],
    /// Where the next line begins.
    at: usize,
    version: Version,
    edges: u32,
    /// Row `most` is one too many.
    most: u64,
    /// The number of the next row.
    number: u64,
    /// The time of the row in front of it.
    latest: u64,
}

impl<'a> Model for PlainRows<'a> {
    ghost use Rattle.std.specs.Prelude.{◌≤◌, ◌-◌, Some};
    ghost use Rattle.rw_trace.specs.Lines.{records_at};
    ghost use Rattle.rw_trace.specs.Pieces.{RowsAhead, ordered_rows_of};

    ghost Value = { RowsAhead };

    ghost view = { λ r. record {
      edges = r.edges;
      latest = r.latest;
      most = r.most - r.number;
      ahead = Some (ordered_rows_of r.version r.edges r.most r.number r.latest
          (records_at r.bytes.now r.at));
    } };

    ghost invariant = { λ r. r.number ≤ r.most };
}

impl<'a> PlainRows<'a> {
    /// The rows of the trace in these bytes, where row `most` and all behind it are one row too many. `None` where the first line is
    /// no plain header. Takes no memory.
    pub fn open(bytes: &'a [u8], edges: u32, most: u64) -> Option<PlainRows<'a>>
        ensures edges { IfSome result (λ rows. rows.edges ≡ edges) }
        ensures latest { IfSome result (λ rows. rows.latest ≡ 0) }
        ensures most { IfSome result (λ rows. rows.most ≡ most) }
        ensures ahead { IfSome result (λ rows.
            rows.ahead ≡ Some (ordered_trace_of edges most (records_of bytes.now))) }
    {
        let (version, at) = header_line(bytes)?;
        Some(PlainRows {
            bytes,
            at,
            version,
            edges,
            most,
            number: 0,
            latest: 0,
        })
    }

    /// The time of the next row and that of the text's last one, in ticks. `None` where one of these lines is not plain, or the last one
    /// is before the other: then the rows cannot all be given. Takes no memory.
    #[inline(always)]
    pub fn span(&self) -> Option<(u64, u64)> {
        span_from(self.bytes, self.at, self.version, self.edges)
    }
}

/// The times of the row at a place and of the last one, which is not before it.
#[inline(never)]
fn span_from(bytes: &[u8], at: usize, version: Version, edges: u32) -> Option<(u64, u64)> {
    if at >= bytes.len() {
        return None;
    }
    // The last byte may end the last line.
    let last = match memrchr(b'\n', &bytes[..bytes.len() - 1]) {
        Some(feed) => feed + 1,
        None => 0,
    };
    let (from, _) = plain_row(bytes, at, version, edges)?;
    let (to, _) = plain_row(bytes, last, version, edges)?;
    if to.time < from.time {
        return None;
    }
    Some((from.time, to.time))
}

impl<'a> RowSource for PlainRows<'a> {
    ghost rest = { λ rows. rows };

    #[inline(always)]
    fn next_row(&mut self) -> Result<Option<Row>, RowsFault> {
        if self.at >= self.bytes.len() {
            return Ok(None);
        }
        match plain_row(self.bytes, self.at, self.version, self.edges) {
            Some((row, next)) if self.number < self.most && self.latest <= row.time => {
                self.at = next;
                self.number += 1;
                self.latest = row.time;
                Ok(Some(row))
            }
            _ => Err(RowsFault::Read),
        }
    }
}
