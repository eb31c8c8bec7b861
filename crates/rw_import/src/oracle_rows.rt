//! The rows of a log in the oracle-general format that are read one by one.

ghost use Rattle.std.specs.Prelude.{◌≡◌, ◌≤◌, ◌+◌, ◌⊎◌, [], List, Ok, Some, false, IfErr, IfNone, IfOk, IfSome};
ghost use Rattle.rw_numbers.specs.Words.{Count, Time};
ghost use Rattle.rw_trace.specs.Limits.{most_streamed_rows};
ghost use Rattle.rw_trace.specs.Pieces.{AreAll};
ghost use Rattle.rw_trace.specs.Words.{Text};
ghost use Rattle.rw_trace.specs.declared.Row.{Row};
ghost use Rattle.rw_trace.specs.declared.TraceFault.TheVariants as fault;
ghost use Rattle.rw_import.specs.OracleRows.{FindsKept, oracle_ahead, ordered_oracle_rows};
ghost use Rattle.rw_import.specs.Sheet.{AreCountsOf};
ghost use Rattle.rw_import.specs.Streamed.{oracle_rows_since};

use crate::entry::{Entry, LeftOut};
use crate::options::{Options, Streaming};
use crate::oracle_stream::{ROOM, next_told};
use crate::sheet::{count, no_counts, row_of_entry};
use rw_trace::{MAX_STREAMED_ROWS, Row, RowSource, RowsFault, TraceFault};
use std::alloc::{AllocError, Global};
use std::io::{BufReader, Read};
use std::marker::Model;

/// The rows of a log in the oracle-general format that stands in order of time, read one by one. They are those of the trace that
/// [`stream_oracle`](crate::stream_oracle) writes: the same records are left out. Contracts see what is still to come.
///
/// The log is refused with `Trace` and `TooManyRows` for one kept record more than [`MAX_STREAMED_ROWS`], or else with `Trace` and
/// `Order` of the record's number, from 0, where its row is before the one in front of it; and with `Read` where the reader
/// underneath answers an error. A record whose number would be 2^64 - 1 or more is not read: that is `Trace` and `Memory`.
#[derive(Drop)]
pub struct OracleRows<R: Read + Drop> {
    reader: BufReader<R>,
    options: Options,
    /// The log time that is tick 0, once it is known.
    epoch: Option<u128>,
    /// The number of the next record.
    number: u64,
    /// How many rows were given so far.
    kept: u64,
    /// The time of the last of these, or 0.
    latest: u64,
    /// How many records were left out.
    left_out: LeftOut,
}

impl<R: Read + Drop> Model for OracleRows<R> {
    ghost use Rattle.std.specs.Prelude.{◌≤◌, ◌-◌};
    ghost use Rattle.std.specs.Io.Buffered.{reader_remaining};
    ghost use Rattle.rw_trace.specs.Limits.{most_streamed_rows};
    ghost use Rattle.rw_trace.specs.Pieces.{RowsAhead};
    ghost use Rattle.rw_import.specs.OracleRows.{oracle_ahead};
    ghost use Rattle.rw_import.specs.Sheet.{AreCountsOf};

    ghost Value = { RowsAhead };

    ghost view = { λ r. record {
      edges = r.options.edges;
      latest = r.latest;
      most = most_streamed_rows - r.kept;
      ahead = oracle_ahead r.options r.epoch r.number r.kept r.latest
          (reader_remaining R.remaining r.reader);
    } };

    ghost invariant = { λ r. (r.kept ≤ most_streamed_rows) × AreCountsOf r.number r.left_out };
}

impl<R: Read + Drop> OracleRows<R> {
    /// The rows of the log in the bytes of a reader. Nothing is read yet. Tick 0 is the epoch that `streaming` has, or the time of the
    /// first record that says one. `streaming` is not strict: records that are left out are counted.
    ///
    /// # Errors
    ///
    /// [`AllocError`] where memory was refused.
    pub fn open(alloc: Global, log: R, streaming: &Streaming) -> Result<OracleRows<R>, AllocError>
        requires lenient { streaming.now.options.strict ≡ false }
        ensures edges { IfOk result (λ rows. rows.edges ≡ streaming.now.options.edges) }
        ensures latest { IfOk result (λ rows. rows.latest ≡ 0) }
        ensures most { IfOk result (λ rows. rows.most ≡ most_streamed_rows) }
        ensures ahead { IfOk result (λ rows. IfSome (R.remaining log) (λ bytes.
            rows.ahead ≡ Some (ordered_oracle_rows streaming.now bytes))) }
        ensures same { (bytes : Text) → (given : List Row)
            → ordered_oracle_rows streaming.now bytes ≡ Ok given
            → given ≡ oracle_rows_since streaming.now bytes }
    {
        let Ok(reader) = BufReader::with_capacity(alloc, ROOM, log) else {
            return Err(AllocError);
        };
        Ok(OracleRows {
            reader,
            options: streaming.options,
            epoch: streaming.epoch,
            number: 0,
            kept: 0,
            latest: 0,
            left_out: no_counts(),
        })
    }

    /// How many records were left out of those that were read so far, each counted once, by what was first wrong with it.
    pub fn left_out(&self) -> LeftOut {
        self.left_out
    }

    /// How many rows were given so far.
    pub fn kept(&self) -> u64
        ensures { result + self.now.most ≡ most_streamed_rows }
    {
        self.kept
    }
}

impl<R: Read + Drop> RowSource for OracleRows<R> {
    ghost rest = { λ rows. rows };

    fn next_row(&mut self) -> Result<Option<Row>, RowsFault> {
        let next = next_kept(
            &mut self.reader,
            self.options,
            &mut self.epoch,
            &mut self.number,
            &mut self.left_out,
        )?;
        let Some((entry, object)) = next else {
            return Ok(None);
        };
        if self.kept >= MAX_STREAMED_ROWS {
            return Err(RowsFault::Trace(TraceFault::TooManyRows));
        }
        let epoch = self.epoch.unwrap_or(0);
        let row = row_of_entry(self.options, epoch, self.kept, object, entry);
        if row.time < self.latest {
            return Err(RowsFault::Trace(TraceFault::Order(self.number - 1)));
        }
        self.kept += 1;
        self.latest = row.time;
        Ok(Some(row))
    }
}

/// The next record that is kept, if there is one. The records in front of it are counted as left out.
///
/// # Errors
///
/// `Read` where the reader answers an error, and `Trace` with `Memory` where no number is left for one more record.
fn next_kept<R: Read>(
    reader: &mut R,
    options: Options,
    epoch: &mut Option<u128>,
    number: &mut u64,
    left_out: &mut LeftOut,
) -> Result<Option<(Entry, u64)>, RowsFault>
    requires within { AreCountsOf number.old left_out.old }
    ensures counts { AreCountsOf number.new left_out.new }
    ensures none { IfOk result (λ next. IfNone next ((kept : Count) → (t : Time) → AreAll
        (oracle_ahead options epoch.old number.old kept t (R.remaining reader.old)) [])) }
    ensures some { IfOk result (λ next. IfSome next (FindsKept options epoch.old epoch.new
        number.old number.new (R.remaining reader.old) (R.remaining reader.new))) }
    ensures refused { IfErr result (λ e.
        (e ≡ RowsFault.Read) ⊎ (e ≡ RowsFault.Trace fault.Memory)) }
{
    for at in *number..u64::MAX {
        let Ok(next) = next_told(reader, options, epoch) else {
            return Err(RowsFault::Read);
        };
        let Some(told) = next else {
            return Ok(None);
        };
        *number = at + 1;
        match told {
            Ok(kept) => return Ok(Some(kept)),
            Err(flaw) => count(left_out, flaw, at),
        }
    }
    Err(RowsFault::Trace(TraceFault::Memory))
}
