ghost use Rattle.std.specs.Prelude.{◌≡◌, ℕ};
ghost use Rattle.rw_import.specs.declared.fault.ImportFault.TheVariants as fault;

use crate::fault::{Flaw, ImportFault};
use crate::first::{FirstLeftOut, Spot};
use crate::layout::Places;
use crate::options::Options;
use csv::{ByteRecord, Position};
use rw_progress::Progress;

/// Progress is reported every 1024 rows, so that reading a clock each time costs little.
const ROWS: u64 = 1024;

/// Reports that the readings of a log of `length` bytes begin, which is read twice.
pub(crate) fn begin<P: Progress>(progress: &mut P, length: usize) {
    progress.begin(0, (length as u64).saturating_mul(2));
}

/// One of the readings of a log: how far it has come, who is told of it, and the first row that it left out.
#[derive(Drop)]
pub(crate) struct Reading<'a, P> {
    progress: &'a mut P,
    /// The text of the log, if it is in memory.
    text: &'a [u8],
    /// How many bytes the readings before it have read.
    before: u64,
    /// Where the last record begins, or the line ends before it.
    at: Position,
    /// Whether the line end behind a record is counted with the next one, since its lines end in two bytes.
    is_behind: bool,
    /// The first row that is left out, if one is.
    first: Option<FirstLeftOut>,
}

impl<'a, P: Progress> Reading<'a, P> {
    /// A reading that begins when so many bytes are read, of a log in memory or, where `text` is empty, of one that is not.
    pub(crate) fn new(progress: &'a mut P, text: &'a [u8], before: usize) -> Reading<'a, P> {
        Reading {
            progress,
            text,
            before: before as u64,
            at: Position::new(),
            is_behind: false,
            first: None,
        }
    }

    /// Before row `row` so many bytes are read, or somewhat more.
    pub(crate) fn come_to(&mut self, row: u64, bytes: u64) {
        if row % ROWS == 0 {
            self.progress.reach(self.before.saturating_add(bytes));
        }
    }

    /// Before row `row` the log is read up to here.
    pub(crate) fn come_to_record(&mut self, row: u64, at: Position) {
        if at.record() == 1 {
            self.is_behind = at.line() == 1;
        }
        self.at = at;
        self.come_to(row, at.byte());
    }

    /// The line of the record that begins here, from 1.
    fn line(&self) -> u64 {
        if self.text.is_empty() {
            let more = u64::from(self.is_behind && self.at.record() > 0);
            self.at.line().saturating_add(more)
        } else {
            line_behind(self.text, self.at.byte())
        }
    }

    /// The error of the record that begins here, which has a line end inside a field.
    pub(crate) fn open_quote(&self) -> ImportFault
        ensures { (n : ℕ) × (result ≡ fault.OpenQuote n) }
    {
        ImportFault::OpenQuote(self.line())
    }

    /// Keeps in mind what is wrong with this record, where tick 0 is at `first`, if it is the first one that is left out.
    pub(crate) fn leave_out_record(
        &mut self,
        fields: &ByteRecord,
        places: Places,
        options: Options,
        first: u128,
        flaw: Option<Flaw>,
    ) {
        if let Some(flaw) = flaw
            && self.first.is_none()
        {
            let spot = Spot::Line(self.line());
            let left_out = FirstLeftOut::of_record(spot, fields, places, options, first, flaw);
            self.first = Some(left_out);
        }
    }

    /// The same of a record of a binary log, its number from 0.
    pub(crate) fn leave_out_piece(&mut self, number: u64, options: Options, flaw: Option<Flaw>) {
        if let Some(flaw) = flaw
            && self.first.is_none()
        {
            self.first = Some(FirstLeftOut::of_piece(number, options, flaw));
        }
    }

    /// The first row that was left out, if one was.
    pub(crate) fn first_left_out(&self) -> Option<FirstLeftOut> {
        self.first
    }

    /// Something is about to go out.
    pub(crate) fn about_to_write(&mut self) {
        self.progress.about_to_write();
    }
}

/// The line, from 1, on which the first record behind so many bytes of a text begins.
fn line_behind(text: &[u8], bytes: u64) -> u64 {
    let mut line: u64 = 1;
    for at in 0..text.len() {
        let byte = text[at];
        if at as u64 >= bytes && byte != b'\n' && byte != b'\r' {
            break;
        }
        line = line.saturating_add(u64::from(byte == b'\n'));
    }
    line
}
