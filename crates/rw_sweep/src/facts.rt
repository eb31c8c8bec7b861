// What a table says of the trace itself.
ghost use Rattle.std.specs.Prelude.{◌≡◌, ◌<◌, ◌≤◌, ◌+◌, ◌-◌, ◌^◌, ◌++◌, ◌∷◌, [], List, length};
ghost use Rattle.rw_trace.specs.declared.Row.{Row};
ghost use Rattle.rw_sweep.specs.Facts.{digest_modulus, digest_with, facts_of, kind_number, absorbed, span_from, span_of};

use rw_trace::{Kind, Row};

/// The greatest prime below 2^32.
const MODULUS: u64 = 4_294_967_291;

/// By what a digest is multiplied before a number is added to it.
const FACTOR: u64 = 1_000_003;

/// How many rows a trace has, when these are, and a number that tells traces apart.
#[derive(Clone, Copy)]
pub(crate) struct Facts {
    /// How many rows there are.
    pub(crate) rows: u64,
    /// The earliest time of a row, in ticks; of no row 2^64 - 1.
    pub(crate) first: u64,
    /// The latest time of a row, in ticks; of no row 0.
    pub(crate) last: u64,
    /// The polynomial hash of the rows, in their order: below 2^32, and no cryptographic digest.
    pub(crate) digest: u64,
}

impl Facts {
    /// The facts of no row.
    pub(crate) fn none() -> Facts
        ensures { result ≡ facts_of [] }
    {
        Facts {
            rows: 0,
            first: u64::MAX,
            last: 0,
            digest: 0,
        }
    }

    /// The facts of some rows, from those of the rows before them.
    pub(crate) fn with_rows(self, rows: &[Row]) -> Facts
        requires few { self.rows + length rows.now ≤ 2 ^ 64 - 1 }
        requires digest { self.digest < digest_modulus }
        ensures { (before : List Row) → self ≡ facts_of before
            → result ≡ facts_of (before ++ rows.now) }
    {
        let mut facts = self;
        for row in rows {
            facts = facts.with_row(row);
        }
        facts
    }

    /// The facts with one row more.
    fn with_row(self, row: &Row) -> Facts
        requires few { self.rows < 2 ^ 64 - 1 }
        requires digest { self.digest < digest_modulus }
        ensures digest { result.digest < digest_modulus }
        ensures rows { result.rows ≡ self.rows + 1 }
        ensures facts { (before : List Row) → self ≡ facts_of before
            → result ≡ facts_of (before ++ row.now ∷ []) }
    {
        Facts {
            rows: self.rows + 1,
            first: self.first.min(row.time),
            last: self.last.max(row.time),
            digest: digest_with(self.digest, row),
        }
    }

    /// The ticks from the earliest row to the latest; 0 where there is no row.
    pub(crate) fn span(self) -> u64
        ensures { result ≡ span_of self }
    {
        self.last.saturating_sub(self.first)
    }

    /// The ticks from the earliest row, or from `start` where that is later, to the latest row; 0 where all rows are before `start`.
    pub(crate) fn span_from(self, start: u64) -> u64
        ensures { result ≡ span_from self start }
    {
        self.last.saturating_sub(self.first.max(start))
    }
}

/// The facts of a trace.
pub(crate) fn facts_of(rows: &[Row]) -> Facts
    ensures { result ≡ facts_of rows.now }
{
    Facts::none().with_rows(rows)
}

/// The digest of some rows and one more, from that of those.
fn digest_with(digest: u64, row: &Row) -> u64
    requires { digest < digest_modulus }
    ensures within { result < digest_modulus }
    ensures digest { result ≡ digest_with digest row.now }
{
    let digest = absorbed(digest, row.time);
    let digest = absorbed(digest, u64::from(row.edge));
    let digest = absorbed(digest, row.object);
    let digest = absorbed(digest, row.size);
    absorbed(digest, kind_number(row.kind))
}

/// A digest with one number more.
fn absorbed(digest: u64, number: u64) -> u64
    requires { digest < digest_modulus }
    ensures within { result < digest_modulus }
    ensures absorbed { result ≡ absorbed digest number }
{
    (digest * FACTOR + number % MODULUS) % MODULUS
}

/// The number of a kind in a digest.
fn kind_number(kind: Kind) -> u64
    ensures { result ≡ kind_number kind }
{
    match kind {
        Kind::Get => 0,
        Kind::Purge => 1,
    }
}
