//! How a log is read.

ghost use Rattle.std.specs.Prelude.{◌≡◌, ◌≤◌, ◌↔◌, IfSome, IsSome, false};
ghost use Rattle.rw_import.specs.Limits.{most_log_edges, most_unit_ticks, AreOptions};

/// Where a row of a log is asked for, if the log does not say it.
#[derive(Clone, Copy)]
pub enum Dealing {
    /// The kept rows go to the edges in turn.
    ByRow,
    /// All rows of an object go to one edge, by the object's number with its bits mixed.
    ByObject,
}

/// How a log becomes a trace.
#[derive(Clone, Copy)]
pub struct Options {
    /// The ticks of a unit of the log's time: 1 to 10^9.
    pub ticks: u64,
    /// The number of edges, where the log names none: 1 to 256.
    pub edges: u32,
    /// To which edge a row goes, where the log names none.
    pub dealing: Dealing,
    /// Whether a row that would be left out is a fault instead.
    pub strict: bool,
    /// The most rows of a hundred that may be left out: 0 to 100.
    pub max_left_out: u64,
    /// Whether rows of one time are spread within its unit.
    pub spread: bool,

    ghost some_ticks: { 1 ≤ ticks },
    ghost few_ticks: { ticks ≤ most_unit_ticks },
    ghost some_edges: { 1 ≤ edges },
    ghost few_edges: { edges ≤ most_log_edges },
    ghost few_left_out: { max_left_out ≤ 100 },
}

/// How a log becomes a trace that is written as the log is read.
#[derive(Clone, Copy)]
pub struct Streaming {
    /// How its rows become a trace's.
    pub options: Options,
    /// The log time that is tick 0, in billionths of the log's unit. `None`: that of the first row that says one.
    pub epoch: Option<u128>,
}

/// The ticks of a unit of time, if none are asked for.
pub const DEFAULT_TICKS: u64 = 1000;

/// The most ticks of a unit of time.
pub const MAX_TICKS: u64 = 1_000_000_000;

/// The most edges.
pub const MAX_EDGES: u32 = 256;

/// The most rows of a hundred that may be left out, if nothing is said.
pub const DEFAULT_MAX_LEFT_OUT: u64 = 1;

impl Options {
    /// Options in their ranges: `ticks` from 1 to [`MAX_TICKS`], `edges` from 1 to [`MAX_EDGES`]. `None` exactly where
    /// one of them is not. At most [`DEFAULT_MAX_LEFT_OUT`] of a hundred rows may be left out, and no row is spread.
    pub fn new(ticks: u64, edges: u32, dealing: Dealing, strict: bool) -> Option<Options>
        ensures in_range { IsSome result ↔ AreOptions ticks edges }
        ensures ticks { IfSome result (λ o. o.ticks ≡ ticks) }
        ensures edges { IfSome result (λ o. o.edges ≡ edges) }
        ensures dealing { IfSome result (λ o. o.dealing ≡ dealing) }
        ensures strict { IfSome result (λ o. o.strict ≡ strict) }
        ensures most { IfSome result (λ o. o.max_left_out ≡ 1) }
        ensures spread { IfSome result (λ o. o.spread ≡ false) }
    {
        if ticks == 0 || ticks > MAX_TICKS || edges == 0 || edges > MAX_EDGES {
            return None;
        }
        Some(Options {
            ticks,
            edges,
            dealing,
            strict,
            max_left_out: DEFAULT_MAX_LEFT_OUT,
            spread: false,
        })
    }

    /// The same, where so many rows of a hundred may be left out. `None` exactly where these are more than 100.
    pub fn with_max_left_out(self, most: u64) -> Option<Options>
        ensures in_range { IsSome result ↔ (most ≤ 100) }
        ensures ticks { IfSome result (λ o. o.ticks ≡ self.ticks) }
        ensures edges { IfSome result (λ o. o.edges ≡ self.edges) }
        ensures dealing { IfSome result (λ o. o.dealing ≡ self.dealing) }
        ensures strict { IfSome result (λ o. o.strict ≡ self.strict) }
        ensures most { IfSome result (λ o. o.max_left_out ≡ most) }
        ensures spread { IfSome result (λ o. o.spread ≡ self.spread) }
    {
        if most > 100 {
            return None;
        }
        let Options {
            ticks,
            edges,
            dealing,
            strict,
            spread,
            ..
        } = self;
        Some(Options {
            ticks,
            edges,
            dealing,
            strict,
            max_left_out: most,
            spread,
        })
    }

    /// The same, where rows of one time are spread within its unit, or are not.
    pub fn with_spread(mut self, spread: bool) -> Options
        ensures { result ≡ record self { spread = spread } }
    {
        self.spread = spread;
        self
    }
}

/// Each of the constants is the limit that stands in `specs/Limits.antt`, which the definitions cite. The call itself does
/// nothing.
pub fn every_limit()
    ensures ticks { MAX_TICKS ≡ most_unit_ticks }
    ensures edges { MAX_EDGES ≡ most_log_edges }
{}
