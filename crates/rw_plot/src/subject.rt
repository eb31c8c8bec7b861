// What a picture shows: how its values are counted and named, and what the value of a row is.
ghost use Rattle.std.specs.Prelude.{◌≡◌, ◌*◌, ◌/◌, ◌-◌, ◌<◌, ◌^◌};

use crate::layout::Layout;
use crate::measure::{Caches, Drawing, Measure};
use crate::sample::{Interval, Sample};
use crate::x_axis::XAxis;
use std::fmt;

/// In what a value is counted.
#[derive(Clone, Copy)]
pub(crate) enum Unit {
    /// In millionths of the whole.
    Ratio,
    /// In bytes.
    Bytes,
    /// One by one.
    Count,
    /// In thousandths of one.
    Thousandths,
}

/// What a picture shows: the table that it is drawn of, and what is asked for of that.
#[derive(Clone, Copy)]
pub(crate) struct Subject {
    /// Which table it is.
    pub(crate) layout: Layout,
    /// What is asked for.
    pub(crate) drawing: Drawing,
    /// What stands on the x axis.
    pub(crate) x: XAxis,
}

impl Subject {
    /// In what the values are counted. Requests per second may be fewer than one.
    pub(crate) fn unit(self) -> Unit {
        match self.drawing.measure {
            Measure::HitRatio | Measure::ByteHitRatio => Unit::Ratio,
            Measure::FlashWrites | Measure::BackendBytes => Unit::Bytes,
            Measure::BackendRequests if self.layout.is_over_time() => Unit::Thousandths,
            Measure::BackendRequests => Unit::Count,
        }
    }

    /// What the axis of the values is called.
    pub(crate) fn name(self) -> &'static str {
        match (self.drawing.measure, self.layout.is_over_time()) {
            (Measure::HitRatio, _) => "Hit ratio",
            (Measure::ByteHitRatio, _) => "Byte hit ratio",
            (Measure::FlashWrites, false) => "Bytes written to flash",
            (Measure::FlashWrites, true) => "Bytes written to flash per second",
            (Measure::BackendRequests, false) => "Backend requests",
            (Measure::BackendRequests, true) => "Backend requests per second",
            (Measure::BackendBytes, false) => "Backend bytes",
            (Measure::BackendBytes, true) => "Backend bytes per second",
        }
    }

    /// The value of a row, in its unit: a ratio, or of a sweep's table what was counted, as it stands; over time what was counted
    /// per second, rounded down.
    pub(crate) fn value(self, sample: &Sample) -> u128 {
        let counted = u128::from(self.counted(sample));
        match (self.unit(), sample.interval) {
            (Unit::Bytes, Some(interval)) => rate(counted, self.ticks_a_second(), interval),
            (Unit::Thousandths, Some(interval)) => {
                rate(counted * 1000, self.ticks_a_second(), interval)
            }
            _ => counted,
        }
    }

    /// What a row counts.
    fn counted(self, sample: &Sample) -> u64 {
        let figures = sample.figures;
        match self.drawing.measure {
            Measure::HitRatio => figures.hit_ratio,
            Measure::ByteHitRatio => figures.byte_hit_ratio,
            Measure::FlashWrites => figures.written_bytes,
            Measure::BackendRequests => figures.backend_requests,
            Measure::BackendBytes => sample.backend_bytes.unwrap_or(0),
        }
    }

    /// How many ticks are a second, from 1.
    pub(crate) fn ticks_a_second(self) -> u32 {
        self.drawing.ticks_a_second.max(1)
    }

    /// The caches whose rows alone are drawn, if they are those of one kind.
    fn whose(self) -> Option<Caches> {
        match (self.layout, self.drawing.caches) {
            (Layout::OverTime, caches) => caches,
            (_, caches) => Some(caches.unwrap_or(Caches::All)),
        }
    }
}

/// What caches are called in a picture.
pub(crate) fn caches_name(caches: Caches) -> &'static str {
    match caches {
        Caches::Edges => "edge caches",
        Caches::Origins => "origin caches",
        Caches::All => "all caches",
    }
}

/// What is counted per second where so much was counted in an interval, rounded down.
fn rate(counted: u128, ticks_a_second: u32, interval: Interval) -> u128
    requires { counted < 2 ^ 80 }
    ensures { interval.from < interval.to
        → result ≡ counted * ticks_a_second / (interval.to - interval.from) }
{
    let ticks = interval.to.saturating_sub(interval.from).max(1);
    counted * u128::from(ticks_a_second) / u128::from(ticks)
}

/// The title of a picture.
impl fmt::Display for Subject {
    fn fmt<W: fmt::Write>(&self, f: &mut fmt::Formatter<W>) -> fmt::Result {
        let name = self.name();
        let over = if self.layout.is_over_time() {
            "over time"
        } else {
            "by flash size"
        };
        match self.whose() {
            Some(caches) => {
                let whose = caches_name(caches);
                write!(f, "{name} {over}, {whose}")
            }
            None => write!(f, "{name} {over}"),
        }
    }
}
