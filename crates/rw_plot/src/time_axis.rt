//! The axis of time: from the first tick to the last, linear, with labels in seconds, minutes, hours or days.

use crate::labels::Decimals;
use crate::sample::Interval;
use crate::scale::{Hundredths, share};
use std::fmt;

/// A second, in microseconds.
const SECOND: u128 = 1_000_000;

/// A minute, in microseconds.
const MINUTE: u128 = 60 * SECOND;

/// An hour, in microseconds.
const HOUR: u128 = 60 * MINUTE;

/// A day, in microseconds.
const DAY: u128 = 24 * HOUR;

/// How far apart labels may stand where that is over five seconds and less than a day, in microseconds.
const ROUND_STEPS: [u128; 14] = [
    10 * SECOND,
    15 * SECOND,
    30 * SECOND,
    MINUTE,
    2 * MINUTE,
    5 * MINUTE,
    10 * MINUTE,
    15 * MINUTE,
    30 * MINUTE,
    HOUR,
    2 * HOUR,
    3 * HOUR,
    6 * HOUR,
    12 * HOUR,
];

/// The most labels of the axis.
pub(crate) const MOST_LABELS: u32 = 9;

/// How wide a character of a label is, at most, in hundredths of a pixel.
const CHARACTER: u32 = 7_50;

/// How far apart labels stand at least, in hundredths of a pixel.
const GAP: u32 = 14_00;

/// In what times are labelled.
#[derive(Clone, Copy)]
pub(crate) enum TimeUnit {
    /// In seconds.
    Seconds,
    /// In minutes.
    Minutes,
    /// In hours.
    Hours,
    /// In days.
    Days,
}

impl TimeUnit {
    /// The unit for a span of so many microseconds: up to three minutes seconds, up to three hours minutes, up to three days
    /// hours, else days.
    fn for_span(span: u128) -> TimeUnit {
        if span <= 3 * MINUTE {
            TimeUnit::Seconds
        } else if span <= 3 * HOUR {
            TimeUnit::Minutes
        } else if span <= 3 * DAY {
            TimeUnit::Hours
        } else {
            TimeUnit::Days
        }
    }

    /// How many microseconds it has.
    fn microseconds(self) -> u128 {
        match self {
            TimeUnit::Seconds => SECOND,
            TimeUnit::Minutes => MINUTE,
            TimeUnit::Hours => HOUR,
            TimeUnit::Days => DAY,
        }
    }
}

/// What the axis is called.
impl fmt::Display for TimeUnit {
    fn fmt<W: fmt::Write>(&self, f: &mut fmt::Formatter<W>) -> fmt::Result {
        f.write_str(match self {
            TimeUnit::Seconds => "Time (seconds)",
            TimeUnit::Minutes => "Time (minutes)",
            TimeUnit::Hours => "Time (hours)",
            TimeUnit::Days => "Time (days)",
        })
    }
}

/// The axis of time. A label stands for a whole number of microseconds.
#[derive(Clone, Copy)]
pub(crate) struct TimeAxis {
    /// The tick at the left end.
    low: u128,
    /// The tick at the right end.
    high: u128,
    /// How many ticks a second has, from 1.
    ticks_a_second: u128,
    /// In what times are labelled.
    pub(crate) unit: TimeUnit,
    /// How far apart labels stand, in microseconds, from 1.
    step: u128,
}

impl TimeAxis {
    /// The axis from one tick to another, of this length.
    pub(crate) fn new(low: u64, high: u64, ticks_a_second: u32, length: Hundredths) -> TimeAxis {
        let low = u128::from(low);
        let high = u128::from(high);
        let ticks_a_second = u128::from(ticks_a_second.max(1));
        let span = microseconds(high.saturating_sub(low), ticks_a_second);
        let unit = TimeUnit::for_span(span);
        let last = microseconds(high, ticks_a_second);
        TimeAxis {
            low,
            high,
            ticks_a_second,
            unit,
            step: Room {
                span,
                last,
                unit,
                length,
            }
            .step(),
        }
    }

    /// How far to the right the middle of an interval stands on an axis of this length.
    pub(crate) fn place(self, interval: Interval, length: Hundredths) -> Hundredths {
        let twice = u128::from(interval.from).saturating_add(u128::from(interval.to));
        share(
            twice.saturating_sub(self.low.saturating_mul(2)),
            self.span().saturating_mul(2),
            length,
        )
    }

    /// How many ticks the axis has.
    fn span(self) -> u128 {
        self.high.saturating_sub(self.low)
    }

    /// The time of a label, counted from 0, in microseconds; `None` past the end of the axis.
    pub(crate) fn label(self, place: u32) -> Option<u128> {
        // A time in microseconds times the ticks of a second is as ticks times a million.
        let width = self.step.saturating_mul(self.ticks_a_second);
        let first = self
            .low
            .saturating_mul(SECOND)
            .checked_add(width.saturating_sub(1))?
            .checked_div(width)?;
        let time = first
            .saturating_add(u128::from(place))
            .saturating_mul(self.step);
        let is_on = time.saturating_mul(self.ticks_a_second) <= self.high.saturating_mul(SECOND);
        if is_on { Some(time) } else { None }
    }

    /// How far to the right the time of a label stands on an axis of this length.
    pub(crate) fn place_of_label(self, time: u128, length: Hundredths) -> Hundredths {
        let from = self.low.saturating_mul(SECOND);
        share(
            time.saturating_mul(self.ticks_a_second)
                .saturating_sub(from),
            self.span().saturating_mul(SECOND),
            length,
        )
    }

    /// The text of the label of a time.
    pub(crate) fn text(self, time: u128) -> Decimals {
        Decimals::of(time, self.unit.microseconds())
    }
}

/// How many microseconds so many ticks are, rounded down.
fn microseconds(ticks: u128, ticks_a_second: u128) -> u128 {
    ticks
        .saturating_mul(SECOND)
        .checked_div(ticks_a_second)
        .unwrap_or(0)
}

/// The room that the labels of an axis have.
#[derive(Clone, Copy)]
struct Room {
    /// How long the axis is, in microseconds.
    span: u128,
    /// The time at its right end, in microseconds.
    last: u128,
    /// In what times are labelled.
    unit: TimeUnit,
    /// The length of the axis in the picture.
    length: Hundredths,
}

impl Room {
    /// The least step from one label to the next at which all have room, in microseconds.
    fn step(self) -> u128 {
        if let Some(step) = self.decimal_step(1, 7) {
            return step;
        }
        for step in ROUND_STEPS {
            if self.holds(step) {
                return step;
            }
        }
        self.decimal_step(DAY, 24).unwrap_or(self.span.max(1))
    }

    /// The least of 1, 2, 5, 10, 20, 50 .. times `least`, up to so many powers of ten, at which all labels have room.
    fn decimal_step(self, least: u128, powers: u32) -> Option<u128> {
        let mut power = least;
        for _ in 0..powers {
            for factor in [1u128, 2, 5] {
                let step = power.saturating_mul(factor);
                if self.holds(step) {
                    return Some(step);
                }
            }
            power = power.saturating_mul(10);
        }
        None
    }

    /// Whether labels that stand so far apart have room.
    fn holds(self, step: u128) -> bool {
        let size = self.unit.microseconds();
        let whole = Decimals::of(self.last, size).whole_digits();
        let behind = Decimals::of(step, size).characters_behind();
        let wide = whole.saturating_add(behind).saturating_mul(CHARACTER);
        let most = self.length.checked_div(wide.saturating_add(GAP));
        let most = most.unwrap_or(1).clamp(2, MOST_LABELS);
        self.span <= step.saturating_mul(u128::from(most.saturating_sub(1)))
    }
}
