//! Where values stand on the axes.

use crate::subject::Unit;

/// Hundredths of a pixel.
pub(crate) type Hundredths = u32;

/// Parts of a doubling: a logarithm to base 2 with 16 binary digits behind the point.
const DOUBLING: u128 = 1 << 16;

/// The part of `span` that `part` is of `whole`, at most `span`; all of it where `whole` is 0.
pub(crate) fn share(part: u128, whole: u128, span: u32) -> u32 {
    let scaled = part.saturating_mul(u128::from(span)).checked_div(whole);
    match scaled {
        Some(scaled) => u32::try_from(scaled).map_or(span, |n| n.min(span)),
        None => span,
    }
}

/// The logarithm of a number to base 2, in parts of a doubling, rounded down; 0 for 0.
pub(crate) fn logarithm(n: u64) -> u128 {
    let whole = n.checked_ilog2().unwrap_or(0);
    // The highest bit of the mantissa is bit 63: it stands for a number from 1 to below 2.
    let mut mantissa = u128::from(n.checked_shl(n.leading_zeros()).unwrap_or(0));
    let mut logarithm = u128::from(whole);
    for _ in 0..16 {
        let square = mantissa.saturating_mul(mantissa) / (1 << 63);
        let is_over = square / (1 << 64) != 0;
        logarithm = logarithm
            .saturating_mul(2)
            .saturating_add(u128::from(is_over));
        mantissa = if is_over { square / 2 } else { square };
    }
    logarithm
}

/// The axis of the flash, from one power of two to another.
#[derive(Clone, Copy)]
pub(crate) struct FlashAxis {
    /// The power at the left end.
    pub(crate) low: u32,
    /// The power at the right end, over `low`.
    pub(crate) high: u32,
}

impl FlashAxis {
    /// The axis that holds sizes from `least` to `most`.
    pub(crate) fn new(least: u64, most: u64) -> FlashAxis {
        let low = least.checked_ilog2().unwrap_or(0);
        let down = most.checked_ilog2().unwrap_or(0);
        let high = if most.is_power_of_two() {
            down
        } else {
            down.saturating_add(1)
        };
        if low < high {
            FlashAxis { low, high }
        } else {
            FlashAxis {
                low: low.saturating_sub(1),
                high: low.saturating_add(1),
            }
        }
    }

    /// How far to the right a size stands on an axis of this length.
    pub(crate) fn place(self, size: u64, length: Hundredths) -> Hundredths {
        let from = u128::from(self.low).saturating_mul(DOUBLING);
        let to = u128::from(self.high).saturating_mul(DOUBLING);
        share(
            logarithm(size).saturating_sub(from),
            to.saturating_sub(from),
            length,
        )
    }

    /// How far to the right a power of two stands.
    pub(crate) fn place_of_power(self, power: u32, length: Hundredths) -> Hundredths {
        share(
            u128::from(power.saturating_sub(self.low)),
            u128::from(self.high.saturating_sub(self.low)),
            length,
        )
    }

    /// Every how many powers a tick stands, so that at most nine do.
    pub(crate) fn step(self) -> u32 {
        self.high.saturating_sub(self.low).div_ceil(8).max(1)
    }
}

/// The axis of the values, from 0.
#[derive(Clone, Copy)]
pub(crate) struct ValueAxis {
    /// The value from one tick to the next, from 1.
    pub(crate) step: u128,
    /// How many ticks stand over 0.
    pub(crate) ticks: u32,
}

/// The most ticks of an axis of values.
const MOST_TICKS: u128 = 10;

/// The greatest power of 1024 of which `most` has ten, or 1.
fn byte_unit(most: u128) -> u128 {
    let mut unit: u128 = 1;
    for _ in 0..6 {
        let next = unit.saturating_mul(1024);
        if next.saturating_mul(10) > most {
            return unit;
        }
        unit = next;
    }
    unit
}

/// The least of 1, 2, 5, 10, 20, 50 .. times `unit` of which `MOST_TICKS` reach `most`.
fn step_to(most: u128, unit: u128) -> u128 {
    let mut power = unit;
    for _ in 0..32 {
        for factor in [1u128, 2, 5] {
            let step = power.saturating_mul(factor);
            if step.saturating_mul(MOST_TICKS) >= most {
                return step;
            }
        }
        power = power.saturating_mul(10);
    }
    power
}

impl ValueAxis {
    /// The axis that holds values to `most`.
    pub(crate) fn new(unit: Unit, most: u128) -> ValueAxis {
        let most = match (most, unit) {
            (0, Unit::Ratio) => 1_000_000,
            (0, Unit::Bytes | Unit::Count) => 10,
            (0, Unit::Thousandths) => 10_000,
            (most, _) => most,
        };
        let least = match unit {
            Unit::Ratio | Unit::Count | Unit::Thousandths => 1,
            Unit::Bytes => byte_unit(most),
        };
        let step = step_to(most, least);
        let ticks = most.checked_div(step).unwrap_or(0);
        let is_past = most.checked_rem(step).unwrap_or(0) != 0;
        let ticks = ticks.saturating_add(u128::from(is_past)).min(MOST_TICKS);
        ValueAxis {
            step,
            ticks: ticks as u32,
        }
    }

    /// The value of a tick.
    pub(crate) fn value(self, tick: u32) -> u128 {
        self.step.saturating_mul(u128::from(tick))
    }

    /// How far up a value stands on an axis of this length.
    pub(crate) fn place(self, value: u128, length: Hundredths) -> Hundredths {
        share(value, self.value(self.ticks), length)
    }
}
