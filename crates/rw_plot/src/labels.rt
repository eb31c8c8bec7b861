//! Numbers as they are written in the picture.

use crate::scale::Hundredths;
use crate::subject::Unit;
use std::fmt;

/// A length in pixels, with two decimals.
#[derive(Clone, Copy)]
pub(crate) struct Pixels(pub(crate) Hundredths);

impl fmt::Display for Pixels {
    fn fmt<W: fmt::Write>(&self, f: &mut fmt::Formatter<W>) -> fmt::Result {
        let whole = self.0 / 100;
        let rest = self.0 % 100;
        write!(f, "{whole}.{rest:02}")
    }
}

/// The units of a number of bytes, each 1024 of the one before.
const BYTE_UNITS: [&str; 8] = ["B", "KiB", "MiB", "GiB", "TiB", "PiB", "EiB", "ZiB"];

/// A number of bytes in the greatest unit of which it is a whole number, as `64 KiB`.
#[derive(Clone, Copy)]
pub(crate) struct Size(pub(crate) u128);

impl Size {
    /// The count, and its unit.
    fn parts(self) -> (u128, &'static str) {
        let mut count = self.0;
        let mut unit = "B";
        for next in &BYTE_UNITS {
            unit = next;
            if count == 0 || count % 1024 != 0 {
                break;
            }
            count /= 1024;
        }
        (count, unit)
    }
}

impl fmt::Display for Size {
    fn fmt<W: fmt::Write>(&self, f: &mut fmt::Formatter<W>) -> fmt::Result {
        let (count, unit) = self.parts();
        write!(f, "{count} {unit}")
    }
}

/// A number with decimals, of which those behind the last that is not 0 are left out.
#[derive(Clone, Copy)]
pub(crate) struct Decimals {
    /// The part before the point.
    whole: u128,
    /// The decimals as a number, below a million.
    millionths: u128,
}

impl Decimals {
    /// How often `unit` is in `value`, with six decimals, rounded down; 0 where `unit` is.
    pub(crate) fn of(value: u128, unit: u128) -> Decimals {
        let whole = value.checked_div(unit).unwrap_or(0);
        let rest = value.checked_rem(unit).unwrap_or(0);
        let millionths = rest.saturating_mul(1_000_000).checked_div(unit);
        Decimals {
            whole,
            millionths: millionths.unwrap_or(0),
        }
    }

    /// How many digits stand before the point.
    pub(crate) fn whole_digits(self) -> u32 {
        self.whole.checked_ilog10().unwrap_or(0).saturating_add(1)
    }

    /// How many characters stand behind those digits: the point and the decimals, if there are any.
    pub(crate) fn characters_behind(self) -> u32 {
        if self.millionths == 0 {
            return 0;
        }
        let (_, digits) = self.rest();
        u32::try_from(digits).unwrap_or(6).saturating_add(1)
    }

    /// The decimals up to the last that is not 0 as a number, and how many they are.
    fn rest(self) -> (u128, usize) {
        let mut rest = self.millionths;
        let mut digits: usize = 6;
        for _ in 0..6 {
            if rest % 10 != 0 {
                break;
            }
            rest /= 10;
            digits = digits.saturating_sub(1);
        }
        (rest, digits)
    }
}

impl fmt::Display for Decimals {
    fn fmt<W: fmt::Write>(&self, f: &mut fmt::Formatter<W>) -> fmt::Result {
        let whole = self.whole;
        if self.millionths == 0 {
            return whole.fmt(f);
        }
        let (rest, digits) = self.rest();
        write!(f, "{whole}.{rest:0digits$}")
    }
}

/// The units of a count, each a thousand of the one before.
const COUNT_UNITS: [&str; 7] = ["", " k", " M", " G", " T", " P", " E"];

/// A count in the greatest unit that is not over it, as `1.5 M`, with at most six decimals.
#[derive(Clone, Copy)]
struct Count(u128);

impl Count {
    /// The count in its unit, and the name of that.
    fn parts(self) -> (Decimals, &'static str) {
        let count = self.0;
        let mut size: u128 = 1;
        let mut name = "";
        for next in &COUNT_UNITS {
            name = next;
            if count / 1000 < size {
                break;
            }
            size = size.saturating_mul(1000);
        }
        (Decimals::of(count, size), name)
    }
}

impl fmt::Display for Count {
    fn fmt<W: fmt::Write>(&self, f: &mut fmt::Formatter<W>) -> fmt::Result {
        let (decimals, name) = self.parts();
        write!(f, "{decimals}{name}")
    }
}

/// The value of a tick, in as few characters as tell it.
#[derive(Clone, Copy)]
pub(crate) struct TickValue {
    /// In what it is counted.
    pub(crate) unit: Unit,
    /// The value.
    pub(crate) value: u128,
}

impl fmt::Display for TickValue {
    fn fmt<W: fmt::Write>(&self, f: &mut fmt::Formatter<W>) -> fmt::Result {
        let value = self.value;
        if value == 0 {
            return f.write_str("0");
        }
        match self.unit {
            Unit::Ratio => Decimals::of(value, 1_000_000).fmt(f),
            Unit::Bytes => Size(value).fmt(f),
            Unit::Count => Count(value).fmt(f),
            Unit::Thousandths if value < 1_000_000 => Decimals::of(value, 1000).fmt(f),
            Unit::Thousandths => Count(value / 1000).fmt(f),
        }
    }
}

/// The value of a point, to its last digit.
#[derive(Clone, Copy)]
pub(crate) struct PointValue {
    /// In what it is counted.
    pub(crate) unit: Unit,
    /// The value.
    pub(crate) value: u128,
}

impl fmt::Display for PointValue {
    fn fmt<W: fmt::Write>(&self, f: &mut fmt::Formatter<W>) -> fmt::Result {
        let value = self.value;
        match self.unit {
            Unit::Ratio => {
                let whole = value / 1_000_000;
                let millionths = value % 1_000_000;
                write!(f, "{whole}.{millionths:06}")
            }
            Unit::Bytes => write!(f, "{value} bytes"),
            Unit::Count => value.fmt(f),
            Unit::Thousandths => Decimals::of(value, 1000).fmt(f),
        }
    }
}
