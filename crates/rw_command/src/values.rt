// The values of options: numbers, sizes in bytes, times in ticks, and lists of them.
ghost use Rattle.std.specs.Prelude.{◌≡◌, ◌≢◌, IfErr, IfOk, IfSome, None, codes};
ghost use Rattle.rw_command.specs.Said.{IsSaidNumber, SaysNumber, number_said};
ghost use Rattle.rw_command.specs.Status.{status_of};
ghost use Rattle.rw_command.specs.Written.{HasNoValue};

use crate::fault::Fault;
use clap::ArgMatches;
use std::alloc::Global;
use std::fmt::{self, Display, Formatter};

/// A kind of number that options take.
#[derive(Clone, Copy)]
pub(crate) struct Quantity {
    /// What is counted.
    pub(crate) unit: Unit,
    /// The greatest one; the least is 1.
    pub(crate) most: u64,
}

/// What a number counts.
#[derive(Clone, Copy)]
pub(crate) enum Unit {
    /// Things.
    Thing,
    /// Bytes: K, M, G or T may follow, or KiB, MiB, GiB or TiB. Each is a power of 1024.
    Byte,
    /// Ticks. Where it is known how many a second has, ms, s, m, h or d may follow.
    Tick(Option<u64>),
}

impl Quantity {
    /// A number of things, from 1 to `most`.
    pub(crate) fn things(most: u64) -> Quantity {
        Quantity {
            unit: Unit::Thing,
            most,
        }
    }

    /// A number of bytes, from 1 to `most`.
    pub(crate) fn bytes(most: u64) -> Quantity {
        Quantity {
            unit: Unit::Byte,
            most,
        }
    }

    /// A number of ticks, from 1 to `most`, where a second has `a_second` ticks, if that is known.
    pub(crate) fn ticks(most: u64, a_second: Option<u64>) -> Quantity {
        Quantity {
            unit: Unit::Tick(a_second),
            most,
        }
    }

    /// The number that a text says, if it is in range. Takes no memory.
    pub(crate) fn read(self, text: &str) -> Option<u64>
        ensures digits { SaysNumber 64 text.now → IfSome result (λ n. n ≡ number_said text.now) }
    {
        // For `parse` a plus is a sign, and no fault.
        if text.starts_with('+') {
            return None;
        }
        let number = match text.parse() {
            Ok(number) => number,
            Err(_) => self.read_with_unit(text)?,
        };
        (1 <= number && number <= self.most).then_some(number)
    }

    /// The number that digits and a unit say.
    fn read_with_unit(self, text: &str) -> Option<u64> {
        let (digits, unit) = parts(text);
        let number = digits.parse().ok()?;
        match self.unit {
            Unit::Thing => None,
            Unit::Byte => bytes(number, unit),
            Unit::Tick(a_second) => ticks(number, unit, a_second?),
        }
    }
}

impl Display for Quantity {
    fn fmt<W: fmt::Write>(&self, formatter: &mut Formatter<W>) -> fmt::Result {
        let most = self.most;
        match self.unit {
            Unit::Thing => write!(formatter, "a number from 1 to {most}"),
            Unit::Byte => write!(
                formatter,
                "1 to {most} bytes, with K, M, G or T for powers of 1024"
            ),
            Unit::Tick(Some(_)) => write!(
                formatter,
                "a whole number of ticks from 1 to {most}, or a time with ms, s, m, h or d"
            ),
            Unit::Tick(None) => write!(
                formatter,
                "1 to {most} ticks; with --ticks-a-second, also a time with ms, s, m, h or d"
            ),
        }
    }
}

/// The digits that a text begins with, and what follows them.
fn parts(text: &str) -> (&str, &str) {
    let end = text
        .find(|c: char| !c.is_ascii_digit())
        .unwrap_or(text.len());
    text.split_at(end)
}

/// So many of a unit of sizes, in bytes.
fn bytes(number: u64, unit: &str) -> Option<u64> {
    let of_unit = match unit {
        "K" | "KiB" => 1 << 10,
        "M" | "MiB" => 1 << 20,
        "G" | "GiB" => 1 << 30,
        "T" | "TiB" => 1 << 40,
        _ => return None,
    };
    number.checked_mul(of_unit)
}

/// So many of a unit of time, in ticks, if they are a whole number.
fn ticks(number: u64, unit: &str, a_second: u64) -> Option<u64> {
    let milliseconds = match unit {
        "ms" => 1,
        "s" => 1_000,
        "m" => 60_000,
        "h" => 3_600_000,
        "d" => 86_400_000,
        _ => return None,
    };
    let ticks = number.checked_mul(milliseconds)?.checked_mul(a_second)?;
    (ticks % 1000 == 0).then_some(ticks / 1000)
}

/// The number that an option says.
///
/// # Errors
///
/// [`Fault::CommandLine`] where its value is none, [`Fault::Plan`] where it has none, and `Memory`.
pub(crate) fn number(
    alloc: Global,
    options: &ArgMatches<'_>,
    name: &str,
    quantity: Quantity,
) -> Result<u64, Fault>
    ensures said { IfOk result (IsSaidNumber options.now name.now) }
    ensures unwritten { IfErr result (λ e. status_of e ≢ 8) }
{
    number_if_given(alloc, options, name, quantity)?.ok_or(Fault::Plan)
}

/// The number that an option says, if it has a value.
///
/// # Errors
///
/// [`Fault::CommandLine`] where its value is none, and `Memory`.
pub(crate) fn number_if_given(
    alloc: Global,
    options: &ArgMatches<'_>,
    name: &str,
    quantity: Quantity,
) -> Result<Option<u64>, Fault>
    ensures none { HasNoValue options.now (name.now) → IfOk result (λ n. n ≡ None) }
    ensures said { IfOk result (λ r. IfSome r (IsSaidNumber options.now name.now)) }
    ensures unwritten { IfErr result (λ e. status_of e ≢ 8) }
{
    let Some(text) = options.get_str(name) else {
        return Ok(None);
    };
    match quantity.read(text) {
        Some(number) => Ok(Some(number)),
        None => Err(invalid(alloc, text, name, quantity)),
    }
}

/// The numbers that an option lists, with commas between them. An item is a number, or `A..BxF`: A, A * F, A * F * F and so on, as far
/// as they are not above B, where A is not above B and F is not 1.
///
/// # Errors
///
/// [`Fault::CommandLine`] where an item is neither, [`Fault::Plan`] where the option has no value, and `Memory`.
pub(crate) fn numbers(
    alloc: Global,
    options: &ArgMatches<'_>,
    name: &str,
    quantity: Quantity,
) -> Result<Vec<u64>, Fault>
    ensures unwritten { IfErr result (λ e. status_of e ≢ 8) }
{
    let list = options.get_str(name).ok_or(Fault::Plan)?;
    let mut numbers = Vec::new(alloc);
    for item in list.split(',') {
        let is_read = add_item(&mut numbers, item, quantity).ok_or(Fault::Memory)?;
        if !is_read {
            return Err(invalid_item(alloc, item, name, quantity));
        }
    }
    Ok(numbers)
}

/// The two ends of the range that an option gives as `A..B`, where A is not above B; a number alone is both.
///
/// # Errors
///
/// [`Fault::CommandLine`] where its value is neither, [`Fault::Plan`] where it has none, and `Memory`.
pub(crate) fn ends(
    alloc: Global,
    options: &ArgMatches<'_>,
    name: &str,
    quantity: Quantity,
) -> Result<(u64, u64), Fault>
    ensures unwritten { IfErr result (λ e. status_of e ≢ 8) }
{
    let text = options.get_str(name).ok_or(Fault::Plan)?;
    if let Some(ends) = ends_of(text, quantity) {
        return Ok(ends);
    }
    let expected = format!(in alloc; "{quantity}, or a range of them such as 16..1024")?;
    Err(invalid(alloc, text, name, expected.as_str()))
}

/// The two ends of a range `A..B`, or a number twice.
fn ends_of(text: &str, quantity: Quantity) -> Option<(u64, u64)> {
    let (first, last) = text.split_once("..").unwrap_or((text, text));
    let (first, last) = (quantity.read(first)?, quantity.read(last)?);
    (first <= last).then_some((first, last))
}

/// The part of one that a text writes with at most six decimals, in millionths, as `0.8` or `1`.
pub(crate) fn millionths(text: &str) -> Option<u64> {
    let (ones, decimals) = text.split_once('.').unwrap_or((text, "0"));
    if decimals.is_empty() || decimals.len() > 6 {
        return None;
    }
    let mut unit = 1_000_000u64;
    let mut millionths = 0u64;
    for digit in decimals.bytes() {
        if !digit.is_ascii_digit() {
            return None;
        }
        unit /= 10;
        millionths = millionths.checked_add(u64::from(digit - b'0').checked_mul(unit)?)?;
    }
    match ones {
        "0" => Some(millionths),
        "1" if millionths == 0 => Some(1_000_000),
        _ => None,
    }
}

/// Appends the numbers of an item, and answers whether it is one; `None` where memory was refused.
fn add_item(numbers: &mut Vec<u64>, item: &str, quantity: Quantity) -> Option<bool> {
    match item.split_once("..") {
        Some((first, rest)) => match range(first, rest, quantity) {
            Some((first, last, factor)) => add_range(numbers, first, last, factor),
            None => Some(false),
        },
        None => match quantity.read(item) {
            Some(number) => {
                numbers.push(number).ok()?;
                Some(true)
            }
            None => Some(false),
        },
    }
}

/// The first number, the last one and the factor of a range `A..BxF`, of which this is `A` and the rest, if it is one.
fn range(first: &str, rest: &str, quantity: Quantity) -> Option<(u64, u64, u64)> {
    let (last, factor) = rest.split_once('x')?;
    let (first, last) = (quantity.read(first)?, quantity.read(last)?);
    let factor: u64 = factor.parse().ok()?;
    (factor > 1 && first <= last).then_some((first, last, factor))
}

/// Appends the numbers of a range; `None` where memory was refused.
fn add_range(numbers: &mut Vec<u64>, first: u64, last: u64, factor: u64) -> Option<bool> {
    let mut next = Some(first);
    // A number of 64 bits doubles less often than that.
    for _doubling in 0..64 {
        let Some(value) = next.filter(|value| *value <= last) else {
            return Some(true);
        };
        numbers.push(value).ok()?;
        next = value.checked_mul(factor);
    }
    Some(true)
}

/// The fault of an option that does not take this value, in place of which it takes what `expected` says.
pub(crate) fn invalid<D: Display + Drop>(
    alloc: Global,
    value: &str,
    name: &str,
    expected: D,
) -> Fault
    ensures { status_of result ≢ 8 }
{
    match format!(in alloc; "error: invalid value '{value}' for '--{name}': {expected}") {
        Ok(text) => Fault::CommandLine(text),
        Err(_) => Fault::Memory,
    }
}

/// The fault of an option whose list has this item.
fn invalid_item(alloc: Global, item: &str, name: &str, quantity: Quantity) -> Fault
    ensures { status_of result ≢ 8 }
{
    match format!(in alloc; "{quantity}, or a range such as 16..1024x2") {
        Ok(expected) => invalid(alloc, item, name, expected.as_str()),
        Err(_) => Fault::Memory,
    }
}
