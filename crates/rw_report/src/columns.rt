// The columns that tables have in common.
ghost use Rattle.std.specs.Prelude.{◌≡◌, ◌+◌, ◌*◌, ◌/◌, ◌%◌, ◌<◌, ◌++◌, codes, decimal, OnOk};
ghost use Rattle.rw_report.specs.Columns.{caches_name, columns_of, counts_of, measured_columns, millionths, ratio_text, six_digits, with_decimals};
ghost use Rattle.rw_report.specs.Report.{totals};

use itoa::Buffer;
use rw_photo::{Counters, NoMemory};

/// The caches of a line of a table.
#[derive(Clone, Copy)]
pub enum Caches {
    /// The edges.
    Edges,
    /// The origins.
    Origins,
    /// All caches of the configuration.
    All,
}

/// What a line of a table has of some caches beside what they have counted together.
#[derive(Clone, Copy)]
pub struct Measured {
    /// The bytes of all their device blocks.
    pub flash_bytes: u128,
    /// The bytes that they have written to flash.
    pub written_bytes: u128,
    /// How often they have asked the backend.
    pub backend_requests: u64,
    /// The bytes that they have asked the backend for, modulo 2^64.
    pub backend_bytes: u64,
}

/// The header of a table: the names of the columns that [`write_counts`] writes, with commas between them, and around them two texts.
#[macro_export]
macro_rules! header_around_counts {
    ($before:literal, $after:literal) => {
        concat!(
            $before,
            "requests,hits,misses,coalesced,late,bypassed,inserted,evicted,reinserted,promoted,writes,splits,merges,hit_bytes,request_bytes,hit_ratio,byte_hit_ratio,flash_bytes,written_bytes,backend_requests,backend_bytes,inserted_bytes",
            $after
        )
    };
}

/// The word for these caches.
pub fn caches_name(caches: Caches) -> &'static [u8]
    ensures { result.now ≡ caches_name caches }
{
    match caches {
        Caches::Edges => b"edges",
        Caches::Origins => b"origins",
        Caches::All => b"all",
    }
}

/// What caches have counted together, each count modulo 2^64. Takes no memory.
pub fn totals(all: &[Counters]) -> Counters
    ensures { result ≡ totals all.now }
{
    let mut total = Counters::default();
    for counters in all {
        total.add(counters);
    }
    total
}

/// Writes the columns of counts, of the two ratios, and of bytes and requests, each behind a comma: what was counted, what is measured
/// beside it, and the bytes of the objects stored.
pub fn write_counts(
    text: &mut Vec<u8>,
    total: &Counters,
    measured: Measured,
) -> Result<(), NoMemory>
    ensures { OnOk result
        (text.new.items ≡ text.old.items ++ measured_columns total.now measured) }
{
    write_columns(text, &counts_of(total))?;
    text.push(b',')?;
    write_ratio(text, total.hits, total.requests)?;
    text.push(b',')?;
    write_ratio(text, total.hit_bytes, total.request_bytes)?;
    let numbers = [
        measured.flash_bytes,
        measured.written_bytes,
        u128::from(measured.backend_requests),
        u128::from(measured.backend_bytes),
        u128::from(total.inserted_bytes),
    ];
    write_columns(text, &numbers)
}

/// The counts of a line, in the order of its columns.
fn counts_of(total: &Counters) -> [u128; 15]
    ensures { result ≡ counts_of total.now }
{
    [
        u128::from(total.requests),
        u128::from(total.hits),
        u128::from(total.misses),
        u128::from(total.coalesced),
        u128::from(total.late),
        u128::from(total.bypassed),
        u128::from(total.inserted),
        u128::from(total.evicted),
        u128::from(total.reinserted),
        u128::from(total.promoted),
        u128::from(total.writes),
        u128::from(total.splits),
        u128::from(total.merges),
        u128::from(total.hit_bytes),
        u128::from(total.request_bytes),
    ]
}

/// Writes each number behind a comma.
pub fn write_columns(text: &mut Vec<u8>, numbers: &[u128]) -> Result<(), NoMemory>
    ensures { OnOk result (text.new.items ≡ text.old.items ++ columns_of numbers.now) }
{
    for number in numbers {
        write_column(text, *number)?;
    }
    Ok(())
}

/// Writes a number behind a comma.
fn write_column(text: &mut Vec<u8>, number: u128) -> Result<(), NoMemory>
    ensures { OnOk result (text.new.items ≡ text.old.items ++ (codes "," ++ decimal number)) }
{
    text.push(b',')?;
    write_number(text, number)
}

/// Writes a number in decimal.
pub fn write_number(text: &mut Vec<u8>, number: u128) -> Result<(), NoMemory>
    ensures { OnOk result (text.new.items ≡ text.old.items ++ decimal number) }
{
    let mut digits = Buffer::new();
    text.extend_from_slice(digits.format(number).as_bytes())?;
    Ok(())
}

/// How many millionths of the whole a part is, rounded down; 0 where the whole is 0.
fn millionths(part: u64, whole: u64) -> u128
    ensures { result ≡ millionths part whole }
{
    if whole == 0 {
        0
    } else {
        u128::from(part) * 1_000_000 / u128::from(whole)
    }
}

/// Writes which part of the whole this is, with six decimals, rounded down; 0.000000 where the whole is 0.
pub fn write_ratio(text: &mut Vec<u8>, part: u64, whole: u64) -> Result<(), NoMemory>
    ensures { OnOk result (text.new.items ≡ text.old.items ++ ratio_text part whole) }
{
    write_decimals(text, millionths(part, whole))
}

/// Writes so many millionths as a number with six decimals.
pub fn write_decimals(text: &mut Vec<u8>, millionths: u128) -> Result<(), NoMemory>
    ensures { OnOk result (text.new.items ≡ text.old.items ++ with_decimals millionths) }
{
    write_number(text, millionths / 1_000_000)?;
    text.push(b'.')?;
    write_six_digits(text, millionths)
}

/// Writes the last six digits of a number.
fn write_six_digits(text: &mut Vec<u8>, number: u128) -> Result<(), NoMemory>
    ensures { OnOk result (text.new.items ≡ text.old.items ++ six_digits number) }
{
    let digits = [
        digit(number, 100_000),
        digit(number, 10_000),
        digit(number, 1_000),
        digit(number, 100),
        digit(number, 10),
        digit(number, 1),
    ];
    text.extend_from_slice(&digits)?;
    Ok(())
}

/// The digit of a number at this unit.
fn digit(number: u128, unit: u128) -> u8
    requires { 0 < unit }
    ensures { result ≡ 48 + number / unit % 10 }
{
    b'0' + (number / unit % 10) as u8
}
