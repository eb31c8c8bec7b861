//! What a record of a log of fields says.

ghost use Rattle.std.specs.Prelude.{◌≡◌, ◌==◌, ◌≤◌, ◌<◌, ◌^◌, ◌++◌, Ok, Err, None, IfOk, IfSome, MatchOption, replicate, take};
ghost use Rattle.std.specs.Char.{is_ascii_digit};
ghost use Rattle.std.specs.List.{list_all, list_any, position};
ghost use Rattle.csv.specs.Records.{fields_of};
ghost use Rattle.rw_trace.specs.Limits.{greatest_size};
ghost use Rattle.rw_trace.specs.Trace.{number_of};
ghost use Rattle.rw_import.specs.Csv.{clamped, edge_in, entry_of, field_in, fraction_of, has_its_lines, has_place, has_place_if, has_places, is_line_end, is_missing, is_on_one_line, is_zero, kind_in, kind_named, size_in, time_of, time_with, whole_time};

use crate::entry::Entry;
use crate::fault::{Flaw, Part};
use crate::layout::{Places, Quotes};
use csv::ByteRecord;
use rw_trace::{Kind, MAX_SIZE, number};

/// Billionths of a unit of time.
pub const UNIT: u128 = 1_000_000_000;

/// How many digits behind a point count.
const DECIMALS: usize = 9;

/// The field at a place, or none of its bytes where it is not there.
pub fn field_of(fields: &ByteRecord, place: u64) -> &[u8]
    ensures { result.now ≡ field_in (fields_of fields.now) place }
{
    match fields.get(place as usize) {
        Some(field) => field,
        None => &[],
    }
}

/// Whether all bytes are digits.
fn are_digits(text: &[u8]) -> bool
    ensures { result ≡ list_all is_ascii_digit text.now }
{
    text.iter().all(|byte| byte.is_ascii_digit())
}

/// The first nine bytes, and zeros where there are fewer.
fn padded(text: &[u8]) -> [u8; 9]
    ensures { result ≡ take 9 (text.now ++ replicate 9 48) }
{
    let mut digits = [b'0'; DECIMALS];
    let count = text.len().min(DECIMALS);
    digits[..count].copy_from_slice(&text[..count]);
    digits
}

/// The billionths that the digits behind a point write.
#[tactic(auto, unfolding(crate::specs::Csv::fraction_of))]
fn fraction(text: &[u8]) -> Option<u64>
    ensures { result ≡ fraction_of text.now }
{
    if text.is_empty() || !are_digits(text) {
        return None;
    }
    number(&padded(text))
}

/// Where the point stands, if there is one.
fn point(text: &[u8]) -> Option<usize>
    ensures { result ≡ position (λ b. b == 46) text.now }
{
    text.iter().position(|byte| *byte == b'.')
}

/// So many units and billionths, in billionths.
fn in_billionths(units: Option<u64>, billionths: Option<u64>) -> Option<u128>
    ensures value { result ≡ time_with units billionths }
    ensures short { IfSome result (λ t. t < 10 ^ 29) }
{
    match (units, billionths) {
        (Some(units), Some(billionths)) => Some(u128::from(units) * UNIT + u128::from(billionths)),
        _ => None,
    }
}

/// The time that a text writes, in billionths of the log's unit: a number of up to 20 digits and 64 bits, and perhaps a point and
/// digits behind it, of which nine count. `None` where it writes none. Takes no memory.
#[tactic(auto, unfolding(crate::specs::Csv::time_of))]
pub fn time_of(text: &[u8]) -> Option<u128>
    ensures value { result ≡ time_of text.now }
    ensures short { IfSome result (λ t. t < 10 ^ 29) }
{
    match point(text) {
        None => in_billionths(number(text), Some(0)),
        Some(at) => in_billionths(number(&text[..at]), fraction(&text[at + 1..])),
    }
}

/// A time, if there is one, and if it is a whole number of units, where it has to be.
fn whole_time(wanted: bool, time: Option<u128>) -> Option<u128>
    requires { IfSome time (λ t. t < 10 ^ 29) }
    ensures value { result ≡ whole_time wanted time }
    ensures short { IfSome result (λ t. t < 10 ^ 29) }
{
    let time = time?;
    if wanted && time % UNIT != 0 {
        return None;
    }
    Some(time)
}

/// Whether a place is one of a record's.
fn is_there(fields: &ByteRecord, place: u64) -> bool
    ensures { result ≡ has_place (fields_of fields.now) place }
{
    place < fields.len() as u64
}

/// Whether a place that may be asked for is one of a record's.
fn is_there_if(fields: &ByteRecord, place: Option<u64>) -> bool
    ensures { result ≡ has_place_if (fields_of fields.now) place }
{
    match place {
        Some(place) => is_there(fields, place),
        None => true,
    }
}

/// Whether a record has each place that is asked for.
fn is_long_enough(fields: &ByteRecord, places: Places) -> bool
    ensures { result ≡ has_places (fields_of fields.now) places }
{
    is_there(fields, places.time)
        && is_there_if(fields, places.edge)
        && is_there(fields, places.object)
        && is_there(fields, places.size)
        && is_there_if(fields, places.kind)
}

/// The edge that a record names, one of so many, if the log has a column of edges.
fn edge_of(fields: &ByteRecord, place: Option<u64>, edges: u32) -> Result<Option<u32>, Flaw>
    ensures value { result ≡ edge_in edges (fields_of fields.now) place }
    ensures within { IfOk result (λ e. MatchOption e (place ≡ None) (λ n. n < edges)) }
{
    let Some(place) = place else {
        return Ok(None);
    };
    match number(field_of(fields, place)) {
        Some(edge) if edge < u64::from(edges) => Ok(Some(edge as u32)),
        _ => Err(Flaw::Column(place, Part::Edge)),
    }
}

/// Whether a field names no size: it is empty, `-` or 0.
#[tactic(auto, unfolding(crate::specs::Csv::is_missing))]
fn is_missing(text: &[u8]) -> bool
    ensures { result ≡ is_missing text.now }
{
    text.is_empty() || text == b"-".as_slice() || is_zero(number(text))
}

/// Whether there is a number, and it is 0.
fn is_zero(number: Option<u64>) -> bool
    ensures { result ≡ is_zero number }
{
    match number {
        Some(number) => number == 0,
        None => false,
    }
}

/// A size, if it is not 0: one over the greatest as the greatest, and whether it is.
fn clamp(size: Option<u64>) -> Option<(u64, bool)>
    ensures value { result ≡ clamped size }
    ensures some { IfSome result (λ s. 1 ≤ s.0) }
    ensures few { IfSome result (λ s. s.0 ≤ greatest_size) }
{
    match size {
        Some(size) if size >= 1 => Some((size.min(MAX_SIZE), size > MAX_SIZE)),
        _ => None,
    }
}

/// The size that a field names, or else the one that stands for a missing one; and whether it was over the greatest.
#[tactic(auto, unfolding(crate::specs::Csv::size_in))]
fn size_of(text: &[u8], missing: Option<u64>) -> Option<(u64, bool)>
    ensures value { result ≡ size_in missing text.now }
    ensures some { IfSome result (λ s. 1 ≤ s.0) }
    ensures few { IfSome result (λ s. s.0 ≤ greatest_size) }
{
    if is_missing(text) {
        clamp(missing)
    } else {
        clamp(number(text))
    }
}

/// Whether a byte ends a line.
fn is_line_end(byte: u8) -> bool
    ensures { result ≡ is_line_end byte }
{
    byte == b'\n' || byte == b'\r'
}

/// Whether a field has a line end inside it.
fn has_line_end(field: &[u8]) -> bool
    ensures { result ≡ list_any is_line_end field.now }
{
    field.iter().any(|byte| is_line_end(*byte))
}

/// Whether no field of a record has a line end inside it.
fn is_on_one_line(fields: &ByteRecord) -> bool
    ensures { result ≡ is_on_one_line (fields_of fields.now) }
{
    for place in 0..fields.len() as u64 {
        if has_line_end(field_of(fields, place)) {
            return false;
        }
    }
    true
}

/// Whether a record has line ends in its fields only where it may.
pub fn has_its_lines(fields: &ByteRecord, quotes: Quotes) -> bool
    ensures { result ≡ has_its_lines quotes (fields_of fields.now) }
{
    match quotes {
        Quotes::OneLine => is_on_one_line(fields),
        Quotes::Multiline | Quotes::Plain => true,
    }
}

/// The kind that a text names.
fn kind_of_text(text: &[u8]) -> Option<Kind>
    ensures { result ≡ kind_named text.now }
{
    if text.eq_ignore_ascii_case(b"get") {
        Some(Kind::Get)
    } else if text.eq_ignore_ascii_case(b"purge") {
        Some(Kind::Purge)
    } else {
        None
    }
}

/// The kind that a record names: a get where the log has no column of kinds.
fn kind_of(fields: &ByteRecord, place: Option<u64>) -> Result<Kind, Flaw>
    ensures value { result ≡ kind_in (fields_of fields.now) place }
    ensures get { IfOk result (λ k. place ≡ None → k ≡ Kind.Get) }
{
    let Some(place) = place else {
        return Ok(Kind::Get);
    };
    kind_of_text(field_of(fields, place)).ok_or(Flaw::Column(place, Part::Kind))
}

/// What a record says but its object, or what is first wrong with it.
#[tactic(auto, unfolding(crate::specs::Csv::entry_of))]
pub fn read_fields(fields: &ByteRecord, places: Places, edges: u32) -> Result<Entry, Flaw>
    ensures said { result ≡ entry_of places edges (fields_of fields.now) }
    ensures short { IfOk result (λ e. e.time < 10 ^ 29) }
    ensures edge { IfOk result (λ e. MatchOption e.edge (places.edge ≡ None) (λ n. n < edges)) }
    ensures some { IfOk result (λ e. 1 ≤ e.size) }
    ensures few { IfOk result (λ e. e.size ≤ greatest_size) }
    ensures get { IfOk result (λ e. places.kind ≡ None → e.kind ≡ Kind.Get) }
{
    if !is_long_enough(fields, places) {
        return Err(Flaw::Length);
    }
    let time = whole_time(places.whole_times, time_of(field_of(fields, places.time)));
    let time = time.ok_or(Flaw::Column(places.time, Part::Time))?;
    let edge = edge_of(fields, places.edge, edges)?;
    if field_of(fields, places.object).is_empty() {
        return Err(Flaw::Column(places.object, Part::Object));
    }
    let size = size_of(field_of(fields, places.size), places.missing_size);
    let (size, clamped) = size.ok_or(Flaw::Column(places.size, Part::Size))?;
    let kind = kind_of(fields, places.kind)?;
    Ok(Entry {
        time,
        edge,
        size,
        clamped,
        kind,
    })
}
