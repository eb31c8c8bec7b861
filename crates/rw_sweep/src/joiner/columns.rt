ghost use Rattle.std.specs.Prelude.{◌≡◌, Contains, MatchOption, length, map};
ghost use Rattle.std.specs.Bool.{Decides};
ghost use Rattle.std.specs.Char.{is_ascii_digit};
ghost use Rattle.std.specs.List.{AllPass};
ghost use Rattle.rw_sweep.specs.PartLines.{IsDecimalField, IsFirstMisfit, IsNumberField, IsOfColumn, IsRateField, IsRatioField, IsRowOfPart, caches_words, fields_of, part_columns, policy_words};

use crate::joiner::places::place_in;

/// How many columns a part has.
pub(crate) const COLUMNS: usize = 41;

/// The names of the policies, as a table writes them.
const POLICIES: [&[u8]; 9] = [
    b"off", b"lru", b"slru2", b"slru3", b"slru4", b"slru5", b"slru6", b"slru7", b"slru8",
];

/// The words for the caches of which a line tells.
const CACHES: [&[u8]; 3] = [b"edges", b"origins", b"all"];

/// How many fields a line without its end has.
pub(crate) fn columns(body: &[u8]) -> usize
    ensures { result ≡ length (fields_of body.now) }
{
    body.split(|byte| *byte == b',').count()
}

/// The first column of a line of a part, without its end, whose field is none of that column.
pub(crate) fn first_misfit(body: &[u8]) -> Option<u64>
    requires { length (fields_of body.now) ≡ part_columns }
    ensures { MatchOption result (IsRowOfPart body.now) (IsFirstMisfit body.now) }
{
    let mut column = 0u64;
    for field in body.split(|byte| *byte == b',') {
        if !is_of_column(column, field) {
            return Some(column);
        }
        column += 1;
    }
    None
}

/// Whether a field can stand in a column.
fn is_of_column(column: u64, field: &[u8]) -> bool
    ensures { Decides result (IsOfColumn column field.now) }
{
    match column {
        0 => place_in(field).is_some(),
        1 => is_policy(field),
        11 => is_caches(field),
        27 | 28 => is_ratio(field),
        34 => is_rate(field),
        _ => is_number(field),
    }
}

/// Whether a field is the name of a policy.
fn is_policy(field: &[u8]) -> bool
    ensures { Decides result (Contains policy_words field.now) }
{
    is_one_of(field, &POLICIES)
}

/// Whether a field is a word for caches.
fn is_caches(field: &[u8]) -> bool
    ensures { Decides result (Contains caches_words field.now) }
{
    is_one_of(field, &CACHES)
}

/// Whether a field is one of some words.
fn is_one_of(field: &[u8], words: &[&[u8]]) -> bool
    ensures { Decides result (Contains (map (λ word. word.now) words.now) field.now) }
{
    words.iter().any(|word| *word == field)
}

/// Whether a field has 1 to 40 digits, and nothing else.
fn is_number(field: &[u8]) -> bool
    ensures { Decides result (IsNumberField field.now) }
{
    !field.is_empty() && field.len() <= 40 && are_digits(field)
}

/// Whether a field is a ratio: a digit, a point and six digits.
fn is_ratio(field: &[u8]) -> bool
    ensures { Decides result (IsRatioField field.now) }
{
    if field.len() != 8 {
        return false;
    }
    if !field[0].is_ascii_digit() {
        return false;
    }
    if field[1] != b'.' {
        return false;
    }
    are_digits(&field[2..])
}

/// Whether a field is empty, or a number with six decimals.
fn is_rate(field: &[u8]) -> bool
    ensures { Decides result (IsRateField field.now) }
{
    if field.is_empty() {
        return true;
    }
    is_decimal(field)
}

/// Whether a field has 1 to 40 digits, a point and six digits.
fn is_decimal(field: &[u8]) -> bool
    ensures { Decides result (IsDecimalField field.now) }
{
    if field.len() < 7 {
        return false;
    }
    let (whole, rest) = field.split_at(field.len() - 7);
    if !is_number(whole) {
        return false;
    }
    if rest[0] != b'.' {
        return false;
    }
    are_digits(&rest[1..])
}

/// Whether all bytes are digits.
fn are_digits(bytes: &[u8]) -> bool
    ensures { Decides result (AllPass is_ascii_digit bytes.now) }
{
    bytes.iter().all(|byte| byte.is_ascii_digit())
}
