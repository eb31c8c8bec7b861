//! The text of a trace.

ghost use Rattle.std.specs.Prelude.{◌≡◌, ◌++◌, ◌∷◌, [], OnOk, IfOk};
ghost use Rattle.rw_trace.specs.Limits.{most_rows};
ghost use Rattle.rw_trace.specs.Trace.{word_of};
ghost use Rattle.rw_import.specs.Lines.{trace_header, number_text, numbers_text, row_line, trace_lines};
ghost use Rattle.rw_import.specs.Written.{BeginsWithHeader, WritesTrace, has_purge};

use itoa::Buffer;
use rw_trace::{Kind, Row};
use std::alloc::{AllocError, Global};

/// Whether some row is a purge.
fn needs_kinds(rows: &[Row]) -> bool
    ensures { result ≡ has_purge rows.now }
{
    rows.iter().any(|row| row.kind == Kind::Purge)
}

/// Adds a number, and a byte behind it.
fn push_number(text: &mut Vec<u8>, number: u64, end: u8) -> Result<(), AllocError>
    ensures { OnOk result (text.new.items ≡ text.old.items ++ number_text number end) }
{
    let mut buffer = Buffer::new();
    text.extend_from_slice(buffer.format(number).as_bytes())?;
    text.push(end)?;
    Ok(())
}

/// Adds the numbers of a row, and a byte behind the last.
fn push_numbers(text: &mut Vec<u8>, row: &Row, end: u8) -> Result<(), AllocError>
    ensures { OnOk result (text.new.items ≡ text.old.items ++ numbers_text end row.now) }
{
    push_number(text, row.time, b',')?;
    push_number(text, u64::from(row.edge), b',')?;
    push_number(text, row.object, b',')?;
    push_number(text, row.size, end)
}

/// The end of a line that names a kind.
fn kind_end(kind: Kind) -> &'static [u8]
    ensures { result.now ≡ word_of kind ++ (10 ∷ []) }
{
    match kind {
        Kind::Get => b"get\n",
        Kind::Purge => b"purge\n",
    }
}

/// Adds the line of a row.
#[tactic(auto, unfolding(crate::specs::Lines::row_line))]
pub fn push_row(text: &mut Vec<u8>, row: &Row, kinds: bool) -> Result<(), AllocError>
    ensures { OnOk result (text.new.items ≡ text.old.items ++ row_line kinds row.now) }
{
    if !kinds {
        return push_numbers(text, row, b'\n');
    }
    push_numbers(text, row, b',')?;
    text.extend_from_slice(kind_end(row.kind))
}

/// The line of a header.
#[tactic(auto, unfolding(crate::specs::Lines::trace_header))]
pub fn header(kinds: bool) -> &'static [u8]
    ensures { result.now ≡ trace_header kinds }
{
    if kinds {
        b"time,edge,object,size,kind\n"
    } else {
        b"time,edge,object,size\n"
    }
}

/// The lines of a trace.
fn lines(alloc: Global, rows: &[Row], kinds: bool) -> Result<Vec<u8>, AllocError>
    ensures { IfOk result (λ text. text.items ≡ trace_lines kinds rows.now) }
{
    let mut text = Vec::from_slice(alloc, header(kinds))?;
    for row in rows {
        push_row(&mut text, row, kinds)?;
    }
    Ok(text)
}

/// The text of a trace of these rows, as `rw_trace` reads it: with the header of the second version exactly where some
/// row is a purge. It takes about 40 bytes a row.
///
/// # Errors
///
/// A request for memory was refused.
pub fn write_trace(alloc: Global, rows: &[Row]) -> Result<Vec<u8>, AllocError>
    ensures trace { IfOk result (λ text. WritesTrace most_rows text.items rows.now) }
    ensures header { IfOk result (λ text. BeginsWithHeader (has_purge rows.now) text.items) }
{
    lines(alloc, rows, needs_kinds(rows))
}
