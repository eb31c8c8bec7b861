// The formats of reports and tables, and tables as JSON.
ghost use Rattle.std.specs.Prelude.{◌≡◌, ◌++◌, IfOk, OnOk};
ghost use Rattle.rw_report.specs.Formats.{first_line, json_lines, json_member, json_object, json_value, quoted};

use rw_photo::NoMemory;
use std::alloc::Global;

/// The format of a report or a table.
#[derive(Clone, Copy, Debug, PartialEq, Eq)]
pub enum Format {
    /// The report, or a table where intervals are asked for.
    Text,
    /// A table of comma-separated values: the names of the columns, and below them the lines.
    Csv,
    /// The lines of that table, each as a JSON object on a line of its own (JSON Lines).
    Json,
}

/// The lines of a table as JSON objects, each on a line of its own (JSON Lines): `{"cache":"edge 0","requests":1}`.
///
/// The names of an object are those between the commas of the first line of `header`, and its values are the fields of the line, in
/// order, as many as both have. An empty field becomes `null`. One that begins with a digit is a number, and is
/// copied. Any other is text, and is quoted. Names and texts consist of letters, digits, spaces and underscores, so nothing is escaped.
/// Each of the `lines` ends with a newline, and an empty one gives no object.
///
/// # Errors
///
/// `NoMemory` only where memory was refused.
pub fn json_lines(alloc: Global, header: &[u8], lines: &[u8]) -> Result<Vec<u8>, NoMemory>
    ensures { IfOk result (λ text. text.items ≡ json_lines header.now lines.now) }
{
    let names = first_line(header);
    let mut text = Vec::new(alloc);
    for line in lines
        .split(|byte| *byte == b'\n')
        .filter(|line| !line.is_empty())
    {
        write_object(&mut text, names, line)?;
    }
    Ok(text)
}

/// The text up to the first newline, or all of it where there is none.
fn first_line(text: &[u8]) -> &[u8]
    ensures { result.now ≡ first_line text.now }
{
    let newline = text.iter().position(|byte| *byte == b'\n');
    &text[..newline.unwrap_or(text.len())]
}

/// Writes the object of a line, whose names stand between the commas of `names`.
fn write_object(text: &mut Vec<u8>, names: &[u8], line: &[u8]) -> Result<(), NoMemory>
    ensures { OnOk result (text.new.items ≡ text.old.items ++ json_object names.now line.now) }
{
    text.push(b'{')?;
    let mut comma: &[u8] = b"";
    for (name, field) in names
        .split(|byte| *byte == b',')
        .zip(line.split(|byte| *byte == b','))
    {
        text.extend_from_slice(comma)?;
        write_member(text, name, field)?;
        comma = b",";
    }
    text.extend_from_slice(b"}\n")?;
    Ok(())
}

/// Writes a name, and a field as its value.
fn write_member(text: &mut Vec<u8>, name: &[u8], field: &[u8]) -> Result<(), NoMemory>
    ensures { OnOk result (text.new.items ≡ text.old.items ++ json_member (name.now, field.now)) }
{
    write_quoted(text, name)?;
    text.push(b':')?;
    write_value(text, field)
}

/// Writes a field as a JSON value.
fn write_value(text: &mut Vec<u8>, field: &[u8]) -> Result<(), NoMemory>
    ensures { OnOk result (text.new.items ≡ text.old.items ++ json_value field.now) }
{
    if field.is_empty() {
        text.extend_from_slice(b"null")?;
    } else if field[0].is_ascii_digit() {
        text.extend_from_slice(field)?;
    } else {
        write_quoted(text, field)?;
    }
    Ok(())
}

/// Writes a text in quotes.
fn write_quoted(text: &mut Vec<u8>, word: &[u8]) -> Result<(), NoMemory>
    ensures { OnOk result (text.new.items ≡ text.old.items ++ quoted word.now) }
{
    text.push(b'"')?;
    text.extend_from_slice(word)?;
    text.push(b'"')?;
    Ok(())
}
