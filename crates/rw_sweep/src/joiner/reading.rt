ghost use Rattle.std.specs.Prelude.{◌≡◌, ◌≢◌, ◌+◌, ◌<◌, ◌≤◌, ◌++◌, ◌∷◌, [], ℕ, List, All, IfErr, IfOk, IfSome, MatchOption, OnOk, length, map};
ghost use Rattle.rw_sweep.specs.Parts.{part_header, placed_line};
ghost use Rattle.rw_sweep.specs.Joining.{IsLine, newline};
ghost use Rattle.rw_sweep.specs.JoinFaults.{HasFaultyLine, IsFaultOfPart, IsFirstFaultyPart, IsWrongLine};
ghost use Rattle.rw_sweep.specs.PartLines.{IsPartLine};
ghost use Rattle.rw_sweep.specs.JoinSlots.{HasReadPart, HasReadTo, HaveRead, OfHeld};

use crate::joiner::columns::{COLUMNS, columns, first_misfit};
use crate::joiner::join_fault::JoinFault;
use crate::joiner::places::place;
use crate::joiner::slots::{Slot, add};
use crate::table::header_text;
use std::alloc::Global;

/// The lines of these parts, each in the slot of its place.
pub(crate) fn read_all(alloc: Global, texts: &[Vec<u8>]) -> Result<Vec<Slot>, JoinFault>
    ensures read { IfOk result (λ slots.
        HaveRead (map (λ part. part.items) texts.now) slots.items) }
    ensures fault { IfErr result (λ e. e ≢ JoinFault.Memory
        → IsFirstFaultyPart (map (λ part. part.items) texts.now) e) }
{
    let mut slots = Vec::new(alloc);
    for (file, text) in texts.iter().enumerate() {
        read_part(alloc, &mut slots, file as u64, text.as_slice())?;
    }
    Ok(slots)
}

/// Puts the lines of a part into the slots of their places.
fn read_part(alloc: Global, slots: &mut Vec<Slot>, file: u64, text: &[u8]) -> Result<(), JoinFault>
    ensures read { OnOk result (HasReadPart text.now slots.old.items slots.new.items) }
    ensures fault { IfErr result (λ e. e ≢ JoinFault.Memory
        → OfHeld slots.old.items (λ before. IsFaultOfPart file before text.now e)) }
{
    let Some(lines) = behind_header(text) else {
        return Err(JoinFault::Header(file));
    };
    read_lines(alloc, slots, file, lines)
}

/// What stands behind the header of a part, if it begins with that.
fn behind_header(text: &[u8]) -> Option<&[u8]>
    ensures { MatchOption result ((rest : List ℕ) → text.now ≢ part_header ++ rest)
        (λ rest. text.now ≡ part_header ++ rest.now) }
{
    behind(behind(text, b"place,")?, header_text())
}

/// What stands behind these bytes, if a text begins with them.
fn behind<'a>(text: &'a [u8], first: &[u8]) -> Option<&'a [u8]>
    ensures { MatchOption result ((rest : List ℕ) → text.now ≢ first.now ++ rest)
        (λ rest. text.now ≡ first.now ++ rest.now) }
{
    text.strip_prefix(first)
}

/// Puts some lines into the slots of their places.
fn read_lines(
    alloc: Global,
    slots: &mut Vec<Slot>,
    file: u64,
    lines: &[u8],
) -> Result<(), JoinFault>
    ensures read { OnOk result (HasReadTo lines.now [] slots.old.items slots.new.items) }
    ensures fault { IfErr result (λ e. e ≢ JoinFault.Memory
        → OfHeld slots.old.items (λ before. HasFaultyLine file before lines.now e)) }
{
    let mut rest = lines;
    let mut row = 0u64;
    while !rest.is_empty() {
        let (place, line, after) = next(file, row, rest)?;
        add(alloc, slots, place, line)?;
        rest = after;
        row = row.saturating_add(1);
    }
    Ok(())
}

/// The first line of a text, as its place and what stands behind that, and the rest of the text.
fn next(file: u64, row: u64, text: &[u8]) -> Result<(u64, &[u8], &[u8]), JoinFault>
    ensures told { IfOk result (λ r.
        text.now ≡ placed_line r.0 r.1.now ++ r.2.now) }
    ensures right { IfOk result (λ r. IsPartLine (record { place = r.0; line = r.1.now })) }
    ensures fault { IfErr result (λ e. text.now ≢ [] → IsWrongLine file row text.now e) }
{
    let Some((line, after)) = first_line(text) else {
        return Err(JoinFault::CutOff(file));
    };
    let (place, own) = placed(file, row, line)?;
    Ok((place, own, after))
}

/// The place of a line, and what stands behind it.
fn placed(file: u64, row: u64, line: &[u8]) -> Result<(u64, &[u8]), JoinFault>
    requires { IsLine line.now }
    ensures told { IfOk result (λ r. line.now ≡ placed_line r.0 r.1.now) }
    ensures right { IfOk result (λ r. IsPartLine (record { place = r.0; line = r.1.now })) }
    ensures fault { IfErr result (λ e.
        (after : List ℕ) → IsWrongLine file row (line.now ++ after) e) }
{
    let body = without_end(line);
    if columns(body) != COLUMNS {
        return Err(JoinFault::Length(file, row));
    }
    match first_misfit(body) {
        Some(column) => Err(JoinFault::Number(file, row, column)),
        None => match place(line) {
            Some((place, own)) => Ok((place, own)),
            None => Err(JoinFault::Number(file, row, 0)),
        },
    }
}

/// A line without its end.
fn without_end(line: &[u8]) -> &[u8]
    requires { IsLine line.now }
    ensures told { line.now ≡ result.now ++ newline ∷ [] }
    ensures one { All (λ b. b ≢ newline) result.now }
{
    &line[..line.len() - 1]
}

/// The first line of a text, and what stands behind it, if that line has an end.
fn first_line(text: &[u8]) -> Option<(&[u8], &[u8])>
    ensures told { IfSome result (λ r. text.now ≡ r.0.now ++ r.1.now) }
    ensures line { MatchOption result (All (λ b. b ≢ newline) text.now) (λ r. IsLine r.0.now) }
{
    let end = text.iter().position(|byte| *byte == b'\n')?;
    Some(text.split_at(end + 1))
}
