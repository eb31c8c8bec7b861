// What a queue of blocks holds, as one line: for each section `S0 {2, 1, [0d, 3v]}`, its number, its active device
// block, its active virtual block, and its sealed blocks from the front, device or virtual; then for each object `1
// (6, 0, 3)`, its size, its home and its place; then `next 4`, the next serial.
ghost use Rattle.std.specs.Prelude.{◌<◌, length};

use rw_blocks::{Kind, NoMemory, Queue};
use std::alloc::Global;
use std::process::Abort;

/// A section's sealed list.
fn write_sealed(text: &mut String, queue: &Queue, section: usize) -> Result<(), NoMemory>
    requires { section < length queue.now.sections }
{
    for position in 0..queue.sealed(section) {
        let (serial, kind) = queue.sealed_at(section, position);
        let comma = if position == 0 { "" } else { ", " };
        let letter = match kind {
            Kind::Device => 'd',
            Kind::Virtual => 'v',
        };
        write!(text, "{comma}{serial}{letter}")?;
    }
    Ok(())
}

/// The queue: its sections, the rows of objects 1 to 9, and the next serial.
fn text_of(alloc: Global, queue: &Queue) -> Result<String, NoMemory> {
    let mut text = String::new(alloc);
    for section in 0..queue.sections() {
        let device = queue.active(section, Kind::Device);
        let virtual_block = queue.active(section, Kind::Virtual);
        write!(text, "S{section} {{{device}, {virtual_block}, [")?;
        write_sealed(&mut text, queue, section)?;
        write!(text, "]}}, ")?;
    }
    for object in 1..=9 {
        if let Some(row) = queue.row(object) {
            write!(
                text,
                "{object} ({}, {}, {}), ",
                row.size, row.home, row.place
            )?;
        }
    }
    write!(text, "next {}", queue.next_serial())?;
    Ok(text)
}

/// Asserts that this is the queue.
pub fn must_read<R: Abort>(
    rt: &R,
    alloc: Global,
    queue: &Queue,
    want: &str,
) -> Result<(), NoMemory> {
    let text = text_of(alloc, queue)?;
    assert_eq!(rt; text.as_str(), want);
    Ok(())
}
