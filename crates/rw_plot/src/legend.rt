//! The names of the polylines, above the chart or beside it.

use crate::dots::Dots;
use crate::escaping::{escape, readable};
use crate::frame::{Frame, MOST_ENTRIES};
use crate::labels::{Pixels, Size};
use crate::layout::Layout;
use crate::looks::Look;
use crate::sample::Configuration;
use crate::scale::Hundredths;
use crate::series::{Name, Varying};
use crate::subject::caches_name;
use std::alloc::Global;
use std::io::{self, Write};

/// About how wide a policy may be in the legend, in tenths of a pixel.
const POLICY_ROOM: u32 = 1_100;

/// About how wide a line of the legend may be, in tenths of a pixel.
const LABEL_ROOM: u32 = 2_250;

/// How polylines are named and look.
#[derive(Clone, Copy)]
pub(crate) struct Legend {
    /// The table that they are of.
    pub(crate) layout: Layout,
    /// What of their names differs.
    pub(crate) varying: Varying,
    /// How their points look.
    pub(crate) dots: Dots,
    /// Where the names stand.
    pub(crate) frame: Frame,
}

impl Legend {
    /// A name as it may stand in the picture: its policy, and of the rest what varies; of a table of one configuration its
    /// caches. The policy is cut where it would be wider than `policy_room`, and the whole where it would be wider than `room`.
    fn shown(self, alloc: Global, name: &Name, policy_room: u32, room: u32) -> io::Result<Vec<u8>> {
        let text = self.label_text(alloc, name, policy_room)?;
        let readable = readable(alloc, text.as_slice(), room)?;
        Ok(escape(alloc, readable.as_bytes())?)
    }

    /// The whole name of a polyline.
    pub(crate) fn full_name(self, alloc: Global, name: &Name) -> io::Result<Vec<u8>> {
        self.shown(alloc, name, u32::MAX, u32::MAX)
    }

    /// The name of a polyline as it stands in the legend.
    fn short_name(self, alloc: Global, name: &Name) -> io::Result<Vec<u8>> {
        let policy_room = if self.varying.is_any_number() {
            POLICY_ROOM
        } else {
            LABEL_ROOM
        };
        self.shown(alloc, name, policy_room, LABEL_ROOM)
    }

    /// The text of a name, not escaped yet, its policy cut where it would be wider than `room`.
    fn label_text(self, alloc: Global, name: &Name, room: u32) -> io::Result<Vec<u8>> {
        match self.layout {
            Layout::OverTime => Ok(Vec::from_slice(alloc, caches_name(name.caches).as_bytes())?),
            Layout::Sweep | Layout::SweepOverTime => {
                let mut text = readable(alloc, name.policy.as_slice(), room)?.into_bytes();
                self.write_varying(&mut text, name)?;
                Ok(text)
            }
        }
    }

    /// Writes of the rest of a name what varies.
    fn write_varying(self, text: &mut Vec<u8>, name: &Name) -> io::Result<()> {
        if self.varying.sections {
            let sections = name.sizes.sections;
            write!(text, ", {sections} sections")?;
        }
        if self.varying.blocks {
            let block = Size(u128::from(name.sizes.block));
            write!(text, ", {block} blocks")?;
        }
        self.write_varying_flash(text, name.sizes)?;
        self.write_varying_counts(text, name.sizes)?;
        self.write_varying_delays(text, name.sizes)
    }

    /// Writes of the sizes of flash in a name what varies.
    fn write_varying_flash(self, text: &mut Vec<u8>, sizes: Configuration) -> io::Result<()> {
        let edge_blocks = sizes.edge_blocks;
        let origin_blocks = sizes.origin_blocks;
        match (self.varying.edge_blocks, self.varying.origin_blocks) {
            (false, false) => Ok(()),
            (true, false) => write!(text, ", {edge_blocks} edge blocks"),
            (false, true) => write!(text, ", {origin_blocks} origin blocks"),
            (true, true) => write!(text, ", {edge_blocks} edge, {origin_blocks} origin blocks"),
        }
    }

    /// Writes of the numbers of caches in a name what varies.
    fn write_varying_counts(self, text: &mut Vec<u8>, sizes: Configuration) -> io::Result<()> {
        if self.varying.edges {
            let edges = sizes.edges;
            write!(text, ", {edges} edges")?;
        }
        if self.varying.origins {
            let origins = sizes.origins;
            write!(text, ", {origins} origins")?;
        }
        Ok(())
    }

    /// Writes of the delays in a name what varies.
    fn write_varying_delays(self, text: &mut Vec<u8>, sizes: Configuration) -> io::Result<()> {
        if self.varying.up {
            let up = sizes.up;
            write!(text, ", up {up} ticks")?;
        }
        if self.varying.down {
            let down = sizes.down;
            write!(text, ", down {down} ticks")?;
        }
        if self.varying.back {
            let back = sizes.back;
            write!(text, ", back {back} ticks")?;
        }
        Ok(())
    }

    /// Writes a line of the legend.
    pub(crate) fn write_entry(
        self,
        alloc: Global,
        out: &mut Vec<u8>,
        place: usize,
        look: Look,
        name: &Name,
    ) -> io::Result<()> {
        open_group(out, look)?;
        self.write_title(alloc, out, name)?;
        self.write_sample(out, place)?;
        self.write_label(alloc, out, name)
    }

    /// Writes the whole name of a polyline as the title of its line in the legend.
    fn write_title(self, alloc: Global, out: &mut Vec<u8>, name: &Name) -> io::Result<()> {
        let title = self.full_name(alloc, name)?;
        out.extend_from_slice(b"<title>")?;
        out.extend_from_slice(title.as_slice())?;
        out.extend_from_slice(b"</title>")?;
        Ok(())
    }

    /// Writes how a polyline and its points look, and where its label begins.
    fn write_sample(self, out: &mut Vec<u8>, place: usize) -> io::Result<()> {
        let (left, height) = self.frame.entry(place);
        let y = Pixels(height);
        let base = Pixels(height.saturating_add(4_00));
        let from = Pixels(left);
        let to = Pixels(left.saturating_add(40_00));
        let text_x = Pixels(left.saturating_add(48_00));
        write!(
            out,
            "<polyline class=\"line\" points=\"{from},{y} {to},{y}\"/>"
        )?;
        self.write_dot(out, left, y)?;
        write!(out, "<text x=\"{text_x}\" y=\"{base}\">")
    }

    /// Writes how the points of a polyline look.
    fn write_dot(self, out: &mut Vec<u8>, left: Hundredths, y: Pixels) -> io::Result<()> {
        let Some(radius) = self.dots.radius() else {
            return Ok(());
        };
        let middle = Pixels(left.saturating_add(20_00));
        write!(
            out,
            "<circle class=\"dot\" cx=\"{middle}\" cy=\"{y}\" r=\"{radius}\"/>"
        )
    }

    /// Writes the name of a polyline as the label of its line in the legend.
    fn write_label(self, alloc: Global, out: &mut Vec<u8>, name: &Name) -> io::Result<()> {
        let label = self.short_name(alloc, name)?;
        out.extend_from_slice(label.as_slice())?;
        out.extend_from_slice(b"</text></g>\n")?;
        Ok(())
    }

    /// Writes how many polylines the legend leaves out.
    pub(crate) fn write_rest(self, out: &mut Vec<u8>, left_out: usize) -> io::Result<()> {
        let (left, height) = self.frame.entry(MOST_ENTRIES);
        let base = Pixels(height.saturating_add(4_00));
        let text_x = Pixels(left.saturating_add(48_00));
        write!(
            out,
            "<text x=\"{text_x}\" y=\"{base}\">and {left_out} more</text>\n"
        )
    }
}

/// Writes the beginning of the group of a polyline or of its line in the legend: its colour and dashes.
pub(crate) fn open_group(out: &mut Vec<u8>, look: Look) -> io::Result<()> {
    let colour = look.colour;
    let dashes = look.dashes;
    write!(out, "<g class=\"colour{colour} dashes{dashes}\">")
}
