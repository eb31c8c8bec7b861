//! The part of the picture in which the polylines stand: a grid, its labels, and the names of the axes.

use crate::frame::{Frame, HEIGHT, LEFT};
use crate::labels::{Pixels, Size, TickValue};
use crate::sample::Sample;
use crate::scale::{FlashAxis, Hundredths, ValueAxis};
use crate::series::Extent;
use crate::subject::Subject;
use crate::time_axis::{MOST_LABELS, TimeAxis};
use crate::x_axis::{Flash, XAxis};
use std::fmt::Display;
use std::io::{self, Write};

/// The lower axis.
#[derive(Clone, Copy)]
enum Across {
    /// The size of this flash.
    Flash(Flash, FlashAxis),
    /// Time.
    Time(TimeAxis),
}

/// The axes of a picture.
#[derive(Clone, Copy)]
pub(crate) struct Chart {
    /// What is drawn.
    pub(crate) subject: Subject,
    /// Where its parts stand.
    frame: Frame,
    /// The lower axis.
    across: Across,
    /// The axis of the values.
    values: ValueAxis,
}

impl Chart {
    /// The axes that hold all points.
    pub(crate) fn new(extent: &Extent, subject: Subject, frame: Frame) -> Chart {
        let across = match subject.x {
            XAxis::Time => {
                let (first, past) = (extent.first_tick, extent.past_tick);
                let ticks_a_second = subject.ticks_a_second();
                Across::Time(TimeAxis::new(first, past, ticks_a_second, frame.width()))
            }
            XAxis::Flash(flash) => {
                Across::Flash(flash, FlashAxis::new(extent.least_flash, extent.most_flash))
            }
        };
        Chart {
            subject,
            frame,
            across,
            values: ValueAxis::new(subject.unit(), extent.most),
        }
    }

    /// Where a point stands: from the left, and from the top.
    pub(crate) fn place(&self, point: &Sample) -> (Pixels, Pixels) {
        let width = self.frame.width();
        let right = match (self.across, point.interval) {
            (Across::Time(time), Some(interval)) => time.place(interval, width),
            (Across::Flash(flash, axis), _) => axis.place(flash.bytes(point), width),
            (Across::Time(_), None) => 0,
        };
        let up = self.values.place(self.subject.value(point), HEIGHT);
        (Pixels(LEFT.saturating_add(right)), self.from_bottom(up))
    }

    /// Writes the grid with its labels, and the names of the axes.
    pub(crate) fn write(&self, out: &mut Vec<u8>) -> io::Result<()> {
        self.write_value_ticks(out)?;
        match self.across {
            Across::Flash(_, axis) => self.write_flash_ticks(out, axis)?,
            Across::Time(time) => self.write_time_ticks(out, time)?,
        }
        self.write_names(out)
    }

    /// Writes a line of the grid and a label for each tick of the values.
    fn write_value_ticks(&self, out: &mut Vec<u8>) -> io::Result<()> {
        for tick in 0..=self.values.ticks {
            self.write_value_tick(out, tick)?;
        }
        Ok(())
    }

    /// Writes a line of the grid and the label of a tick of the values.
    fn write_value_tick(&self, out: &mut Vec<u8>, tick: u32) -> io::Result<()> {
        let left = Pixels(LEFT);
        let right = Pixels(self.frame.right());
        let label_x = Pixels(LEFT - 8_00);
        let value = self.values.value(tick);
        let y = self.from_bottom(self.values.place(value, HEIGHT));
        let label_y = Pixels(y.0.saturating_add(4_00));
        let class = if tick == 0 { "axis" } else { "grid" };
        let label = TickValue {
            unit: self.subject.unit(),
            value,
        };
        write!(
            out,
            "<line class=\"{class}\" x1=\"{left}\" y1=\"{y}\" x2=\"{right}\" y2=\"{y}\"/>\
             <text class=\"end\" x=\"{label_x}\" y=\"{label_y}\">{label}</text>\n"
        )
    }

    /// Writes the names of the axes.
    fn write_names(&self, out: &mut Vec<u8>) -> io::Result<()> {
        match self.across {
            Across::Flash(flash, _) => self.write_name_below(out, flash)?,
            Across::Time(time) => self.write_name_below(out, time.unit)?,
        }
        let name = self.subject.name();
        let middle = Pixels(self.frame.top().saturating_add(HEIGHT / 2));
        write!(
            out,
            "<text class=\"middle name\" transform=\"translate(20 {middle}) rotate(-90)\">{name}</text>\n"
        )
    }

    /// Writes the name of the lower axis.
    fn write_name_below<D: Display + Drop>(&self, out: &mut Vec<u8>, name: D) -> io::Result<()> {
        let x = Pixels(LEFT.saturating_add(self.frame.width() / 2));
        let y = Pixels(self.frame.bottom().saturating_add(48_00));
        write!(
            out,
            "<text class=\"middle name\" x=\"{x}\" y=\"{y}\">{name}</text>\n"
        )
    }

    /// Writes a line of the grid and a label for each tick of the flash.
    fn write_flash_ticks(&self, out: &mut Vec<u8>, flash: FlashAxis) -> io::Result<()> {
        let step = flash.step();
        for tick in 0..=8u32 {
            let power = flash.low.saturating_add(step.saturating_mul(tick));
            if power > flash.high {
                break;
            }
            let size = Size(1u128.checked_shl(power).unwrap_or(0));
            let right = flash.place_of_power(power, self.frame.width());
            self.write_tick_below(out, right, size)?;
        }
        Ok(())
    }

    /// Writes a line of the grid and a label for each time that is labelled.
    fn write_time_ticks(&self, out: &mut Vec<u8>, time: TimeAxis) -> io::Result<()> {
        for place in 0..=MOST_LABELS {
            let Some(label) = time.label(place) else {
                break;
            };
            let right = time.place_of_label(label, self.frame.width());
            self.write_tick_below(out, right, time.text(label))?;
        }
        Ok(())
    }

    /// Writes a line of the grid and a label so far to the right on the lower axis.
    fn write_tick_below<D: Display + Drop>(
        &self,
        out: &mut Vec<u8>,
        right: Hundredths,
        label: D,
    ) -> io::Result<()> {
        let top = Pixels(self.frame.top());
        let bottom = Pixels(self.frame.bottom());
        let label_y = Pixels(self.frame.bottom().saturating_add(20_00));
        let x = Pixels(LEFT.saturating_add(right));
        write!(
            out,
            "<line class=\"grid\" x1=\"{x}\" y1=\"{top}\" x2=\"{x}\" y2=\"{bottom}\"/>\
             <text class=\"middle\" x=\"{x}\" y=\"{label_y}\">{label}</text>\n"
        )
    }

    /// How far from the top of the picture what is so far up on the axis of the values stands.
    fn from_bottom(&self, up: Hundredths) -> Pixels {
        Pixels(self.frame.bottom().saturating_sub(up))
    }
}
