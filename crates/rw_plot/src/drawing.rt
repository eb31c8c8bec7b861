//! The picture as a whole.

use crate::chart::Chart;
use crate::dots::Dots;
use crate::escaping::{escape, readable};
use crate::frame::{Frame, MOST_ENTRIES};
use crate::labels::{Pixels, PointValue, Size};
use crate::legend::{Legend, open_group};
use crate::looks::{Look, looks_of};
use crate::sample::{Configuration, Sample};
use crate::series::{AllSeries, Extent, Varying};
use crate::subject::Subject;
use crate::x_axis::XAxis;
use std::alloc::Global;
use std::io::{self, Write};

/// How the picture looks, in light and in dark: the colours are those of Okabe and Ito, made lighter on a dark ground.
const STYLE: &str = "<style>
text{font:12px system-ui,-apple-system,Segoe UI,Roboto,Helvetica,Arial,sans-serif;fill:#222}
.head{font-size:18px;font-weight:600}
.name{font-size:13px}
.middle{text-anchor:middle}
.end{text-anchor:end}
.paper{fill:#fff}
.grid{stroke:#ddd}
.axis{stroke:#666}
.line{fill:none;stroke:currentColor;stroke-width:2;stroke-linejoin:round}
.dot{fill:currentColor}
.dashes1 .line{stroke-dasharray:7 3}
.dashes2 .line{stroke-dasharray:2 3}
.dashes3 .line{stroke-dasharray:9 3 2 3}
.dashes4 .line{stroke-dasharray:14 6}
.dashes5 .line{stroke-dasharray:9 3 2 3 2 3}
.colour0{color:#0072b2}
.colour1{color:#d55e00}
.colour2{color:#009e73}
.colour3{color:#cc79a7}
.colour4{color:#e69f00}
.colour5{color:#56b4e9}
.colour6{color:#000}
@media (prefers-color-scheme:dark){
text{fill:#eee}
.paper{fill:#181818}
.grid{stroke:#3a3a3a}
.axis{stroke:#aaa}
.colour0{color:#3d9fe0}
.colour1{color:#f0763a}
.colour2{color:#20c496}
.colour3{color:#e59bc5}
.colour5{color:#a8dcff}
.colour6{color:#f0e442}
}
</style>
";

/// About how wide the name of a table may be, in tenths of a pixel.
const TABLE_ROOM: u32 = 7_600;

/// Writes the beginning of the picture, which is so high: its size, its title and how it looks.
fn write_head(out: &mut Vec<u8>, height: Pixels, subject: Subject, table: &[u8]) -> io::Result<()> {
    write!(
        out,
        "<svg xmlns=\"http://www.w3.org/2000/svg\" viewBox=\"0 0 960 {height}\" role=\"img\">\
         <title>{subject}: "
    )?;
    out.extend_from_slice(table)?;
    write!(
        out,
        "</title>\n\
         {STYLE}\
         <rect class=\"paper\" width=\"960\" height=\"{height}\"/>\n\
         <text class=\"head\" x=\"96\" y=\"36\">{subject}</text>\n\
         <text class=\"name\" x=\"96\" y=\"58\">"
    )?;
    out.extend_from_slice(table)?;
    out.extend_from_slice(b"</text>\n")?;
    Ok(())
}

/// Writes where a point stands.
fn write_place(out: &mut Vec<u8>, chart: &Chart, point: &Sample) -> io::Result<()> {
    let (x, y) = chart.place(point);
    write!(out, "{x},{y} ")
}

/// Writes the line through the points of one name.
fn write_line(out: &mut Vec<u8>, chart: &Chart, points: &[Sample]) -> io::Result<()> {
    out.extend_from_slice(b"<polyline class=\"line\" points=\"")?;
    for point in points {
        write_place(out, chart, point)?;
    }
    out.extend_from_slice(b"\"/>\n")?;
    Ok(())
}

/// Writes a point as a dot of this radius, with its numbers as its title.
fn write_point(
    out: &mut Vec<u8>,
    chart: &Chart,
    radius: &str,
    title: &[u8],
    point: &Sample,
) -> io::Result<()> {
    let (x, y) = chart.place(point);
    write!(
        out,
        "<circle class=\"dot\" cx=\"{x}\" cy=\"{y}\" r=\"{radius}\"><title>"
    )?;
    out.extend_from_slice(title)?;
    write_value(out, chart.subject, point)?;
    write_where(out, chart.subject.x, point)?;
    if let Some(configuration) = point.configuration {
        write_configuration(out, configuration)?;
    }
    out.extend_from_slice(b"</title></circle>\n")?;
    Ok(())
}

/// Writes the value of a point.
fn write_value(out: &mut Vec<u8>, subject: Subject, point: &Sample) -> io::Result<()> {
    let what = subject.name();
    let value = PointValue {
        unit: subject.unit(),
        value: subject.value(point),
    };
    write!(out, ": {what} {value}")
}

/// Writes the interval of a point, or the flash over which it stands.
fn write_where(out: &mut Vec<u8>, x: XAxis, point: &Sample) -> io::Result<()> {
    if let Some(interval) = point.interval {
        let from = interval.from;
        let to = interval.to;
        write!(out, "; from tick {from} to {to}")?;
    }
    if let XAxis::Flash(flash) = x {
        let whose = flash.whose();
        let bytes = flash.bytes(point);
        let size = Size(u128::from(bytes));
        write!(out, "; flash {whose} {size} ({bytes} bytes)")?;
    }
    Ok(())
}

/// Writes the configuration of a point.
fn write_configuration(out: &mut Vec<u8>, configuration: Configuration) -> io::Result<()> {
    let sections = configuration.sections;
    let block = configuration.block;
    let edge_blocks = configuration.edge_blocks;
    let origin_blocks = configuration.origin_blocks;
    write!(
        out,
        "; {sections} sections, blocks of {block} bytes, \
         {edge_blocks} edge blocks, {origin_blocks} origin blocks"
    )?;
    if configuration.edges > 0 {
        write_caches(out, configuration)?;
    }
    Ok(())
}

/// Writes how many caches the configuration of a point has, and its delays.
fn write_caches(out: &mut Vec<u8>, configuration: Configuration) -> io::Result<()> {
    let edges = configuration.edges;
    let origins = configuration.origins;
    let up = configuration.up;
    let down = configuration.down;
    let back = configuration.back;
    write!(
        out,
        ", {edges} edges, {origins} origins, up {up} ticks, down {down} ticks, back {back} ticks"
    )
}

/// Writes the points of one name.
fn write_points(
    out: &mut Vec<u8>,
    chart: &Chart,
    dots: Dots,
    title: &[u8],
    points: &[Sample],
) -> io::Result<()> {
    let Some(radius) = dots.radius() else {
        return Ok(());
    };
    for point in points {
        write_point(out, chart, radius, title, point)?;
    }
    Ok(())
}

/// Writes the polylines and the points of all names.
fn write_all_series(
    alloc: Global,
    out: &mut Vec<u8>,
    all: &AllSeries,
    chart: &Chart,
    legend: Legend,
    looks: &[Look],
) -> io::Result<()> {
    for ((name, points), look) in all.iter().zip(looks) {
        let title = legend.full_name(alloc, name)?;
        open_group(out, *look)?;
        write_line(out, chart, points.as_slice())?;
        write_points(out, chart, legend.dots, title.as_slice(), points.as_slice())?;
        out.extend_from_slice(b"</g>\n")?;
    }
    Ok(())
}

/// Writes the legend.
fn write_legend(
    alloc: Global,
    out: &mut Vec<u8>,
    all: &AllSeries,
    legend: Legend,
    looks: &[Look],
) -> io::Result<()> {
    for (place, (name, look)) in all.keys().zip(looks).enumerate() {
        if place >= MOST_ENTRIES {
            return legend.write_rest(out, all.len().saturating_sub(MOST_ENTRIES));
        }
        legend.write_entry(alloc, out, place, *look, name)?;
    }
    Ok(())
}

/// How the points of these polylines look: as dots of one size over the size of the flash, and over time so that they leave the
/// line to be seen.
fn dots_of(subject: Subject, most_points: usize) -> Dots {
    if subject.layout.is_over_time() {
        Dots::for_points(most_points)
    } else {
        Dots::Large
    }
}

/// Writes the picture of some polylines; the name of their table is escaped already.
fn write_picture(
    alloc: Global,
    out: &mut Vec<u8>,
    all: &AllSeries,
    subject: Subject,
    table: &[u8],
) -> io::Result<()> {
    let extent = Extent::of(all, subject);
    let frame = Frame::for_series(all.len());
    let chart = Chart::new(&extent, subject, frame);
    let legend = Legend {
        layout: subject.layout,
        varying: Varying::among(all),
        dots: dots_of(subject, extent.most_points),
        frame,
    };
    let looks = looks_of(alloc, all, legend.varying)?;
    write_head(out, Pixels(frame.height(all.len())), subject, table)?;
    chart.write(out)?;
    write_all_series(alloc, out, all, &chart, legend, looks.as_slice())?;
    write_legend(alloc, out, all, legend, looks.as_slice())?;
    out.extend_from_slice(b"</svg>\n")?;
    Ok(())
}

/// The picture of some polylines, of a table with this name.
pub(crate) fn draw(
    alloc: Global,
    all: &AllSeries,
    subject: Subject,
    table: &str,
) -> io::Result<Vec<u8>> {
    let table = readable(alloc, table.as_bytes(), TABLE_ROOM)?;
    let table = escape(alloc, table.as_bytes())?;
    let mut out = Vec::new(alloc);
    write_picture(alloc, &mut out, all, subject, table.as_slice())?;
    Ok(out)
}
