//! The two panels of a task.

use crate::column::{Column, Need, PANEL, WIDTH, columns_of};
use crate::scale::{place_of, put_counts, put_runtimes, put_time};
use crate::stroke::{Stroke, StrokeLook, put_strokes};
use std::alloc::{AllocError, Global};
use svg::{LEFT, put_number};

/// The runtimes at which lines are drawn, in microseconds.
#[derive(Clone, Copy, Debug, PartialEq, Eq)]
pub struct PanelRuntimes {
    pub proposed: u32,
    pub least: u32,

    /// Fifteen percent less than the least.
    pub less: u32,
}

/// What is drawn of a task. Runtimes and durations are in microseconds.
#[derive(Clone, Copy)]
pub struct Panel<'a> {
    pub comm: &'a [u8],
    pub period: u32,

    /// In how long after its wake each job is to be done.
    pub within: u32,

    /// The runtime at the top of the scale.
    pub top: u32,

    /// None where no runtime is enough.
    pub runtimes: Option<PanelRuntimes>,

    /// How long the record is.
    pub span: u64,

    /// What each job needs, in the order of the record.
    pub needs: &'a [Need],

    /// The same, the greatest first, as many as the curve shows.
    pub sorted: &'a [Need],

    /// How many late jobs the scale of the curve has.
    pub most: u64,
}

/// What the two panels of a task show, beside their scales, in the order in which it is drawn.
#[derive(Drop)]
pub struct PanelStrokes {
    /// The upper panel: bars, and lines above them.
    pub needs: Vec<Stroke>,

    /// The lower panel: the curve, and the same lines.
    pub curve: Vec<Stroke>,
}

/// How high the two panels of a task are, with their title and their scales, in pixels.
pub(crate) const HEIGHT: u64 = 424;

/// How high a runtime is on a scale that ends at `top`.
fn height_of(top: u32, runtime: u32) -> u64 {
    u64::from(runtime.min(top)) * u64::from(PANEL) / u64::from(top.max(1))
}

fn look_of(shade: u32) -> StrokeLook {
    if shade == 0 {
        StrokeLook::Pale
    } else if shade == 1 {
        StrokeLook::Late
    } else {
        StrokeLook::Dark
    }
}

fn bar_of(base: u64, column: Column) -> Stroke {
    Stroke {
        look: look_of(column.shade),
        x: column.x,
        y: base,
        to_x: column.x,
        to_y: base.saturating_sub(u64::from(column.height)),
    }
}

fn bars_of(alloc: Global, base: u64, columns: &[Column]) -> Result<Vec<Stroke>, AllocError> {
    let mut bars = Vec::new(alloc);
    for column in columns {
        bars.push(bar_of(base, *column))?;
    }
    Ok(bars)
}

/// The curve from a column on to where the next one begins, so many pixels high.
fn step_of(base: u64, column: Column, to_x: u64, height: u32) -> Stroke {
    Stroke {
        look: StrokeLook::Curve,
        x: column.x,
        y: base.saturating_sub(u64::from(column.height)),
        to_x,
        to_y: base.saturating_sub(u64::from(height)),
    }
}

/// The curve: from each column to the next, and from the last down to where it ends.
fn curve_of(
    alloc: Global,
    base: u64,
    end: u64,
    columns: &[Column],
) -> Result<Vec<Stroke>, AllocError> {
    let mut curve = Vec::new(alloc);
    let Some((first, rest)) = columns.split_first() else {
        return Ok(curve);
    };
    let mut now = *first;
    for column in rest {
        curve.push(step_of(base, now, column.x, column.height))?;
        now = *column;
    }
    curve.push(step_of(base, now, end, 0))?;
    Ok(curve)
}

fn line_of(base: u64, top: u32, look: StrokeLook, runtime: u32) -> Stroke {
    let y = base.saturating_sub(height_of(top, runtime));
    Stroke {
        look,
        x: LEFT,
        y,
        to_x: LEFT + WIDTH,
        to_y: y,
    }
}

/// Adds the lines at what is proposed, at the least, and at 15 percent less.
fn add_lines(
    strokes: &mut Vec<Stroke>,
    base: u64,
    top: u32,
    runtimes: Option<PanelRuntimes>,
) -> Result<(), AllocError> {
    let Some(runtimes) = runtimes else {
        return Ok(());
    };
    strokes.extend_from_slice(&[
        line_of(base, top, StrokeLook::Proposed, runtimes.proposed),
        line_of(base, top, StrokeLook::Least, runtimes.least),
        line_of(base, top, StrokeLook::Less, runtimes.less),
    ])?;
    Ok(())
}

/// The strokes of the upper panel, whose bottom is at `base`: what each job needs, over the time of the record.
fn needs_strokes(alloc: Global, base: u64, panel: &Panel<'_>) -> Result<Vec<Stroke>, AllocError> {
    let columns = columns_of(alloc, panel.needs, panel.span)?;
    let mut strokes = bars_of(alloc, base, &columns)?;
    add_lines(&mut strokes, base, panel.top, panel.runtimes)?;
    Ok(strokes)
}

/// The strokes of the lower panel, whose bottom is at `base`: the runtime for 0, 1, 2 and more late jobs.
fn curve_strokes(alloc: Global, base: u64, panel: &Panel<'_>) -> Result<Vec<Stroke>, AllocError> {
    let columns = columns_of(alloc, panel.sorted, panel.most)?;
    let end = LEFT + place_of(panel.sorted.len() as u64, panel.most, WIDTH);
    let mut strokes = curve_of(alloc, base, end, &columns)?;
    add_lines(&mut strokes, base, panel.top, panel.runtimes)?;
    Ok(strokes)
}

/// What the two panels of a task show, beside their scales: the upper panel's bottom is at `upper`, the lower one's at `lower`.
pub fn strokes_of(
    alloc: Global,
    upper: u64,
    lower: u64,
    panel: &Panel<'_>,
) -> Result<PanelStrokes, AllocError> {
    let needs = needs_strokes(alloc, upper, panel)?;
    let curve = curve_strokes(alloc, lower, panel)?;
    Ok(PanelStrokes { needs, curve })
}

/// Puts a name of any bytes: what could not stand in a document is told otherwise.
fn put_name(out: &mut Vec<u8>, name: &[u8]) -> Result<(), AllocError> {
    for byte in name {
        match *byte {
            b'&' => out.extend_from_slice(b"&amp;")?,
            b'<' => out.extend_from_slice(b"&lt;")?,
            32..=126 => out.push(*byte)?,
            _ => out.push(b'?')?,
        }
    }
    Ok(())
}

/// What runtime is proposed, or that none is enough.
fn put_runtimes_found(
    out: &mut Vec<u8>,
    runtimes: Option<PanelRuntimes>,
) -> Result<(), AllocError> {
    let Some(runtimes) = runtimes else {
        let none = b": no runtime is enough: the darkest jobs may be late with the whole";
        out.extend_from_slice(none)?;
        return Ok(());
    };
    put_number(out, b": runtime ", u64::from(runtimes.proposed))?;
    put_number(out, b" (the least ", u64::from(runtimes.least))?;
    out.extend_from_slice(b") in each")?;
    Ok(())
}

/// What the panels are of.
fn put_title(out: &mut Vec<u8>, panel: &Panel<'_>, y: u64) -> Result<(), AllocError> {
    put_number(out, b"<text class=\"q\" x=\"130\" y=\"", y)?;
    out.extend_from_slice(b"\">")?;
    put_name(out, panel.comm)?;
    put_runtimes_found(out, panel.runtimes)?;
    put_number(out, b" period of ", u64::from(panel.period))?;
    put_number(out, b" us; ", panel.needs.len() as u64)?;
    put_number(
        out,
        b" jobs, each to be done within ",
        u64::from(panel.within),
    )?;
    out.extend_from_slice(b" us</text>\n")?;
    Ok(())
}

/// A line of text at a panel's left.
fn put_side_line(out: &mut Vec<u8>, y: u64, text: &[u8]) -> Result<(), AllocError> {
    put_number(out, b"<text x=\"8\" y=\"", y)?;
    out.extend_from_slice(b"\">")?;
    out.extend_from_slice(text)?;
    out.extend_from_slice(b"</text>")?;
    Ok(())
}

/// What a panel shows, at its left.
fn put_side(out: &mut Vec<u8>, y: u64, first: &[u8], second: &[u8]) -> Result<(), AllocError> {
    put_side_line(out, y, first)?;
    put_side_line(out, y.saturating_add(14), second)?;
    out.push(b'\n')?;
    Ok(())
}

/// The scales of the upper panel.
fn needs_scales(alloc: Global, panel: &Panel<'_>, base: u64) -> Result<Vec<u8>, AllocError> {
    let mut out = Vec::new(alloc);
    put_side(
        &mut out,
        base.saturating_sub(140),
        b"need of a",
        b"job, in us",
    )?;
    put_runtimes(&mut out, base, u64::from(panel.top))?;
    put_time(&mut out, base, panel.span)?;
    Ok(out)
}

/// The scales of the lower panel.
fn curve_scales(alloc: Global, panel: &Panel<'_>, base: u64) -> Result<Vec<u8>, AllocError> {
    let mut out = Vec::new(alloc);
    put_side(
        &mut out,
        base.saturating_sub(140),
        b"runtime for",
        b"n late jobs",
    )?;
    put_runtimes(&mut out, base, u64::from(panel.top))?;
    put_counts(&mut out, base, panel.most)?;
    Ok(out)
}

/// A panel: its strokes, and its scales above them.
fn put_part(out: &mut Vec<u8>, strokes: &[Stroke], scales: &[u8]) -> Result<(), AllocError> {
    put_strokes(out, strokes)?;
    out.extend_from_slice(scales)?;
    Ok(())
}

/// The two panels of a task, below `y`.
pub(crate) fn put_panel(
    alloc: Global,
    out: &mut Vec<u8>,
    panel: &Panel<'_>,
    y: u64,
) -> Result<(), AllocError> {
    let (upper, lower) = (y.saturating_add(180), y.saturating_add(376));
    let strokes = strokes_of(alloc, upper, lower, panel)?;
    put_title(out, panel, y.saturating_add(14))?;
    put_part(out, &strokes.needs, &needs_scales(alloc, panel, upper)?)?;
    put_part(out, &strokes.curve, &curve_scales(alloc, panel, lower)?)
}
