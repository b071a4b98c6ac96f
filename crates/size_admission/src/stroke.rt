//! Strokes and labels, of which a picture is made.

use std::alloc::AllocError;
use svg::put_number;

/// How a stroke looks.
#[derive(Clone, Copy, Debug, PartialEq, Eq)]
pub enum StrokeLook {
    /// A job that is in time with 15 percent less than the least.
    Pale,

    /// One that may be late then.
    Late,

    /// One that may be late with the least.
    Dark,

    /// The curve of late jobs.
    Curve,

    /// Lines at runtimes.
    Proposed,
    Least,
    Less,

    /// Axes and their marks.
    Axis,
}

/// A line along and then up or down, in pixels.
#[derive(Clone, Copy, Debug, PartialEq, Eq)]
pub struct Stroke {
    pub look: StrokeLook,
    pub x: u64,
    pub y: u64,
    pub to_x: u64,
    pub to_y: u64,
}

fn class_of(look: StrokeLook) -> &'static [u8] {
    match look {
        StrokeLook::Pale => b"b",
        StrokeLook::Late => b"l",
        StrokeLook::Dark => b"d",
        StrokeLook::Curve => b"c",
        StrokeLook::Proposed => b"p",
        StrokeLook::Least => b"m",
        StrokeLook::Less => b"s",
        StrokeLook::Axis => b"a",
    }
}

pub(crate) fn put_stroke(out: &mut Vec<u8>, stroke: Stroke) -> Result<(), AllocError> {
    out.extend_from_slice(b"<path class=\"")?;
    out.extend_from_slice(class_of(stroke.look))?;
    put_number(out, b"\" d=\"M", stroke.x)?;
    put_number(out, b" ", stroke.y)?;
    put_number(out, b"H", stroke.to_x)?;
    put_number(out, b"V", stroke.to_y)?;
    out.extend_from_slice(b"\"/>\n")?;
    Ok(())
}

pub(crate) fn put_strokes(out: &mut Vec<u8>, strokes: &[Stroke]) -> Result<(), AllocError> {
    for stroke in strokes {
        put_stroke(out, *stroke)?;
    }
    Ok(())
}
