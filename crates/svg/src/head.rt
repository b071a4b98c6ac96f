//! The head of a picture and its legend, its time axis, and the scale of a runqueue.

use crate::frame::{Frame, height_of};
use crate::text::put_number;
use std::alloc::AllocError;

/// Appends the beginning of a document whose runqueues end at `y`, after its `<svg `, and its legend.
pub fn put_head(out: &mut Vec<u8>, frame: Frame, y: u32) -> Result<(), AllocError> {
    let height = u64::from(y) + 40;
    put_number(
        out,
        b"xmlns=\"http://www.w3.org/2000/svg\" width=\"1190\" height=\"",
        height,
    )?;
    put_number(out, b"\" viewBox=\"0 0 1190 ", height)?;
    out.extend_from_slice(b"\">\n<title>")?;
    put_span(out, frame)?;
    out.extend_from_slice(b"</title>\n")?;
    put_style(out)?;
    put_number(out, b"<rect width=\"1190\" height=\"", height)?;
    out.extend_from_slice(b"\" fill=\"#fff\"/>\n<text class=\"q\" x=\"130\" y=\"18\">")?;
    put_span(out, frame)?;
    out.extend_from_slice(b"</text>\n")?;
    put_key(out)?;
    Ok(())
}

fn put_span(out: &mut Vec<u8>, frame: Frame) -> Result<(), AllocError> {
    put_number(out, b"Time line from ", u64::from(frame.from))?;
    put_number(out, b" to ", u64::from(frame.to))?;
    Ok(())
}

fn put_style(out: &mut Vec<u8>) -> Result<(), AllocError> {
    out.extend_from_slice(
        b"<style>text{font:11px sans-serif;fill:#222}.n{font-family:monospace;text-anchor:end}",
    )?;
    out.extend_from_slice(
        b".q{font-weight:bold;font-size:13px}.g{stroke:#ddd}.a{stroke:#222}.u{stroke:#b2182b;stroke-dasharray:6 3}",
    )?;
    out.extend_from_slice(
        b".t{fill:#bdd7ee}.r{fill:#1f4e79}.c{fill:#2e8b57}.w{fill:#f4b042}.i{fill:#999}.k{stroke:#000;stroke-width:2}</style>\n",
    )?;
    Ok(())
}

/// What the curves mean, and what bars and ticks do.
fn put_key(out: &mut Vec<u8>) -> Result<(), AllocError> {
    out.extend_from_slice(
        b"<rect class=\"t\" x=\"130\" y=\"30\" width=\"18\" height=\"12\"/><text x=\"154\" y=\"40\">this_bw: bandwidth of all tasks on the runqueue</text>\n",
    )?;
    out.extend_from_slice(
        b"<rect class=\"r\" x=\"450\" y=\"30\" width=\"18\" height=\"12\"/><text x=\"474\" y=\"40\">running_bw: of its active tasks</text>\n",
    )?;
    out.extend_from_slice(
        b"<path class=\"u\" d=\"M714 36h18\"/><text x=\"738\" y=\"40\">Umax: the most that is admitted</text>\n",
    )?;
    out.extend_from_slice(b"<text x=\"950\" y=\"40\">100 %: the whole processor</text>\n")?;
    out.extend_from_slice(
        b"<rect class=\"c\" x=\"130\" y=\"49\" width=\"18\" height=\"12\"/><text x=\"154\" y=\"60\">contending: ready or running</text>\n",
    )?;
    out.extend_from_slice(
        b"<rect class=\"w\" x=\"450\" y=\"52\" width=\"18\" height=\"7\"/><text x=\"474\" y=\"60\">blocked, active until its 0-lag time</text>\n",
    )?;
    out.extend_from_slice(
        b"<rect class=\"i\" x=\"714\" y=\"55\" width=\"18\" height=\"2\"/><text x=\"738\" y=\"60\">inactive on this runqueue</text>\n",
    )?;
    out.extend_from_slice(
        b"<path class=\"k\" d=\"M932 48v14\"/><text x=\"950\" y=\"60\">its deadline was postponed</text>\n",
    )?;
    Ok(())
}

/// The marks of the time axis, which stands at `y`, with a pale line up from each, and what stands below it.
pub fn put_axis(out: &mut Vec<u8>, frame: Frame, y: u32) -> Result<(), AllocError> {
    put_axis_marks(out, frame, y, frame.mark_step())?;
    put_number(out, b"<path class=\"a\" d=\"M130 ", u64::from(y))?;
    put_number(out, b"H", frame.right())?;
    put_number(out, b"\"/>\n<text x=\"130\" y=\"", u64::from(y) + 33)?;
    put_number(
        out,
        b"\">moment, in the unit of the files; what is narrower than ",
        u64::from(frame.unit),
    )?;
    out.extend_from_slice(b" px is left out</text>\n")?;
    Ok(())
}

fn put_axis_marks(out: &mut Vec<u8>, frame: Frame, y: u32, step: u32) -> Result<(), AllocError> {
    let first = frame.first_multiple(step);
    for k in 0..frame.multiples(step) {
        put_axis_mark(out, frame, y, (first + k) * u64::from(step))?;
    }
    Ok(())
}

fn put_axis_mark(out: &mut Vec<u8>, frame: Frame, y: u32, m: u64) -> Result<(), AllocError> {
    let x = frame.x(m);
    put_number(out, b"<path class=\"g\" d=\"M", x)?;
    put_number(out, b" 70V", u64::from(y))?;
    put_number(out, b"\"/><path class=\"a\" d=\"M", x)?;
    put_number(out, b" ", u64::from(y))?;
    put_number(out, b"v5\"/><text x=\"", x)?;
    put_number(out, b"\" y=\"", u64::from(y) + 17)?;
    put_number(out, b"\" text-anchor=\"middle\">", m)?;
    out.extend_from_slice(b"</text>\n")?;
    Ok(())
}

/// The marks of the scale of a runqueue.
pub fn put_scale(out: &mut Vec<u8>, frame: Frame, base: u32) -> Result<(), AllocError> {
    put_scale_mark(out, frame, base, 0, b"0 %")?;
    put_scale_mark(out, frame, base, 32, b"50 %")?;
    put_scale_mark(out, frame, base, 64, b"100 %")?;
    Ok(())
}

fn put_scale_mark(
    out: &mut Vec<u8>,
    frame: Frame,
    base: u32,
    height: u32,
    percent: &[u8],
) -> Result<(), AllocError> {
    let y = u64::from(base.saturating_sub(height));
    put_number(out, b"<path class=\"g\" d=\"M130 ", y)?;
    put_number(out, b"H", frame.right())?;
    put_number(out, b"\"/><text class=\"n\" x=\"126\" y=\"", y + 4)?;
    out.extend_from_slice(b"\">")?;
    out.extend_from_slice(percent)?;
    out.extend_from_slice(b"</text>\n")?;
    Ok(())
}

/// A line at the most bandwidth that is admitted.
pub fn put_umax(
    out: &mut Vec<u8>,
    frame: Frame,
    base: u32,
    umax: u32,
    r: u32,
) -> Result<(), AllocError> {
    let y = u64::from(base).saturating_sub(height_of(umax));
    put_number(out, b"<path class=\"u\" d=\"M130 ", y)?;
    put_number(out, b"H", frame.right())?;
    put_number(out, b"\"><title>runqueue ", u64::from(r))?;
    put_number(out, b": Umax is ", u64::from(umax))?;
    put_number(out, b"</title></path><text x=\"", frame.right() + 4)?;
    put_number(out, b"\" y=\"", y + 4)?;
    out.extend_from_slice(b"\">Umax</text>\n")?;
    Ok(())
}
