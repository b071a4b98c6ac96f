//! The whole picture.

ghost use Rattle.std.specs.Prelude.{◌<◌, ◌^◌, IfOk, vec_len};

use crate::panel::{HEIGHT, Panel, put_panel};
use std::alloc::{AllocError, Global};
use svg::put_number;

/// A picture is smaller than this, in bytes.
const SIZE_LIMIT: usize = 4194304;

/// Of how many tasks panels may be drawn: the first number is taken that keeps the picture within its limit.
const CUTS: [usize; 8] = [4096, 64, 32, 16, 8, 4, 2, 1];

/// What is given where none of these served.
const NOTHING_DRAWN: &[u8] =
    b"<svg xmlns=\"http://www.w3.org/2000/svg\" width=\"1190\" height=\"40\"><text x=\"8\" y=\"24\">left out, so that this picture is below 4 MiB: all tasks</text></svg>\n";

/// What the lines and the shades mean.
const LEGEND: &[u8] =
    b"<style>text{font:11px sans-serif;fill:#222}path{fill:none;shape-rendering:crispEdges}.q{font-size:13px;font-weight:bold}.n{font-family:monospace;text-anchor:end}.t{text-anchor:middle}
.b{stroke:#9db7cf}.l{stroke:#e08214}.d{stroke:#7f0000}.c{stroke:#1f4e79;stroke-width:2}.a{stroke:#888}
.p{stroke:#1b7837;stroke-dasharray:7 3}.m{stroke:#000}.s{stroke:#b2182b;stroke-dasharray:2 3}</style>
<text class=\"q\" x=\"130\" y=\"18\">What each job needs to be in time</text>
<path class=\"p\" d=\"M130 36h34\"/><text x=\"170\" y=\"40\">the proposed runtime</text><path class=\"m\" d=\"M330 36h34\"/><text x=\"370\" y=\"40\">the least</text><path class=\"s\" d=\"M470 36h34\"/><text x=\"510\" y=\"40\">15 % less</text>
<path class=\"b\" d=\"M620 42v-12\"/><text x=\"628\" y=\"40\">a job</text><path class=\"l\" d=\"M700 42v-12\"/><text x=\"708\" y=\"40\">may be late with 15 % less</text><path class=\"d\" d=\"M900 42v-12\"/><text x=\"908\" y=\"40\">may be late with the least</text>
";

/// The document of so many panels.
fn drawn(alloc: Global, panels: &[Panel<'_>], count: usize) -> Result<Vec<u8>, AllocError> {
    let count = panels.len().min(count);
    let height = (count as u64).saturating_mul(HEIGHT).saturating_add(60);
    let mut out = Vec::new(alloc);
    put_number(
        &mut out,
        b"<svg xmlns=\"http://www.w3.org/2000/svg\" width=\"1190\" height=\"",
        height,
    )?;
    put_number(&mut out, b"\" viewBox=\"0 0 1190 ", height)?;
    put_number(&mut out, b"\">\n<rect width=\"1190\" height=\"", height)?;
    out.extend_from_slice(b"\" fill=\"#fff\"/>\n")?;
    out.extend_from_slice(LEGEND)?;
    if count < panels.len() {
        put_number(
            &mut out,
            b"<text x=\"130\" y=\"56\">left out, so that this picture is below 4 MiB: all tasks after number ",
            count as u64,
        )?;
        out.extend_from_slice(b"</text>\n")?;
    }
    let mut y = 60u64;
    for panel in &panels[..count] {
        put_panel(alloc, &mut out, panel, y)?;
        y = y.saturating_add(HEIGHT);
    }
    out.extend_from_slice(b"</svg>\n")?;
    Ok(out)
}

/// The picture of some tasks, as an SVG document of less than 4 MiB: for each two panels on the scale of runtimes. Above, a bar for
/// each pixel of the record's time in which jobs wake, as high as the greatest need of these; below, the runtime for 0, 1, 2 and
/// more late jobs; in both, lines at what is proposed, at the least and at 15 percent less. Where it would be too long, the last
/// tasks are left out, and it says so. It is refused where the allocator refused.
pub fn sizing_picture(alloc: Global, panels: &[Panel<'_>]) -> Result<Vec<u8>, AllocError>
    ensures short { IfOk result (λ v. vec_len v < 2 ^ 22) }
    ensures some { IfOk result (λ v. 0 < vec_len v) }
{
    for count in CUTS {
        let text = drawn(alloc, panels, count)?;
        if !text.is_empty() && text.len() < SIZE_LIMIT {
            return Ok(text);
        }
    }
    Vec::from_slice(alloc, NOTHING_DRAWN)
}
