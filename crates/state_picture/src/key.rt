//! The head of a picture: its size, its looks, and what its shapes mean.

use crate::frame::LEFT;
use crate::text::{put, put_seconds, put_seen};
use state_history::Span;
use std::alloc::{AllocError, Global};

/// How wide a picture is.
const WIDTH: u64 = 1290;

/// The looks: states differ in height and in shade, not in hue alone.
const STYLE: &str =
    "<style>text{font:11px sans-serif;fill:#222}.n{font-family:monospace;text-anchor:end}\
.q{font-weight:bold;font-size:13px}.g{stroke:#ddd}.a{stroke:#222}.t{fill:#c6dbef}.w{fill:#2b6cb0}\
.d{fill:none;stroke:#b2182b;stroke-width:1.5;stroke-dasharray:6 3}.running{fill:#14532d}.contending{fill:#7cc48a}\
.throttled{fill:#7b3294}.non-contending{fill:#f4b042}.inactive{fill:#9a9a9a}.z{fill:#222}\
.x{fill:#e31a1c}.f{stroke:#e31a1c;stroke-width:1.5;stroke-dasharray:2 2}.e{fill:#e31a1c;font-weight:bold}</style>\n";

/// What the shapes mean; the plot begins at 176.
const KEY: &str = "\
<rect class=\"t\" x=\"176\" y=\"30\" width=\"18\" height=\"10\"/><text x=\"199\" y=\"39\">this_bw: all tasks on it</text>\
<rect class=\"w\" x=\"352\" y=\"30\" width=\"18\" height=\"10\"/><text x=\"375\" y=\"39\">running_bw: the active ones</text>\
<path class=\"d\" d=\"M556 35h18\"/><text x=\"579\" y=\"39\">admitted: max_bw less extra_bw</text>\
<text x=\"790\" y=\"39\">100 %: the whole processor</text>\n\
<rect class=\"running\" x=\"176\" y=\"48\" width=\"18\" height=\"12\"/><text x=\"199\" y=\"59\">running</text>\
<rect class=\"contending\" x=\"260\" y=\"51\" width=\"18\" height=\"9\"/><text x=\"283\" y=\"59\">ready, not running</text>\
<rect class=\"throttled\" x=\"402\" y=\"54\" width=\"18\" height=\"6\"/><text x=\"425\" y=\"59\">throttled: no budget left</text>\
<rect class=\"non-contending\" x=\"588\" y=\"55\" width=\"18\" height=\"5\"/><text x=\"611\" y=\"59\">blocked, 0-lag time to come (non-contending)</text>\
<rect class=\"inactive\" x=\"872\" y=\"58\" width=\"18\" height=\"2\"/><text x=\"895\" y=\"59\">blocked, 0-lag time past (inactive)</text>\n\
<path class=\"z\" d=\"M185 72m-2 0h4l-2 4z\"/><text x=\"199\" y=\"78\">kernel's 0-lag timer</text>\
<path class=\"z\" d=\"M320 76m-2 0h4l-2 -4z\"/><text x=\"330\" y=\"78\">kernel's replenishment timer</text>\
<path class=\"x\" d=\"M507 69m-4 0h8l-4 8z\"/><text x=\"520\" y=\"78\">a timer that differs from the rules</text>\
<path class=\"f\" d=\"M720 66V80\"/><text x=\"730\" y=\"78\">the first deviation</text>\n";

fn put_heading(
    alloc: Global,
    out: &mut Vec<u8>,
    trace: &str,
    span: Span,
) -> Result<(), AllocError> {
    put(out, "SCHED_DEADLINE in ")?;
    put_seen(out, trace)?;
    put(out, ", ")?;
    put_seconds(alloc, out, span.from)?;
    put(out, " to ")?;
    put_seconds(alloc, out, span.to)?;
    put(out, " s")
}

/// The beginning of a document of this height.
pub(crate) fn put_head(
    alloc: Global,
    out: &mut Vec<u8>,
    trace: &str,
    span: Span,
    height: u64,
) -> Result<(), AllocError> {
    put(
        out,
        format!(in alloc;
            "<svg xmlns=\"http://www.w3.org/2000/svg\" width=\"{WIDTH}\" height=\"{height}\" viewBox=\"0 0 {WIDTH} {height}\">\n<title>"
        )?.as_str(),
    )?;
    put_heading(alloc, out, trace, span)?;
    put(out, "</title>\n")?;
    put(out, STYLE)?;
    put(
        out,
        format!(in alloc;
            "<rect width=\"{WIDTH}\" height=\"{height}\" fill=\"#fff\"/>\n<text class=\"q\" x=\"{LEFT}\" y=\"18\">"
        )?.as_str(),
    )?;
    put_heading(alloc, out, trace, span)?;
    put(out, "</text>\n")?;
    put(out, KEY)
}
