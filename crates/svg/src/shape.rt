//! The bars of a lane: where their rectangles stand, and what they tell.

use crate::frame::Frame;
use crate::text::{put_number, put_text};
use grub_book::State;
use std::alloc::AllocError;

/// A time in which a task kept its state on a runqueue.
#[derive(Clone, Copy)]
pub struct Bar {
    /// The state.
    pub state: State,

    /// The moment at which it came to it.
    pub from: u32,

    /// The moment at which it left it, or the end of a picture.
    pub to: u32,
}

/// The rectangle of a bar, in pixels.
#[derive(Clone, Copy)]
pub struct Rect {
    /// How far right it begins.
    pub x: u64,

    pub width: u64,

    pub bar: Bar,
}

/// The rectangle of a bar, from where its first moment lies to its last; none where it is less than a unit wide.
pub fn rect_of(frame: Frame, bar: Bar) -> Option<Rect> {
    let x = frame.x(u64::from(bar.from));
    let width = frame.x(u64::from(bar.to)).saturating_sub(x);
    if width == 0 {
        None
    } else {
        Some(Rect { x, width, bar })
    }
}

/// Appends the name of a task on runqueue `r`, and the rectangles of its bars, in the lane at `y`.
pub fn put_bars(
    out: &mut Vec<u8>,
    r: u32,
    name: &str,
    rects: &[Rect],
    y: u32,
) -> Result<(), AllocError> {
    put_number(out, b"<text class=\"n\" x=\"126\" y=\"", u64::from(y) + 12)?;
    out.extend_from_slice(b"\">")?;
    put_text(out, name)?;
    out.extend_from_slice(b"</text>\n")?;
    for rect in rects {
        put_rect(out, *rect, y)?;
        put_title(out, r, name, rect.bar)?;
    }
    Ok(())
}

fn put_rect(out: &mut Vec<u8>, rect: Rect, y: u32) -> Result<(), AllocError> {
    let look = look_of(rect.bar.state);
    out.extend_from_slice(b"<rect class=\"")?;
    out.extend_from_slice(look.class)?;
    put_number(out, b"\" x=\"", rect.x)?;
    put_number(out, b"\" y=\"", u64::from(y) + u64::from(look.top))?;
    put_number(out, b"\" width=\"", rect.width)?;
    put_number(out, b"\" height=\"", u64::from(look.height))?;
    out.extend_from_slice(b"\">")?;
    Ok(())
}

/// What a bar is, from when to when.
fn put_title(out: &mut Vec<u8>, r: u32, name: &str, bar: Bar) -> Result<(), AllocError> {
    out.extend_from_slice(b"<title>")?;
    put_text(out, name)?;
    out.extend_from_slice(b" ")?;
    out.extend_from_slice(look_of(bar.state).word)?;
    put_number(out, b" on runqueue ", u64::from(r))?;
    put_number(out, b", from ", u64::from(bar.from))?;
    put_number(out, b" to ", u64::from(bar.to))?;
    out.extend_from_slice(b"</title></rect>\n")?;
    Ok(())
}

/// How a state is drawn.
#[derive(Clone, Copy)]
struct Look {
    class: &'static [u8],

    /// How far below the lane's top.
    top: u32,

    height: u32,

    word: &'static [u8],
}

fn look_of(state: State) -> Look {
    match state {
        State::Contending => Look {
            class: b"c",
            top: 2,
            height: 12,
            word: b"contending",
        },
        State::NonContending => Look {
            class: b"w",
            top: 5,
            height: 7,
            word: b"waiting for its 0-lag time",
        },
        State::Inactive => Look {
            class: b"i",
            top: 8,
            height: 2,
            word: b"inactive",
        },
    }
}
