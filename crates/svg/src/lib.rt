//! The shapes of a picture: where moments and bandwidths lie, its head, its time axis and its scales, and the bars of a lane.
#![tactic(auto)]

mod frame;
mod head;
mod shape;
mod text;

pub use frame::{Frame, LEFT, height_of};
pub use head::{put_axis, put_head, put_scale, put_umax};
pub use shape::{Bar, Rect, put_bars, rect_of};
pub use text::{put_number, put_text};
