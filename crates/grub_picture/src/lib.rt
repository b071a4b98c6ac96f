//! A picture of a time line, as an SVG document.
#![tactic(auto)]

mod bars;
mod curve;
mod drawing;
mod lane;
mod layout;
mod picture;
mod tick;

pub use bars::bars_of;
pub use curve::{CurvePoint, points_of};
pub use lane::lanes_of;
pub use layout::{LaneLayout, RunqueueLayout, Scene, layout_of, owns_of};
pub use picture::{end_of, picture_text};
pub use tick::{Tick, ticks_of};
