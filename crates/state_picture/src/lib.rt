//! The states of a record as a picture, in SVG.
//!
//! What a picture shows, and where, is said by the definitions of specs/; how it looks is not.
#![tactic(auto)]

mod axis;
mod bar;
mod curve;
mod drawing;
mod frame;
mod key;
mod lane;
mod layout;
mod mark;
mod picture;
mod text;

pub use bar::{StateBar, bars_of};
pub use curve::{Point, RunqueueCurves, Sum, curves_of, points_of};
pub use frame::{LEFT, PictureFrame, height_of};
pub use lane::{Lane, LaneRow, lanes_of, rows_of};
pub use layout::{Grain, LaneLayout, layouts_of};
pub use mark::{MarkKind, TimerMark, all_marks_of, marks_of};
pub use picture::picture_of;
