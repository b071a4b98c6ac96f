//! Whether a kernel admits the reservations that are proposed, and the tables in which they are told.
#![tactic(auto)]

mod admission;
mod column;
mod document;
mod panel;
mod proposals;
mod scale;
mod stroke;
pub mod table;
mod together;

pub use admission::{Proposal, RootDomain, bandwidth, hundredths};
pub use column::{Column, Need, PANEL};
pub use document::sizing_picture;
pub use panel::{Panel, PanelRuntimes, PanelStrokes, strokes_of};
pub use proposals::put_proposals;
pub use stroke::{Stroke, StrokeLook};
pub use together::{Placed, Together, add_up};
