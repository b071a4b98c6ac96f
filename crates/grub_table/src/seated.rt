//! The seat of one pass.
ghost use Rattle.std.specs.Prelude.{◌≡◌, []};
ghost use Rattle.grub_table.specs.Trails.{first_made};
ghost use Rattle.grub_table.specs.Views.{first_of};
ghost use Rattle.grub_table.specs.inside.Trails.{lone};

use crate::view::{Note, Trail};
use atomic_table::Seat;

/// The seat of one pass, and the pass's number.
#[derive(Drop)]
pub(crate) struct Seated {
    pub(crate) seat: Seat<Note, Trail>,
    pub(crate) number: u32,
    ghost single: { seat.me ≡ (lone (first_of seat.me.0.view) (first_made seat.me.0), []) },
    ghost numbered: { (first_of seat.me.0.view).number ≡ number },
}
