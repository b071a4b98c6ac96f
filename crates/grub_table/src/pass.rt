//! The right to make calls.

ghost use Rattle.std.specs.Prelude.{◌≡◌};
ghost use Rattle.grub_table.specs.Views.{first_of};
ghost use Rattle.grub_table.specs.declared.view.Hold.TheVariants.{Free};

use crate::seated::Seated;

/// The right to make calls under one number. A pass may be dropped; its table then cannot be closed.
#[derive(Drop)]
pub struct Pass {
    pub(crate) seated: Seated,
    ghost free: { (first_of seated.seat.me.0.view).hold ≡ Free },
}

impl Pass {
    ghost use Rattle.grub_table.specs.Calls.{number_of};

    /// Its number: passes count from 0.
    pub fn number(&self) -> u32
        ensures { result ≡ number_of self.now }
    {
        self.seated.number
    }
}
