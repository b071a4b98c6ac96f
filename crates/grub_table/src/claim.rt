//! A pass that holds a task.

ghost use Rattle.std.specs.Prelude.{◌≡◌};
ghost use Rattle.grub_table.specs.Views.{first_of};
ghost use Rattle.grub_table.specs.declared.view.Hold.TheVariants.{Undecided};

use crate::seated::Seated;
use grub_book::{Op, Record};

/// A pass that holds a task, for an op whose transition is not in the history. It has to be spent, by `finish` or `cancel`: it is neither `Drop` nor `Copy`.
pub struct Claim {
    pub(crate) seated: Seated,
    pub(crate) task: u32,
    pub(crate) op: Op,
    pub(crate) held: Record,
    ghost holds: { (first_of seated.seat.me.0.view).hold ≡ Undecided task op held },
}

impl Claim {
    ghost use Rattle.grub_table.specs.Calls.{claim_op, claim_record, claim_task, claim_share};

    /// The task that it holds.
    pub fn task(&self) -> u32
        ensures { result ≡ claim_task self.now }
    {
        self.task
    }

    /// The op that it is held for.
    pub fn op(&self) -> Op
        ensures { result ≡ claim_op self.now }
    {
        self.op
    }

    /// What the task is while it is held, as the history that its pass has seen leaves it.
    pub fn record(&self) -> Record
        ensures { result ≡ claim_record self.now }
    {
        self.held
    }

    /// The number of its pass.
    pub fn number(&self) -> u32
        ensures { result ≡ (claim_share self.now).number }
    {
        self.seated.number
    }
}
