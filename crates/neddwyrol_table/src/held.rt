//! What a handle leads to.

ghost use Rattle.std.specs.Prelude.{◌≡◌, Some, None};

use grub_table::{Claim, Pass, Shared};
use std::alloc::Global;
use std::mem::ManuallyDrop;
use std::sync::Arc;

/// A pass beside its table, and other passes of it that were gathered.
#[derive(Drop)]
pub struct Kept {
    pub(crate) shared: Arc<Shared, Global>,
    pub(crate) pass: Pass,
    pub(crate) gathered: Vec<Pass>,
}

/// A pass that holds a task, beside its table, and what it had gathered. C owes that the claim is spent.
#[derive(Drop)]
pub struct Taken {
    pub(crate) shared: Arc<Shared, Global>,
    pub(crate) claim: ManuallyDrop<Claim>,
    pub(crate) gathered: Vec<Pass>,
}

/// What is kept between two calls: a pass, or a claim. A claim has the room of its pass, so that no call of it takes memory.
#[derive(Drop)]
pub struct Held {
    pub(crate) kept: Option<Kept>,
    pub(crate) taken: Option<Taken>,
}

impl Held {
    pub(crate) fn of_pass(kept: Kept) -> Held
        ensures { (result.kept ≡ Some kept) × (result.taken ≡ None) }
    {
        Held {
            kept: Some(kept),
            taken: None,
        }
    }

    pub(crate) fn of_claim(taken: Taken) -> Held
        ensures { (result.kept ≡ None) × (result.taken ≡ Some taken) }
    {
        Held {
            kept: None,
            taken: Some(taken),
        }
    }
}
