//! The rule of the table, and what each step tells.
ghost use Rattle.grub_table.specs.inside.Trails.{left_trail, right_trail, joined, spent, counts_load, counts_store, counts_exchange};
ghost use Rattle.grub_table.specs.inside.Tellings.{compares, turns};

use crate::view::{Note, Terms, Trail, View};
use atomic_table::{Join, Play, Split, TableRule};
use std::marker::PhantomData;

/// What holds of all words and seats between any two steps: one history is behind them.
pub struct OneHistory;

impl TableRule<Note, Trail, Terms> for OneHistory {
    ghost use Rattle.grub_table.specs.inside.Trails.{KeptOf, first_trail};

    ghost holds = { λ terms. KeptOf terms };

    ghost first = { λ terms. first_trail terms };
}

/// A load, told as `P` tells it, and counted.
pub struct Loads<P> {
    told: PhantomData<P>,
}

impl<P: Play<Note, View>> Play<Note, Trail> for Loads<P> {
    ghost then = { counts_load P.then };
}

/// A store, told as `P` tells it, and counted.
pub struct Stores<P> {
    told: PhantomData<P>,
}

impl<P: Play<Note, View>> Play<Note, Trail> for Stores<P> {
    ghost then = { counts_store P.then };
}

/// A compare-exchange, told as `P` tells it, and counted.
pub struct Exchanges<P> {
    told: PhantomData<P>,
}

impl<P: Play<Note, View>> Play<Note, Trail> for Exchanges<P> {
    ghost then = { counts_exchange P.then };
}

/// What a step tells the pass that makes it: of the step, the number found (at a store, the number stored), and the pass's share before and after.
pub trait Telling {
    ghost use Rattle.std.specs.Prelude.{ℕ};
    ghost use Rattle.atomic_table.specs.Table.{Step};
    ghost use Rattle.grub_table.specs.declared.view.Note.{Note};
    ghost use Rattle.grub_table.specs.declared.view.Share.{Share};
    ghost use Rattle.grub_table.specs.declared.view.Terms.{Terms};

    ghost tells: { Step Note → ℕ → Terms → Share → Share → Type 0 };
}

/// A step of a seat of one pass, told as `T` tells it.
pub struct Turn<T> {
    told: PhantomData<T>,
}

impl<T: Telling> Play<Note, View> for Turn<T> {
    ghost then = { turns T.tells };
}

/// The meeting of two passes, which tells which of them knows all that the other does.
pub struct Compare;

impl Play<Note, View> for Compare {
    ghost then = { compares };
}

/// The first share is cut off.
pub struct First;

impl Split<Trail> for First {
    ghost left = { left_trail };

    ghost right = { right_trail };
}

/// Two seats become one, which has the shares of both.
pub struct Both;

impl Join<Trail> for Both {
    ghost both = { joined };

    ghost spent = { spent };
}
