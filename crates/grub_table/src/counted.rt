//! The words of a table, and the only way to them: each access is counted for the pass that makes it.
ghost use Rattle.std.specs.Prelude.{◌≡◌, ◌<◌, [], IfOk, length, ◌==◌};
ghost use mathlib.Core.Option.{none, some};
ghost use prog.Atomic.{either};
ghost use Rattle.atomic_table.specs.Table.{opening, Splits, Joins, Final, Seen};
ghost use Rattle.std.specs.Mem.Slots.{slots_items, slots_len, IsFull};
ghost use Rattle.grub_table.specs.inside.Counted.{id_of, step_at, terms_of, MayStep};
ghost use Rattle.grub_table.specs.inside.Rule.{Kept};
ghost use Rattle.grub_table.specs.inside.Trails.{known, first_trail, left_trail, right_trail, joined, each_after};
ghost use Rattle.grub_table.specs.inside.Views.{first_view, without_first, only_first, both_of, nothing};
ghost use Rattle.grub_table.specs.declared.view.Access.TheVariants.{Load, Store, Exchange};
ghost use Rattle.grub_table.specs.declared.view.Note.{Note};

use crate::rule::{Both, Exchanges, First, Loads, OneHistory, Stores};
use crate::view::{Note, Terms, Trail, View};
use atomic_table::{Closed, Play, Seat, Table};
use std::alloc::{AllocError, Global};

/// A table whose seats know the accesses that they made. Its field is private, so no other module can step on a word without being counted.
#[derive(Drop)]
pub(crate) struct CountedTable {
    inner: Table<Note, Trail, Terms, OneHistory, Global>,
}

impl CountedTable {
    /// A table of these words, and the seat of all its passes.
    pub(crate) fn of_words(
        alloc: Global,
        words: &[u64],
        terms: &Terms,
    ) -> Result<(CountedTable, Seat<Note, Trail>), AllocError>
        requires { Kept terms.now {S = Note} (opening words.now [] (first_view terms.now)) }
        ensures words { IfOk result (λ t. (id_of t.0).words ≡ length words.now) }
        ensures slots { IfOk result (λ t. (id_of t.0).slots ≡ 0) }
        ensures key { IfOk result (λ t. terms_of t.0 ≡ terms.now) }
        ensures home { IfOk result (λ t. t.1.table_id ≡ id_of t.0) }
        ensures whole { IfOk result (λ t. t.1.me ≡ (first_trail terms.now, [])) }
    {
        let (inner, seat) = Table::of_words(alloc, words, terms)?;
        Ok((CountedTable { inner }, seat))
    }

    /// Loads the word, and counts it.
    #[inline(always)]
    pub(crate) fn load<P: Play<Note, View>>(&self, seat: &mut Seat<Note, Trail>, word: usize) -> u64
        requires { MayStep self.now seat.old word (λ n. n)
            (P.then (step_at self.now word 0 0 none) (known seat.old.me)) }
        ensures home { seat.new.table_id ≡ seat.old.table_id }
        ensures told { P.then (step_at self.now word 0 0 none) (known seat.old.me) result
            (known seat.new.me) }
        ensures made { seat.new.me.0.made ≡ each_after seat.old.me.0.made (Load word) }
    {
        self.inner.shared.load::<Loads<P>>(seat, word)
    }

    /// Stores into the word, and counts it.
    #[inline(always)]
    pub(crate) fn store<P: Play<Note, View>>(
        &self,
        seat: &mut Seat<Note, Trail>,
        word: usize,
        new: u64,
    )
        requires { MayStep self.now seat.old word (λ _. new)
            (λ _. P.then (step_at self.now word new 0 none) (known seat.old.me) new) }
        ensures home { seat.new.table_id ≡ seat.old.table_id }
        ensures told { P.then (step_at self.now word new 0 none) (known seat.old.me) new
            (known seat.new.me) }
        ensures made { seat.new.me.0.made ≡ each_after seat.old.me.0.made (Store word) }
    {
        self.inner.shared.store::<Stores<P>>(seat, word, new)
    }

    /// Exchanges the word where it is `old`, answers what it was, and counts it.
    #[inline(always)]
    pub(crate) fn compare_exchange<P: Play<Note, View>>(
        &self,
        seat: &mut Seat<Note, Trail>,
        word: usize,
        old: u64,
        new: u64,
    ) -> u64
        requires { MayStep self.now seat.old word (λ n. either (n == old) new n)
            (P.then (step_at self.now word old new none) (known seat.old.me)) }
        ensures home { seat.new.table_id ≡ seat.old.table_id }
        ensures told { P.then (step_at self.now word old new none) (known seat.old.me) result
            (known seat.new.me) }
        ensures made { seat.new.me.0.made
            ≡ each_after seat.old.me.0.made (Exchange word (result == old)) }
    {
        self.inner
            .shared
            .compare_exchange::<Exchanges<P>>(seat, word, old, new)
    }

    /// The same, with a note of the call that makes it.
    #[inline(always)]
    pub(crate) fn compare_exchange_with<P: Play<Note, View>>(
        &self,
        seat: &mut Seat<Note, Trail>,
        word: usize,
        old: u64,
        new: u64,
        said: &Note,
    ) -> u64
        requires { MayStep self.now seat.old word (λ n. either (n == old) new n)
            (P.then (step_at self.now word old new (some said.now)) (known seat.old.me)) }
        ensures home { seat.new.table_id ≡ seat.old.table_id }
        ensures told { P.then (step_at self.now word old new (some said.now))
            (known seat.old.me) result (known seat.new.me) }
        ensures made { seat.new.me.0.made
            ≡ each_after seat.old.me.0.made (Exchange word (result == old)) }
    {
        self.inner
            .shared
            .compare_exchange_with::<Exchanges<P>>(seat, word, old, new, said)
    }

    /// The first pass of the seat gets a seat of its own. One load of word 0.
    pub(crate) fn split_seat(&self, seat: &mut Seat<Note, Trail>) -> Seat<Note, Trail>
        requires { (seat.old.table_id ≡ id_of self.now) × (0 < (id_of self.now).words)
            × Splits (Kept (terms_of self.now) {S = Note}) seat.old.id seat.old.me.0.view
            (without_first seat.old.me.0.view) (only_first seat.old.me.0.view) }
        ensures home { seat.new.table_id ≡ seat.old.table_id }
        ensures left { seat.new.me ≡ (left_trail seat.old.me.0, seat.old.me.1) }
        ensures other { result.table_id ≡ seat.old.table_id }
        ensures right { result.me ≡ (right_trail seat.old.me.0, []) }
    {
        self.inner.shared.split_seat::<First>(seat)
    }

    /// The seat takes in the passes of another. One load of word 0.
    pub(crate) fn join_seat(&self, seat: &mut Seat<Note, Trail>, other: Seat<Note, Trail>)
        requires { (seat.old.table_id ≡ id_of self.now) × (other.table_id ≡ id_of self.now)
            × (other.me.1 ≡ []) × (0 < (id_of self.now).words)
            × Joins (Kept (terms_of self.now) {S = Note}) seat.old.id seat.old.me.0.view
            other.id other.me.0.view (both_of seat.old.me.0.view other.me.0.view) nothing }
        ensures home { seat.new.table_id ≡ seat.old.table_id }
        ensures both { seat.new.me ≡ (joined seat.old.me.0 other.me.0, seat.old.me.1) }
    {
        self.inner.shared.join_seat::<Both>(seat, other)
    }

    /// The words at the end, with what the seat knows.
    pub(crate) fn close_with(self, seat: Seat<Note, Trail>) -> Closed<Note, Global>
        requires { seat.table_id ≡ id_of self }
        ensures counts { (slots_len result.words ≡ (id_of self).words)
            × (slots_len result.slots ≡ (id_of self).slots) }
        ensures values { IsFull result.words × IsFull result.slots
            × Final (Seen (Kept (terms_of self) {S = Note}) seat.id seat.me.0.view)
            (slots_items result.words) (slots_items result.slots) }
    {
        let CountedTable { inner } = self;
        inner.close_with(seat)
    }
}
