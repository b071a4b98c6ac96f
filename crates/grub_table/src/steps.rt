//! One access of a word, by the pass whose seat this is.
ghost use Rattle.std.specs.Prelude.{◌≡◌, ◌==◌, [], ◌∷◌, ◌++◌};
ghost use mathlib.Core.Option.{none, some};
ghost use prog.Atomic.{either};
ghost use Rattle.grub_table.specs.declared.view.Access.TheVariants.{Load, Store, Exchange};
ghost use Rattle.grub_table.specs.inside.Between.{made_step, IsAllowed, Tells};
ghost use Rattle.grub_table.specs.Calls.{made_on, IsSeatOf};

use crate::rule::{Telling, Turn};
use crate::seated::Seated;
use crate::shared::Shared;
use crate::view::Note;

impl Shared {
    /// One load by the pass whose seat this is.
    #[inline(always)]
    pub(crate) fn load<T: Telling>(&self, seated: &mut Seated, word: usize) -> u64
        requires of { IsSeatOf self.now seated.old }
        requires allowed { IsAllowed self.now seated.old word
            (λ n. n) (T.tells (made_step self.now word 0 0 none)) }
        ensures told { Tells self.now
            (T.tells (made_step self.now word 0 0 none) result) seated.old seated.new }
        ensures made { made_on seated.new ≡ made_on seated.old ++ Load word ∷ [] }
    {
        self.table.load::<Turn<T>>(&mut seated.seat, word)
    }

    #[inline(always)]
    pub(crate) fn store<T: Telling>(&self, seated: &mut Seated, word: usize, new: u64)
        requires of { IsSeatOf self.now seated.old }
        requires allowed { IsAllowed self.now seated.old word (λ _. new)
            (λ _. T.tells (made_step self.now word new 0 none) new) }
        ensures told { Tells self.now
            (T.tells (made_step self.now word new 0 none) new) seated.old seated.new }
        ensures made { made_on seated.new ≡ made_on seated.old ++ Store word ∷ [] }
    {
        self.table.store::<Turn<T>>(&mut seated.seat, word, new);
    }

    #[inline(always)]
    pub(crate) fn exchange<T: Telling>(
        &self,
        seated: &mut Seated,
        word: usize,
        old: u64,
        new: u64,
    ) -> u64
        requires of { IsSeatOf self.now seated.old }
        requires allowed { IsAllowed self.now seated.old word
            (λ n. either (n == old) new n) (T.tells (made_step self.now word old new none)) }
        ensures told { Tells self.now
            (T.tells (made_step self.now word old new none) result) seated.old seated.new }
        ensures made { made_on seated.new
            ≡ made_on seated.old ++ Exchange word (result == old) ∷ [] }
    {
        self.table
            .compare_exchange::<Turn<T>>(&mut seated.seat, word, old, new)
    }

    /// The same, and the rule is told what it is for.
    #[inline(always)]
    pub(crate) fn exchange_saying<T: Telling>(
        &self,
        seated: &mut Seated,
        word: usize,
        old: u64,
        new: u64,
        said: &Note,
    ) -> u64
        requires of { IsSeatOf self.now seated.old }
        requires allowed { IsAllowed self.now seated.old word (λ n. either (n == old) new n)
            (T.tells (made_step self.now word old new (some said.now))) }
        ensures told { Tells self.now (T.tells (made_step self.now word old new
            (some said.now)) result) seated.old seated.new }
        ensures made { made_on seated.new
            ≡ made_on seated.old ++ Exchange word (result == old) ∷ [] }
    {
        self.table
            .compare_exchange_with::<Turn<T>>(&mut seated.seat, word, old, new, said)
    }
}
