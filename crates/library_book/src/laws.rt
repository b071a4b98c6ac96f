//! Laws of the definitions.

ghost use Rattle.std.specs.Prelude.{◌≡◌, ◌≢◌, ℕ, ◌+◌, ◌<◌, None, List, length, fold, slice_set};
ghost use Rattle.grub_book.specs.Bandwidth.{bandwidth_of};
ghost use Rattle.grub_book.specs.Machine.{Machine};
ghost use Rattle.grub_book.specs.Sums.{Records, record_at, reading_of, running_of, this_of};
ghost use Rattle.grub_book.specs.Sound.{IsSound};
ghost use Rattle.grub_book.specs.Rebase.{first_held, book_rebased};
ghost use Rattle.grub_book.specs.Earlier.{forgotten_of};
ghost use Rattle.grub_book.specs.History.{IsLegalFrom, after};
ghost use Rattle.grub_book.specs.declared.event.Event.{Event};
ghost use Rattle.library_book.specs.Recorded.{IsRecordedFrom, book_recorded};
ghost use Rattle.library_book.specs.Earlier.{AreRecordedSince, history_earlier};
ghost use Rattle.library_book.specs.Told.{TellsAll, HasStepsAlone};
ghost use Rattle.library_book.specs.declared.asked.NdEvent.{NdEvent};
ghost use Rattle.library_book.specs.Move.{IsMovable, move_step, moved_to, reply_from};

/// A task that contends on another runqueue, and for which there is room, moves as it is: it takes its bandwidth from
/// running_bw and this_bw of the runqueue that it leaves, and gives it to those of the other. No other runqueue changes.
pub fn moves_shift_sums()
    ensures granted { (s : Machine) (book : Records) (t r from : ℕ) → IsMovable s book t r from
        → move_step s book t r
        ≡ (slice_set book t (moved_to r (record_at book t)), reply_from from) }
    ensures left { (s : Machine) (book : Records) (t r from : ℕ) → t < length book
        → IsMovable s book t r from → let u = bandwidth_of (record_at book t).params in
        (running_of (move_step s book t r).0 from + u ≡ running_of book from)
        × (this_of (move_step s book t r).0 from + u ≡ this_of book from) }
    ensures reached { (s : Machine) (book : Records) (t r from : ℕ) → t < length book
        → IsMovable s book t r from → let u = bandwidth_of (record_at book t).params in
        (running_of (move_step s book t r).0 r ≡ running_of book r + u)
        × (this_of (move_step s book t r).0 r ≡ this_of book r + u) }
    ensures others { (s : Machine) (book : Records) (t r from k : ℕ) → t < length book
        → IsMovable s book t r from → k ≢ from → k ≢ r
        → reading_of (move_step s book t r).0 k ≡ reading_of book k }
{}

/// A recorded history without moves and rebases is the book's exactly where it tells a legal history of `grub_book`, and the
/// book after it is the same.
pub fn histories_are_the_books()
    ensures told { (s : Machine) (book : Records) (xs : List NdEvent) → length book ≡ length s.tasks
        → HasStepsAlone xs → IsRecordedFrom s book xs
        → (h : List Event) × TellsAll xs h × IsLegalFrom s book h
        × (book_recorded s book xs ≡ fold (after s) book h) }
    ensures recorded { (s : Machine) (book : Records) (xs : List NdEvent) (h : List Event)
        → length book ≡ length s.tasks → TellsAll xs h → IsLegalFrom s book h
        → IsRecordedFrom s book xs }
{}

/// A recorded history goes on over a book whose origin of time was moved as it would have, moves of tasks too. Let it be the
/// book's, at moments from the new origin on, with timers whose tickets were given since, or are a waiting task's own. Its
/// moments, deadlines and 0-lag times become less by as much, and its tickets by the count that was forgotten. So it is
/// the rebased book's. The refusals 17 and 21 are left out, which may come later there.
pub fn rebased_histories_go_on()
    ensures { (s : Machine) (book : Records) (by : ℕ) (xs : List NdEvent) → IsSound s book
        → first_held by book ≡ None → IsRecordedFrom s book xs
        → AreRecordedSince by (forgotten_of book) xs
        → IsRecordedFrom s (book_rebased by book) (history_earlier by (forgotten_of book) xs) }
{}
