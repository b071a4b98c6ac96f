//! Laws of a table, over all tables and all passes.

ghost use Rattle.std.specs.Prelude.{◌≡◌, ◌<◌, ◌≤◌, ◌++◌, ◌∷◌, ℕ, List, [], length, slice_index_or};
ghost use Rattle.std.specs.List.{All};
ghost use Rattle.grub_book.specs.Machine.{Machine, queue_at};
ghost use Rattle.grub_book.specs.History.{calls_of, pass_of};
ghost use Rattle.grub_book.specs.declared.event.Event.{Event};
ghost use Rattle.grub_book.specs.declared.event.Reading.{Reading};
ghost use Rattle.grub_table.specs.Histories.{IsHistory};
ghost use Rattle.grub_table.specs.Knowing.{GoesOn, Knows, Learns};
ghost use Rattle.grub_table.specs.Marks.{marker_of};
ghost use Rattle.grub_table.specs.Calls.{seen, terms, AreReadings, IsClosed};
ghost use Rattle.grub_table.specs.declared.pass.Pass.{Pass};
ghost use Rattle.grub_table.specs.declared.shared.Shared.{Shared};
ghost use Rattle.grub_table.specs.declared.view.Mark.{Mark};
ghost use Rattle.grub_table.specs.declared.view.Share.{Share};
ghost use Rattle.grub_table.specs.declared.view.Terms.{Terms};

/// The readings of a closed table are sound: on each runqueue running_bw is at most this_bw, and this_bw at most what the
/// runqueue admits.
pub fn closing_readings_are_sound()
    ensures running { (s : Shared) (ps : List Pass) (last : List Reading) → IsClosed s ps last
        → All (λ x. x.running ≤ x.this) last }
    ensures admitted { (s : Shared) (ps : List Pass) (last : List Reading) (m : Machine) (r : ℕ)
        (d : Reading) → IsClosed s ps last → (terms s).setup ≡ m → r < length last
        → let x = slice_index_or last r d in x.this ≤ (queue_at m r).most }
{}

/// Calls one after another: what a pass learns by the first and then by the next it learns by both together, and what it
/// has learned at last stands in each history and in all marks that it knows then, so in those of a closed table.
pub fn passes_learn_on()
    ensures nothing { (x : Share) → Learns x x [] [] }
    ensures twice { (x y z : Share) (a b : List Event) (m n : List Mark) → Learns x y a m
        → Learns y z b n → Learns x z (a ++ b) (m ++ n) }
    ensures events { (x y : Share) (h : List Event) (ms : List Mark) (a : List Event)
        (m : List Mark) → Learns x y a m → Knows y h ms → GoesOn pass_of x.number x.seen h a }
    ensures marks { (x y : Share) (h : List Event) (ms : List Mark) (a : List Event) (m : List Mark)
        → Learns x y a m → Knows y h ms → GoesOn marker_of x.number x.marks ms m }
{}

/// With one pass a table is the book of one thread: the whole history is what that pass has done, it goes on by just the
/// pass's own events, and the readings at the end are of the book after what the pass has seen.
pub fn one_pass_makes_all()
    ensures history { (T : Terms) (h : List Event) → IsHistory T h → T.passes ≡ 1
        → calls_of 0 h ≡ h }
    ensures more { (T : Terms) (i : ℕ) (before h more : List Event) → T.passes ≡ 1 → i ≡ 0
        → IsHistory T h → GoesOn pass_of i before h more → h ≡ before ++ more }
    ensures readings { (s : Shared) (p : Pass) (last : List Reading) → (terms s).passes ≡ 1
        → IsClosed s (p ∷ []) last → AreReadings (terms s) (seen p) last }
{}
