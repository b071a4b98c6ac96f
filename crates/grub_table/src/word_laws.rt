//! Laws of the words, over all values, for a reader who compares words alone.

ghost use Rattle.std.specs.Prelude.{◌≡◌, ◌≢◌, ◌↔◌, ◌+◌, ◌/◌, ◌%◌, ◌^◌, ◌<◌, ◌≤◌, ℕ, Bool, true, false, IsTrue, length};
ghost use Rattle.grub_book.specs.declared.rules.TheConstants.{COUNT_MAX};
ghost use Rattle.grub_book.specs.Bandwidth.{Reservation, IsReservation, IsCapacity};
ghost use Rattle.grub_book.specs.declared.server.Server.{Server};
ghost use Rattle.grub_book.specs.Machine.{Machine, IsMachine, queue_at};
ghost use Rattle.grub_book.specs.Sums.{Records, reading_of};
ghost use Rattle.grub_book.specs.Sound.{IsKept, IsSound};
ghost use Rattle.grub_book.specs.declared.event.Reading.{Reading};
ghost use Rattle.grub_book.specs.declared.place.Place.{Place};
ghost use Rattle.grub_book.specs.declared.place.Record.{Record};
ghost use Rattle.grub_table.specs.Words.{queue_word, server_word, params_word, task_word, QueueFits, ServerFits, PlaceFits};

/// Two values of one kind that have one word are one.
pub fn words_tell_their_values()
    ensures queue { (a b : Reading) → QueueFits a → QueueFits b
        → queue_word a ≡ queue_word b → a ≡ b }
    ensures server { (a b : Server) → ServerFits a → ServerFits b
        → server_word a ≡ server_word b → a ≡ b }
    ensures params { (a b : Reservation) → IsReservation a → IsReservation b
        → params_word a ≡ params_word b → a ≡ b }
    ensures task { (p q : Place) (m n : ℕ) (a b : Bool) → PlaceFits p → PlaceFits q
        → task_word p m a ≡ task_word q n b → (p ≡ q) × (m ≡ n) × (a ≡ b) }
{}

/// A claim sets bit 3 of a task's word and changes nothing else, and no claimed task has the word of an unclaimed one, wherever the two are.
pub fn claims_are_one_bit()
    ensures set { (place : Place) (count : ℕ)
        → task_word place count true ≡ task_word place count false + 2 ^ 3 }
    ensures test { (place : Place) (count : ℕ) (claimed : Bool) → IsTrue claimed
        ↔ (task_word place count claimed / 2 ^ 3 % 2 ≡ 1) }
    ensures apart { (p q : Place) (m n : ℕ) → task_word p m true ≢ task_word q n false }
{}

/// Every word has at most 64 bits.
pub fn words_have_64_bits()
    ensures queue { (now : Reading) → QueueFits now → queue_word now < 2 ^ 64 }
    ensures server { (s : Server) → ServerFits s → s.d < 2 ^ 32 → server_word s < 2 ^ 64 }
    ensures params { (p : Reservation) → IsReservation p → params_word p < 2 ^ 64 }
    ensures task { (place : Place) (count : ℕ) (claimed : Bool) → PlaceFits place
        → count ≤ COUNT_MAX → task_word place count claimed < 2 ^ 36 }
{}

/// In a sound book every reading, place, count and server has a word.
pub fn sound_books_have_words()
    ensures queue { (s : Machine) (book : Records) (r : ℕ) → IsSound s book → r < length s.queues
        → IsCapacity (queue_at s r) → QueueFits (reading_of book r) }
    ensures place { (s : Machine) (x : Record) → IsMachine s → IsKept s x → PlaceFits x.place }
    ensures count { (s : Machine) (x : Record) → IsKept s x → x.count ≤ COUNT_MAX }
    ensures server { (s : Machine) (x : Record) → IsKept s x
        → ServerFits x.server × (x.server.d < 2 ^ 32) }
{}
