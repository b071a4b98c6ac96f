//! The word of a runqueue: running_bw in bits 0 to 31, and this_bw in bits 32 to 63, in 1/2^20.

ghost use Rattle.std.specs.Prelude.{◌≡◌, ◌≢◌, ◌↔◌, IsTrue, IsNone, Some};
ghost use Rattle.grub_book.specs.declared.event.Reading.{Reading};
ghost use Rattle.grub_table.specs.Words.{queue_word, QueueFits};

use crate::bits::{halves, join_halves};
use grub_book::{BW_UNIT, Reading};

/// Whether the reading has a word: running_bw is at most this_bw, and this_bw at most one.
pub fn queue_fits(reading: Reading) -> bool
    ensures { IsTrue result ↔ QueueFits reading }
{
    reading.running <= reading.this && reading.this <= BW_UNIT
}

/// The word of the reading.
pub fn pack_queue(reading: Reading) -> u64
    requires { QueueFits reading }
    ensures { result ≡ queue_word reading }
{
    join_halves(reading.running, reading.this)
}

/// The one reading that has this word; none where there is none.
pub fn unpack_queue(word: u64) -> Option<Reading>
    ensures found { (now : Reading) → (result ≡ Some now)
        ↔ (QueueFits now × (queue_word now ≡ word)) }
    ensures none { IsNone result ↔ ((now : Reading) → QueueFits now → queue_word now ≢ word) }
{
    let (running, this) = halves(word);
    let reading = Reading { running, this };
    if queue_fits(reading) {
        Some(reading)
    } else {
        None
    }
}
