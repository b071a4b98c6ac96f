//! The closing readings.
ghost use Rattle.std.specs.Prelude.{◌≡◌, ◌<◌, ◌≤◌, [], length, vec_capacity};
ghost use Rattle.grub_timeline.specs.inside.Playing.{AreReadings};

use grub_book::{Book, Reading};

/// Puts the reading of each runqueue, in order, into a vector that has room for them.
pub(crate) fn fill_readings(readings: &mut Vec<Reading>, book: &Book<'_>, queues: u32)
    requires queues { queues ≡ length book.now.setup.queues }
    requires empty { readings.old.items ≡ [] }
    requires room { queues ≤ vec_capacity readings.old }
    ensures { AreReadings (length book.now.setup.queues) book.now.records readings.new.items }
{
    for r in 0..queues {
        readings.push_reserved(book.read(r));
    }
}
