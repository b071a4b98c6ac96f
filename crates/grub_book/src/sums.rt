//! What a task adds to the bandwidths of a runqueue.

ghost use Rattle.std.specs.Prelude.{◌≡◌, ◌≤◌, ◌^◌, if◌then◌else◌};
ghost use Rattle.grub_book.specs.Bandwidth.{bandwidth_of};
ghost use Rattle.grub_book.specs.Totals.{Counts, shifted_of};

use crate::Params;
use crate::event::Reading;
use crate::place::Record;

/// The reading of runqueue `r` after a task's record became another: the bandwidth that the old record added to
/// running_bw and this_bw goes, and what the new one adds comes.
pub fn shifted(reading: Reading, r: u32, old: &Record, new: &Record) -> Reading
    requires counts { Counts reading r old.now }
    requires most { reading.this ≤ 2 ^ 20 }
    requires running { reading.running ≤ reading.this }
    ensures { result ≡ shifted_of reading r old.now new.now }
{
    let bw = old.params.bw();
    let new_bw = bandwidth_after(old.params, bw, new.params);
    let running = reading.running - share(old.place.is_active_on(r), bw);
    let this = reading.this - share(old.place.is_on(r), bw);
    Reading {
        running: running + share(new.place.is_active_on(r), new_bw),
        this: this + share(new.place.is_on(r), new_bw),
    }
}

/// The bandwidth of the new reservation, which mostly is the old one: a division is dear, so none is made twice.
fn bandwidth_after(old: Params, bw: u32, new: Params) -> u32
    requires value { bw ≡ bandwidth_of old }
    requires most { bw ≤ 2 ^ 20 }
    ensures value { result ≡ bandwidth_of new }
    ensures most { result ≤ 2 ^ 20 }
{
    if new.runtime() == old.runtime() && new.period() == old.period() {
        bw
    } else {
        new.bw()
    }
}

/// What a task of this bandwidth adds to a sum, where it counts.
fn share(counts: bool, bw: u32) -> u32
    ensures { result ≡ (if counts then bw else 0) }
{
    if counts { bw } else { 0 }
}
