//! What is counted of a runqueue over a time line.

ghost use Rattle.std.specs.Prelude.{◌+◌, ◌<◌, ◌≤◌, ◌^◌, ℕ};
ghost use Rattle.grub_views.specs.inside.Within.{IsMeterWithin};

use grub_book::Reading;
use grub_timeline::Step;

/// What is counted of a runqueue.
#[derive(Clone, Copy)]
pub struct Usage {
    /// Entries after which its reading is another than before.
    pub changes: usize,

    /// running_bw over time, from 0 to the last entry.
    pub running: u128,

    /// this_bw over time, from 0 to the last entry.
    pub this: u128,

    /// The greatest running_bw and this_bw after an entry.
    pub most: Reading,
}

const NO_READING: Reading = Reading {
    running: 0,
    this: 0,
};

/// What is counted of a runqueue over the steps so far, and where it stands.
#[derive(Clone, Copy)]
pub struct Meter {
    queue: u32,

    /// The reading after the last step.
    now: Reading,

    /// The moment of the last step.
    pub from: u32,

    pub usage: Usage,
}

impl Meter {
    /// Of no step yet.
    pub(crate) fn new(queue: u32) -> Meter
        ensures { IsMeterWithin 0 result }
    {
        Meter {
            queue,
            now: NO_READING,
            from: 0,
            usage: Usage {
                changes: 0,
                running: 0,
                this: 0,
                most: NO_READING,
            },
        }
    }

    /// With one step more, of whichever runqueue.
    pub(crate) fn and(self, x: &Step) -> Meter
        requires { (n : ℕ) × (n + 1 < 2 ^ 64) × IsMeterWithin n self }
        ensures within { (n : ℕ) → IsMeterWithin n self → IsMeterWithin (n + 1) result }
    {
        let m = x.told.entry.m;
        let width = m.saturating_sub(self.from);
        let next = reading_after(self.queue, self.now, x);
        Meter {
            queue: self.queue,
            now: next,
            from: m,
            usage: Usage {
                changes: self.usage.changes + change_count(self.now, next),
                running: self.usage.running + area(self.now.running, width),
                this: self.usage.this + area(self.now.this, width),
                most: greater(self.usage.most, next),
            },
        }
    }
}

/// The reading of runqueue `r` after a step, where it was `now` before.
fn reading_after(r: u32, now: Reading, x: &Step) -> Reading {
    if x.queue == r { x.reading } else { now }
}

/// One where the reading is another.
fn change_count(now: Reading, next: Reading) -> usize
    ensures most { result ≤ 1 }
{
    if now.running == next.running && now.this == next.this {
        0
    } else {
        1
    }
}

fn area(height: u32, width: u32) -> u128
    ensures most { result ≤ 18446744073709551616 }
{
    u128::from(u64::from(height) * u64::from(width))
}

fn greater(a: Reading, b: Reading) -> Reading {
    Reading {
        running: a.running.max(b.running),
        this: a.this.max(b.this),
    }
}
