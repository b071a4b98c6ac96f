//! Maps of 256 bits: of the used slots, and of the tasks whose timers are armed.
ghost use Rattle.std.specs.Prelude.{◌≡◌, ◌≢◌, ◌<◌, ◌≤◌, ℕ, length};
ghost use Rattle.std.specs.Bool.{OnFalse};
ghost use Rattle.grub_wheel.specs.inside.Used.{mark_of, IsMapped, IsMappedBut};

use crate::chains::SLOTS;

/// Marks a slot as used, or a task.
fn mark(used: &mut [u64; 4], slot: usize)
    requires { slot < 256 }
    ensures here { mark_of used.new slot ≡ 1 }
    ensures others { (r : ℕ) → r < 256 → r ≢ slot → mark_of used.new r ≡ mark_of used.old r }
{
    used[slot / 64] |= 1 << (slot % 64);
}

/// Marks a slot as empty, or a task as one with no timer.
fn unmark(used: &mut [u64; 4], slot: usize)
    requires { slot < 256 }
    ensures here { mark_of used.new slot ≡ 0 }
    ensures others { (r : ℕ) → r < 256 → r ≢ slot → mark_of used.new r ≡ mark_of used.old r }
{
    used[slot / 64] &= !(1 << (slot % 64));
}

/// Marks a slot by its head.
pub(crate) fn note(used: &mut [u64; 4], heads: &[Option<usize>], slot: usize)
    requires slot { slot < 256 }
    requires count { length heads.now ≡ 256 }
    requires others { IsMappedBut slot used.old heads.now }
    ensures { IsMapped used.new heads.now }
{
    if heads[slot].is_some() {
        mark(used, slot);
    } else {
        unmark(used, slot);
    }
}

/// Notes that the timer of a task was armed, where the map has the task.
pub(crate) fn note_armed(tasks: &mut [u64; 4], t: u32)
    ensures here { t < 256 → mark_of tasks.new t ≡ 1 }
    ensures others { (r : ℕ) → r < 256 → r ≢ t → mark_of tasks.new r ≡ mark_of tasks.old r }
{
    if t < 256 {
        mark(tasks, t as usize);
    }
}

/// Notes that the timer of a task was taken.
pub(crate) fn note_taken(tasks: &mut [u64; 4], t: u32)
    ensures { (r : ℕ) → r < 256 → r ≢ t → mark_of tasks.new r ≡ mark_of tasks.old r }
{
    if t < 256 {
        unmark(tasks, t as usize);
    }
}

/// Whether the timer of a task may be armed, by the map: it says no only of a task that it has and that is not marked.
pub(crate) fn may_be_armed(tasks: &[u64; 4], t: u32) -> bool
    ensures within { OnFalse result (t < 256) }
    ensures unmarked { OnFalse result (mark_of tasks.now t ≢ 1) }
{
    if t >= 256 {
        return true;
    }
    let slot = t as usize;
    (tasks[slot / 64] >> (slot % 64)) % 2 == 1
}

/// The first used slot from this one on, or 256.
pub(crate) fn next_used(used: &[u64], slot: usize) -> usize
    requires words { length used.now ≡ 4 }
    requires within { slot < 256 }
    ensures low { slot ≤ result }
    ensures high { result ≤ 256 }
    ensures none { (r : ℕ) → slot ≤ r → r < result → mark_of used.now r ≡ 0 }
    ensures used { result < 256 → mark_of used.now result ≡ 1 }
{
    let rest = used[slot / 64] >> (slot % 64);
    if rest != 0 {
        return slot + rest.trailing_zeros() as usize;
    }
    let mut word = slot / 64 + 1;
    while word < 4 {
        let bits = used[word];
        if bits != 0 {
            return word * 64 + bits.trailing_zeros() as usize;
        }
        word += 1;
    }
    SLOTS
}
