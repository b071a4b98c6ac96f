//! The search for the earliest timer that is due.
ghost use Rattle.std.specs.Prelude.{◌≡◌, ◌<◌, ◌≤◌, ℕ, ◌+◌, length, IsTrue, IsSomeAnd, IfSome, ◌↔◌};
ghost use Rattle.grub_wheel.specs.inside.Nodes.{AreInSlots, IsFirstOf, IsNarrowNode, Armed, moments, IsSooner};
ghost use Rattle.grub_wheel.specs.inside.Used.{IsMapped};

use crate::chains::SLOTS;
use crate::node::Node;
use crate::used::next_used;

/// Whether a slot's head is there, and at this moment.
fn is_at(nodes: &[Node], head: Option<usize>, moment: u64) -> bool
    requires { IfSome head (IsNarrowNode nodes.now) }
    ensures { IsTrue result ↔ IsSomeAnd head (λ i. moments nodes.now i ≡ moment) }
{
    match head {
        Some(i) => u64::from(nodes[i].timer.z) == moment,
        None => false,
    }
}

/// Of the best so far and a slot's head, the earlier that is due at m.
fn sooner(nodes: &[Node], best: Option<usize>, head: Option<usize>, m: u32) -> Option<usize>
    requires best { IfSome best (IsNarrowNode nodes.now) }
    requires head { IfSome head (IsNarrowNode nodes.now) }
    ensures { IsSooner nodes.now best head m result }
{
    let Some(i) = head else {
        return best;
    };
    let timer = nodes[i].timer;
    if timer.z > m {
        return best;
    }
    match best {
        Some(j) if nodes[j].timer.is_before(timer) => best,
        _ => head,
    }
}

/// The lesser of a bound and the moment of a slot's head.
fn bound_by(nodes: &[Node], head: Option<usize>, bound: u64) -> u64
    requires { IfSome head (IsNarrowNode nodes.now) }
    ensures bound { result ≤ bound }
    ensures head { IfSome head (λ i. result ≤ moments nodes.now i) }
{
    match head {
        Some(i) => bound.min(u64::from(nodes[i].timer.z)),
        None => bound,
    }
}

/// A moment that no armed timer is before, by the heads of all used slots.
fn least_moment(nodes: &[Node], heads: &[Option<usize>], used: &[u64]) -> u64
    requires sound { AreInSlots nodes.now heads.now }
    requires words { length used.now ≡ 4 }
    requires mapped { IsMapped used.now heads.now }
    ensures { (i : ℕ) → Armed nodes.now i → result ≤ moments nodes.now i }
{
    let mut bound = u64::MAX;
    let mut slot = 0;
    while slot < SLOTS {
        let next = next_used(used, slot);
        if next >= SLOTS {
            return bound;
        }
        bound = bound_by(nodes, heads[next], bound);
        slot = next + 1;
    }
    bound
}

/// A moment after m that no armed timer is before, where none is due at m and none was before `from`. All slots are looked
/// at only where the moments from `from` to m have led through all of them.
pub(crate) fn bound_after(
    nodes: &[Node],
    heads: &[Option<usize>],
    used: &[u64],
    from: u64,
    m: u32,
) -> u64
    requires sound { AreInSlots nodes.now heads.now }
    requires words { length used.now ≡ 4 }
    requires mapped { IsMapped used.now heads.now }
    requires from { from ≤ m }
    requires later { (i : ℕ) → Armed nodes.now i → m < moments nodes.now i }
    ensures bound { (i : ℕ) → Armed nodes.now i → result ≤ moments nodes.now i }
    ensures after { m < result }
{
    let after = u64::from(m) + 1;
    if after - from < SLOTS as u64 {
        after
    } else {
        after.max(least_moment(nodes, heads, used))
    }
}

/// The earliest timer that is due at m, where none is before `from`. Only used slots of the moments from `from` to m are looked at.
pub(crate) fn earliest(
    nodes: &[Node],
    heads: &[Option<usize>],
    used: &[u64],
    from: u64,
    m: u32,
) -> Option<usize>
    requires sound { AreInSlots nodes.now heads.now }
    requires words { length used.now ≡ 4 }
    requires mapped { IsMapped used.now heads.now }
    requires after { (i : ℕ) → Armed nodes.now i → from ≤ moments nodes.now i }
    requires from { from ≤ m + 1 }
    ensures { IsFirstOf nodes.now (λ i. moments nodes.now i ≤ m) result }
{
    let count = (u64::from(m) + 1 - from).min(SLOTS as u64);
    let mut best = None;
    let mut k = 0;
    while k < count {
        let slot = ((from + k) % SLOTS as u64) as usize;
        let at = k + (next_used(used, slot) - slot) as u64;
        if at >= count {
            return best;
        }
        let moment = from + at;
        let head = heads[(moment % SLOTS as u64) as usize];
        if is_at(nodes, head, moment) {
            return head;
        }
        best = sooner(nodes, best, head, m);
        k = at + 1;
    }
    best
}
