//! The lists of the slots: each holds its timers in order, the earliest at its head.
ghost use Rattle.std.specs.Prelude.{◌≡◌, ◌≢◌, ◌<◌, ◌%◌, ℕ, length, false, IfSome, MatchOption};
ghost use Rattle.grub_wheel.specs.inside.Nodes.{key_of, AreInSlots, IsLastOf, node_at, Armed, tasks, links, head_of, IsPointed, AreOthersKept, IsFreed, IsArmedNode};
ghost use Rattle.grub_wheel.specs.inside.Used.{IsMapped};

use crate::node::Node;
use crate::timer::Timer;
use crate::used;

/// How many slots a wheel has.
pub(crate) const SLOTS: usize = 256;

/// The slot of a moment.
pub(crate) fn slot_of(z: u32) -> usize
    ensures { result ≡ z % 256 }
{
    z as usize % SLOTS
}

/// The last node of a slot before this timer.
fn before(nodes: &[Node], heads: &[Option<usize>], slot: usize, timer: Timer) -> Option<usize>
    requires sound { AreInSlots nodes.now heads.now }
    requires slot { slot < 256 }
    ensures { IsLastOf nodes.now slot (key_of timer) result }
{
    let mut before = None;
    let mut at = heads[slot];
    while let Some(i) = at {
        let node = nodes[i];
        if !node.timer.is_before(timer) {
            return before;
        }
        before = at;
        at = node.next;
    }
    before
}

/// What stands behind `before` in its slot, or at the head of the slot.
fn after(
    nodes: &[Node],
    heads: &[Option<usize>],
    slot: usize,
    before: Option<usize>,
) -> Option<usize>
    requires slot { slot < length heads.now }
    requires before { IfSome before (λ i. i < length nodes.now) }
    ensures { MatchOption before (result ≡ head_of heads.now slot)
        (λ i. result ≡ links nodes.now i) }
{
    match before {
        Some(i) => nodes[i].next,
        None => heads[slot],
    }
}

/// Lets `to` stand behind `before` in its slot, or at the head of the slot.
fn point(
    nodes: &mut [Node],
    heads: &mut [Option<usize>],
    slot: usize,
    before: Option<usize>,
    to: Option<usize>,
)
    requires slot { slot < length heads.old }
    requires before { IfSome before (λ i. i < length nodes.old) }
    ensures { IsPointed nodes.old nodes.new heads.old heads.new slot before to }
{
    match before {
        Some(i) => nodes[i].next = to,
        None => heads[slot] = to,
    }
}

/// Arms a timer in the free place `i`.
pub(crate) fn put(
    nodes: &mut [Node],
    heads: &mut [Option<usize>],
    used: &mut [u64; 4],
    i: usize,
    timer: Timer,
)
    requires sound { AreInSlots nodes.old heads.old }
    requires mapped { IsMapped used.old heads.old }
    requires within { i < length nodes.old }
    requires free { (node_at nodes.old i).armed ≡ false }
    requires other { (j : ℕ) → Armed nodes.old j → tasks nodes.old j ≢ timer.t }
    ensures sound { AreInSlots nodes.new heads.new }
    ensures mapped { IsMapped used.new heads.new }
    ensures here { IsArmedNode (node_at nodes.new i) timer }
    ensures others { AreOthersKept nodes.old nodes.new i }
{
    let slot = slot_of(timer.z);
    let before = before(nodes, heads, slot, timer);
    let next = after(nodes, heads, slot, before);
    nodes[i] = Node {
        timer,
        armed: true,
        next,
    };
    point(nodes, heads, slot, before, Some(i));
    used::note(used, heads, slot);
}

/// Takes the armed node `i` out of its slot, and makes it a free place before `free`.
pub(crate) fn take(
    nodes: &mut [Node],
    heads: &mut [Option<usize>],
    used: &mut [u64; 4],
    i: usize,
    free: Option<usize>,
)
    requires sound { AreInSlots nodes.old heads.old }
    requires mapped { IsMapped used.old heads.old }
    requires within { i < length nodes.old }
    requires armed { Armed nodes.old i }
    ensures sound { AreInSlots nodes.new heads.new }
    ensures mapped { IsMapped used.new heads.new }
    ensures here { IsFreed (node_at nodes.new i) free }
    ensures others { AreOthersKept nodes.old nodes.new i }
{
    let node = nodes[i];
    let slot = slot_of(node.timer.z);
    let before = before(nodes, heads, slot, node.timer);
    point(nodes, heads, slot, before, node.next);
    nodes[i] = Node {
        timer: node.timer,
        armed: false,
        next: free,
    };
    used::note(used, heads, slot);
}
