//! Timers in slots by their moments.
ghost use Rattle.std.specs.Prelude.{◌≡◌, ◌≢◌, ◌+◌, ◌<◌, ◌≤◌, ◌↔◌, ℕ, Some, None, IfOk, IsOk, OnOk, OnErr, IfSome, IfNone, IsTrue, length};
ghost use Rattle.std.specs.Bool.{OnTrue, OnFalse};
ghost use Rattle.std.specs.FinMap as map;
ghost use Rattle.grub_wheel.specs.TimerBag.{IsArmed, IsArmedWith, IsLeast, AreLater, fresh, after_arming, after_taking};
ghost use Rattle.grub_wheel.specs.inside.Nodes.{Armed, tasks, free_node};
ghost use Rattle.grub_wheel.specs.inside.Used.{AreMarked};

use crate::chains::{SLOTS, put, take};
use crate::fault::WheelFault;
use crate::node::Node;
use crate::scan::{bound_after, earliest};
use crate::timer::Timer;
use crate::used::{may_be_armed, note_armed, note_taken};
use std::alloc::Global;
use std::marker::Model;

/// The armed timers of a worker, at most one for each task. A timer at moment z stands in slot z mod 256.
/// Slots and free places are lists of nodes of one vector, so that one place serves any slot.
#[derive(Drop)]
pub struct Wheel {
    nodes: Vec<Node>,

    /// The earliest node of each slot.
    heads: Vec<Option<usize>>,

    /// A bit for each slot that is not empty.
    used: [u64; 4],

    /// A bit for each task below 256 whose timer is armed.
    tasks: [u64; 4],
    free: Option<usize>,
    spare: usize,

    /// No armed timer is before this moment.
    from: u64,
    last: Option<u32>,
}

impl Model for Wheel {
    ghost use Rattle.std.specs.FinMap as map;
    ghost use Rattle.grub_wheel.specs.TimerBag.{WheelState, wheel_code};

    ghost Value = { WheelState };

    ghost coded = { wheel_code };

    ghost use Rattle.grub_wheel.specs.inside.Order.{entries_of};
    ghost use Rattle.grub_wheel.specs.inside.Nodes.{timers_of, IsHashed};
    ghost use Rattle.grub_wheel.specs.inside.Used.{AreMarked, IsMapped};

    ghost view = { λ w. record {
      timers = map.from_entries (entries_of (timers_of w.nodes.items));
      spare = w.spare;
      last = w.last;
    } };

    ghost invariant = { λ w. record {
      hashed : IsHashed w.nodes.items w.heads.items w.free w.spare w.from;
      mapped : IsMapped w.used w.heads.items;
      marked : AreMarked w.tasks w.nodes.items;
    } };
}

impl Wheel {
    /// A wheel with no timer and no place for one. A refused growth gives 27, `NoMemory`.
    pub fn new(alloc: Global) -> Result<Wheel, WheelFault>
        ensures { IfOk result (λ w. w ≡ fresh) }
    {
        let Ok(heads) = vec![in alloc; None; SLOTS] else {
            return Err(WheelFault::NoMemory);
        };
        Ok(Wheel {
            nodes: Vec::new(alloc),
            heads,
            used: [0; 4],
            tasks: [0; 4],
            free: None,
            spare: 0,
            from: 0,
            last: None,
        })
    }

    /// How many more timers have a place.
    pub fn spare(&self) -> usize
        ensures { result ≡ self.now.spare }
    {
        self.spare
    }

    /// The moment of the latest `due`, where there was one.
    pub fn last(&self) -> Option<u32>
        ensures { result ≡ self.now.last }
    {
        self.last
    }

    /// Makes one place for a timer, where there is none. A refused growth gives 27, `NoMemory`, and then nothing changed.
    /// Where a place is spare, nothing changes either, and nothing is refused.
    pub fn reserve_one(&mut self) -> Result<(), WheelFault>
        ensures place { OnOk result (1 ≤ self.new.spare) }
        ensures one { self.old.spare ≡ 0 → OnOk result (self.new.spare ≡ 1) }
        ensures timers { OnOk result (self.new.timers ≡ self.old.timers) }
        ensures last { OnOk result (self.new.last ≡ self.old.last) }
        ensures err { OnErr result (self.new ≡ self.old) }
        ensures spared { 1 ≤ self.old.spare → IsOk result }
        ensures kept { 1 ≤ self.old.spare → self.new ≡ self.old }
    {
        if self.spare == 0 {
            self.add_place()
        } else {
            Ok(())
        }
    }

    /// Makes one place more for a timer. A refused growth gives 27, `NoMemory`, and then nothing changed.
    pub fn add_place(&mut self) -> Result<(), WheelFault>
        ensures place { OnOk result (self.new ≡ record self.old { spare = self.old.spare + 1 }) }
        ensures err { OnErr result (self.new ≡ self.old) }
    {
        if self.nodes.reserve(1).is_err() {
            return Err(WheelFault::NoMemory);
        }
        let place = self.nodes.len();
        self.nodes.push_reserved(free_node(self.free));
        self.free = Some(place);
        self.spare += 1;
        Ok(())
    }

    /// The timer of task `t`, where one is armed.
    pub fn armed(&self, t: u32) -> Option<Timer>
        ensures armed { IfSome result (IsArmed self.now.timers) }
        ensures task { IfSome result (λ x. x.t ≡ t) }
        ensures none { IfNone result (map.get self.now.timers t ≡ None) }
    {
        let i = place_of(&self.nodes, &self.tasks, t)?;
        Some(self.nodes[i].timer)
    }

    /// Arms the timer of task `t`, which has none armed, at moment `z`, in a place that is spare. The moment is later than
    /// that of the latest `due`.
    pub fn arm(&mut self, z: u32, t: u32, ticket: u32)
        requires room { 1 ≤ self.old.spare }
        requires free { map.get self.old.timers t ≡ None }
        requires later { IfSome self.old.last (λ m. m < z) }
        ensures { self.new ≡ after_arming self.old (record { z = z; t = t; ticket = ticket }) }
    {
        let Some(i) = self.free else {
            unreachable!();
        };
        let free = self.nodes[i].next;
        put(
            &mut self.nodes,
            &mut self.heads,
            &mut self.used,
            i,
            Timer { z, t, ticket },
        );
        note_armed(&mut self.tasks, t);
        self.free = free;
        self.spare -= 1;
        self.from = self.from.min(u64::from(z));
    }

    /// Takes out the timer of task `t`, where one is armed with this ticket.
    pub fn cancel(&mut self, t: u32, ticket: u32) -> bool
        ensures answer { IsTrue result ↔ IsArmedWith self.old.timers t ticket }
        ensures taken { OnTrue result (self.new ≡ after_taking self.old t) }
        ensures kept { OnFalse result (self.new ≡ self.old) }
    {
        match place_of(&self.nodes, &self.tasks, t) {
            Some(i) if self.nodes[i].timer.ticket == ticket => {
                take(
                    &mut self.nodes,
                    &mut self.heads,
                    &mut self.used,
                    i,
                    self.free,
                );
                note_taken(&mut self.tasks, t);
                self.free = Some(i);
                self.spare += 1;
                true
            }
            _ => false,
        }
    }

    /// Takes out the least timer whose moment is `m` or before, by moment, then by task, then by ticket. `m` is not before
    /// the moment of the latest `due`.
    pub fn due(&mut self, m: u32) -> Option<Timer>
        requires { IfSome self.old.last (λ before. before ≤ m) }
        ensures armed { IfSome result (IsArmed self.old.timers) }
        ensures due { IfSome result (λ x. x.z ≤ m) }
        ensures least { IfSome result (IsLeast self.old.timers) }
        ensures none { IfNone result (AreLater self.old.timers m) }
        ensures taken { IfSome result
            (λ x. self.new ≡ record (after_taking self.old x.t) { last = Some m }) }
        ensures kept { IfNone result (self.new ≡ record self.old { last = Some m }) }
    {
        self.last = Some(m);
        if u64::from(m) < self.from {
            return None;
        }
        let Some(first) = earliest(&self.nodes, &self.heads, &self.used, self.from, m) else {
            self.from = bound_after(&self.nodes, &self.heads, &self.used, self.from, m);
            return None;
        };
        let timer = self.nodes[first].timer;
        take(
            &mut self.nodes,
            &mut self.heads,
            &mut self.used,
            first,
            self.free,
        );
        note_taken(&mut self.tasks, timer.t);
        self.free = Some(first);
        self.spare += 1;
        self.from = u64::from(timer.z);
        Some(timer)
    }
}

/// A free place before the other free ones.
fn free_node(next: Option<usize>) -> Node
    ensures { result ≡ record free_node { next = next } }
{
    Node {
        timer: Timer {
            z: 0,
            t: 0,
            ticket: 0,
        },
        armed: false,
        next,
    }
}

/// The place of a task's timer. All places are looked at only where the map does not say that it has none.
fn place_of(nodes: &[Node], marks: &[u64; 4], t: u32) -> Option<usize>
    requires { AreMarked marks.now nodes.now }
    ensures within { IfSome result (λ i. i < length nodes.now) }
    ensures armed { IfSome result (Armed nodes.now) }
    ensures task { IfSome result (λ i. tasks nodes.now i ≡ t) }
    ensures none { IfNone result ((j : ℕ) → Armed nodes.now j → tasks nodes.now j ≢ t) }
{
    if !may_be_armed(marks, t) {
        return None;
    }
    index_of(nodes, t)
}

/// The place of a task's timer, by the places.
fn index_of(nodes: &[Node], t: u32) -> Option<usize>
    ensures within { IfSome result (λ i. i < length nodes.now) }
    ensures armed { IfSome result (Armed nodes.now) }
    ensures task { IfSome result (λ i. tasks nodes.now i ≡ t) }
    ensures none { IfNone result ((j : ℕ) → Armed nodes.now j → tasks nodes.now j ≢ t) }
{
    for (i, node) in nodes.iter().enumerate() {
        if node.timer.t == t && node.armed {
            return Some(i);
        }
    }
    None
}
