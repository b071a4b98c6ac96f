//! The wheel against worked examples, against a plain one, at its limits, and with refused growths.

ghost use Rattle.std.specs.Prelude.{◌↔◌, ◌<◌, ◌≤◌, IsTrue, IfSome};
ghost use Rattle.std.specs.Bool.{IsFalse};

use crate::plain_wheel::PlainWheel;
use grub_wheel::{Timer, Wheel, WheelFault};
use std::alloc::{AllocError, Global};
use std::process::Abort;
use std::test::Fail;

/// A wheel and the plain one beside it, which are to answer alike.
#[derive(Drop)]
struct Pair {
    wheel: Wheel,
    plain: PlainWheel,
}

impl Pair {
    fn new(rt: &impl Abort, alloc: Global) -> Pair {
        Pair {
            wheel: wheel_after_all(rt, alloc),
            plain: PlainWheel::new(alloc),
        }
    }

    fn armed(&self, rt: &impl Abort, t: u32) -> Option<Timer> {
        let timer = self.wheel.armed(t);
        assert_eq!(rt; self.plain.armed(t), timer);
        timer
    }

    /// Reserves a place, and arms a timer in it.
    fn put(&mut self, rt: &impl Abort, z: u32, t: u32, ticket: u32) {
        reserve_after_all(rt, &mut self.wheel);
        let wheel = &mut self.wheel;
        assert!(rt; wheel.spare() >= 1 && wheel.armed(t).is_none() && is_before(wheel.last(), z));
        wheel.arm(z, t, ticket);
        let timer = Timer { z, t, ticket };
        assert!(rt; self.plain.arm(timer).is_ok() || self.plain.arm(timer).is_ok());
        assert_eq!(rt; self.armed(rt, t), Some(timer));
    }

    fn cancel(&mut self, rt: &impl Abort, t: u32, ticket: u32) -> bool {
        let is_cancelled = self.wheel.cancel(t, ticket);
        assert_eq!(rt; self.plain.cancel(t, ticket), is_cancelled);
        is_cancelled
    }

    fn due(&mut self, rt: &impl Abort, m: u32) -> Option<Timer> {
        assert!(rt; !is_after(self.wheel.last(), m));
        let timer = self.wheel.due(m);
        assert_eq!(rt; self.plain.due(m), timer);
        assert_eq!(rt; self.wheel.last(), Some(m));
        timer
    }
}

/// A wheel, which is made a second time where memory was refused once.
fn wheel_after_all(rt: &impl Abort, alloc: Global) -> Wheel {
    match Wheel::new(alloc) {
        Ok(wheel) => wheel,
        Err(WheelFault::NoMemory) => Wheel::new(alloc).expect(rt, "refused twice"),
    }
}

/// Reserves a place. Where one is refused, as many are spare as before, and the next call gives it.
fn reserve_after_all(rt: &impl Abort, wheel: &mut Wheel) {
    let spare = wheel.spare();
    if let Err(WheelFault::NoMemory) = wheel.reserve_one() {
        assert!(rt; wheel.spare() == spare && wheel.reserve_one().is_ok());
    }
    assert_eq!(rt; wheel.spare(), spare.max(1));
}

fn is_before(last: Option<u32>, z: u32) -> bool
    ensures { IsTrue result ↔ IfSome last (λ m. m < z) }
{
    match last {
        Some(m) => m < z,
        None => true,
    }
}

fn is_after(last: Option<u32>, z: u32) -> bool
    ensures { IsFalse result ↔ IfSome last (λ m. m ≤ z) }
{
    match last {
        Some(m) => m > z,
        None => false,
    }
}

fn timer(z: u32, t: u32, ticket: u32) -> Option<Timer> {
    Some(Timer { z, t, ticket })
}

/// A step of a worked example. A timer is told by its moment, its task and its ticket.
#[derive(Clone, Copy)]
enum Step {
    /// A timer is armed.
    Put(u32, u32, u32),

    /// At the first number, this timer is given.
    Due(u32, u32, u32, u32),

    /// At this moment, none is given.
    NoneDue(u32),

    /// The timer of this task and ticket is cancelled, or there is none.
    Cancel(u32, u32, bool),
}

/// Takes a step, and tells whether it is answered as it says.
fn is_answered(rt: &impl Abort, wheel: &mut Pair, step: Step) -> bool {
    match step {
        Step::Put(z, t, ticket) => {
            wheel.put(rt, z, t, ticket);
            true
        }
        Step::Due(m, z, t, ticket) => wheel.due(rt, m) == timer(z, t, ticket),
        Step::NoneDue(m) => wheel.due(rt, m).is_none(),
        Step::Cancel(t, ticket, is_armed) => wheel.cancel(rt, t, ticket) == is_armed,
    }
}

/// Takes the steps on a new wheel, and expects their answers.
fn follow(rt: &impl Abort, alloc: Global, steps: &[Step]) {
    let mut wheel = Pair::new(rt, alloc);
    for (i, step) in steps.iter().enumerate() {
        assert!(rt; is_answered(rt, &mut wheel, *step), "step {i}");
    }
}

#[test]
fn the_least_timer_comes_first(rt: HostRuntime) {
    let steps = [
        Step::Put(9, 2, 1),
        Step::Put(4, 1, 1),
        Step::Put(4, 0, 3),
        Step::NoneDue(3),
        Step::Due(4, 4, 0, 3),
        Step::Due(4, 4, 1, 1),
        Step::NoneDue(8),
        Step::Cancel(2, 1, true),
        Step::Cancel(2, 1, false),
        Step::NoneDue(20),
    ];
    follow(&rt, rt.alloc(), steps.as_slice());
}

#[test]
fn timers_of_one_slot_are_told_apart(rt: HostRuntime) {
    let steps = [
        Step::Put(10, 0, 1),
        Step::Put(522, 2, 1),
        Step::Put(266, 1, 1),
        Step::NoneDue(9),
        Step::Due(300, 10, 0, 1),
        Step::Due(300, 266, 1, 1),
        Step::NoneDue(300),
        Step::Due(522, 522, 2, 1),
        Step::Put(4294967295, 3, 1),
        Step::NoneDue(4294967294),
        Step::Due(4294967295, 4294967295, 3, 1),
    ];
    follow(&rt, rt.alloc(), steps.as_slice());
}

/// Numbers that look random, from a seed.
#[derive(Drop)]
struct Numbers(u64);

impl Numbers {
    fn next(&mut self) -> u64 {
        self.0 = self
            .0
            .wrapping_mul(6364136223846793005)
            .wrapping_add(1442695040888963407);
        self.0 >> 33
    }

    fn below(&mut self, count: u32) -> u32
        requires { 1 ≤ count }
    {
        (self.next() % u64::from(count)) as u32
    }

    /// A distance of two moments: mostly within the slots, at times a round of them or more.
    fn distance(&mut self) -> u32 {
        match self.next() % 8 {
            0 => 0,
            1 => 1,
            2 => self.below(20),
            3 => 255,
            4 => 256,
            5 => 257,
            6 => self.below(1000),
            _ => self.below(20000),
        }
    }
}

const TASKS: u32 = 24;

/// Arms, cancels and takes timers from a moment on, as a seed has it. Each task has at most one timer,
/// so no more than `TASKS` come due at once.
fn run_a_seed(rt: &impl Abort, wheel: &mut Pair, seed: u64, start: u32) {
    let mut numbers = Numbers(seed);
    let mut now = start;
    for _ in 0..300 {
        let t = numbers.below(TASKS);
        let ticket = numbers.below(3);
        match numbers.next() % 4 {
            0 | 1 => {
                let z = now.saturating_add(numbers.distance());
                if z > now && wheel.armed(rt, t).is_none() {
                    wheel.put(rt, z, t, ticket);
                }
            }
            2 => {
                wheel.cancel(rt, t, ticket);
            }
            _ => {
                now = now.saturating_add(numbers.distance());
                take_all(rt, wheel, now);
            }
        }
    }
}

fn take_all(rt: &impl Abort, wheel: &mut Pair, m: u32) {
    for _ in 0..TASKS {
        if wheel.due(rt, m).is_none() {
            return;
        }
    }
    assert!(rt; wheel.due(rt, m).is_none());
}

#[test]
fn answers_as_the_plain_wheel(rt: HostRuntime) {
    for seed in 0..60 {
        for start in [0, 4294960000] {
            run_a_seed(&rt, &mut Pair::new(&rt, rt.alloc()), seed, start);
        }
    }
}

/// Expects that of the first 40 tasks those below a number have a timer.
fn expect_armed_below(rt: &impl Abort, pair: &Pair, t: u32) {
    for u in 0..40 {
        assert_eq!(rt; pair.armed(rt, u).is_some(), u < t);
    }
}

/// Passes too where any one growth is refused (`tests/refused-growths.py`).
#[test]
fn a_refused_growth_changes_nothing(rt: HostRuntime) {
    let mut pair = Pair::new(&rt, rt.alloc());
    for t in 0..40 {
        assert!(rt; pair.wheel.last().is_none());
        expect_armed_below(&rt, &pair, t);
        pair.put(&rt, 7, t, t);
    }
}

/// Expects that the timers of `all_tasks_have_a_timer` are given by their moments, and then by their tasks.
fn expect_all_in_order(rt: &impl Abort, pair: &mut Pair) {
    for i in 0..256 {
        let z = 1 + i / 4 * 300;
        assert_eq!(rt; pair.due(rt, 18901), timer(z, i / 4 + i % 4 * 64, 1));
    }
    assert_eq!(rt; pair.due(rt, 4294967295), None);
    assert_eq!(rt; pair.wheel.spare(), 256);
}

/// A timer for each of 256 tasks, with four at each moment.
#[test]
fn all_tasks_have_a_timer(rt: HostRuntime) {
    let mut pair = Pair::new(&rt, rt.alloc());
    for t in 0..256 {
        pair.put(&rt, 1 + t % 64 * 300, t, 1);
    }
    expect_all_in_order(&rt, &mut pair);
}

/// The most pieces of memory that are held back.
const PIECES: usize = 131072;

/// All memory that is left, so that every growth is refused until it is dropped; none of it is written. None where the
/// allocator gives memory without end, as that of `rt try` does.
fn all_memory(alloc: Global) -> Result<Option<Vec<Vec<u8>>>, AllocError> {
    let mut pieces = Vec::with_capacity(alloc, PIECES)?;
    let mut size = usize::MAX / 65536;
    for _halving in 0..48 {
        for _piece in 0..PIECES {
            let Ok(piece) = Vec::with_capacity(alloc, size) else {
                break;
            };
            if pieces.push(piece).is_err() {
                return Ok(None);
            }
        }
        size /= 2;
    }
    Ok(Some(pieces))
}

/// The faults of a new wheel, and of a place in this one, where no memory is left.
fn faults_without_memory(
    alloc: Global,
    wheel: &mut Wheel,
) -> Result<Option<[Option<WheelFault>; 2]>, AllocError> {
    let Some(held_back) = all_memory(alloc)? else {
        return Ok(None);
    };
    let faults = [Wheel::new(alloc).err(), wheel.reserve_one().err()];
    drop(held_back);
    Ok(Some(faults))
}

#[test]
fn no_memory_is_left(rt: HostRuntime) -> Result<(), Fail> {
    let mut wheel = wheel_after_all(&rt, rt.alloc());
    if let Some(faults) = faults_without_memory(rt.alloc(), &mut wheel)? {
        assert!(rt; faults == [Some(WheelFault::NoMemory); 2]);
        assert_eq!(rt; wheel.spare(), 0);
        assert!(rt; wheel.reserve_one().is_ok());
    }
    Ok(())
}

#[test]
fn the_fault_has_its_number(rt: HostRuntime) -> Result<(), Fail> {
    let text = format!(in rt.alloc(); "{}", WheelFault::NoMemory)?;
    assert_eq!(rt; text.as_str(), "27 NoMemory");
    Ok(())
}
