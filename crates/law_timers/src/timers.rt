//! Timers of the class: they fire, at their moments, or a line stops them.

use law_findings::{
    Breach, Finding, JudgedLaws, Law, LawLine, LineKind, ReadLine, TimerKind, Whose, is_due,
    is_early,
};
use std::alloc::{AllocError, Global};
use std::collections::HashMap;

/// A timer that is armed: by which line, and for which moment in nanoseconds.
#[derive(Clone, Copy)]
pub(crate) struct Armed {
    pub place: LawLine,
    pub kind: TimerKind,
    pub expiry: u64,
}

/// A timer.
#[derive(Clone, Copy)]
struct Timer {
    address: u64,
    armed: Option<Armed>,
}

/// The timers of the class by their addresses.
#[derive(Drop)]
pub(crate) struct Timers {
    places: HashMap<u64, usize>,
    all: Vec<Timer>,

    /// By how many nanoseconds they fired late.
    pub late: Vec<u64>,
}

impl Timers {
    pub fn new(alloc: Global) -> Timers {
        Timers {
            places: HashMap::new(alloc),
            all: Vec::new(alloc),
            late: Vec::new(alloc),
        }
    }

    /// A timer is armed for this moment; one that was armed before is not any more.
    pub fn arm(
        &mut self,
        judged: &mut JudgedLaws,
        read: ReadLine,
        address: u64,
        kind: TimerKind,
        expiry: u64,
    ) -> Result<(), AllocError> {
        if let Some(before) = self.stop(address) {
            judge_unfired(judged, before, address, read.at, Some(read.line))?;
        }
        let armed = Armed {
            place: read.place(LineKind::TimerStarts),
            kind,
            expiry,
        };
        if let Some(place) = self.places.get(&address)
            && let Some(timer) = self.all.get_mut(*place)
        {
            timer.armed = Some(armed);
            return Ok(());
        }
        self.places.insert(address, self.all.len())?;
        self.all.push(Timer {
            address,
            armed: Some(armed),
        })?;
        Ok(())
    }

    /// A timer is not armed any more; how it was armed, where a line shows it.
    pub fn stop(&mut self, address: u64) -> Option<Armed> {
        let place = *self.places.get(&address)?;
        self.all.get_mut(place)?.armed.take()
    }

    /// A timer fires, by its own clock at this moment; how it was armed, where a line shows it.
    pub fn fire(
        &mut self,
        judged: &mut JudgedLaws,
        read: ReadLine,
        address: u64,
        now: u64,
    ) -> Result<Option<Armed>, AllocError> {
        let Some(armed) = self.stop(address) else {
            return Ok(None);
        };
        judge_fired(judged, &mut self.late, armed, address, read, now)?;
        Ok(Some(armed))
    }

    /// The record ends at this moment.
    pub fn end(&mut self, judged: &mut JudgedLaws, end: u64) -> Result<(), AllocError> {
        for timer in &mut self.all {
            if let Some(armed) = timer.armed.take() {
                judge_unfired(judged, armed, timer.address, end, None)?;
            }
        }
        Ok(())
    }
}

fn judge_fired(
    judged: &mut JudgedLaws,
    late: &mut Vec<u64>,
    armed: Armed,
    address: u64,
    read: ReadLine,
    now: u64,
) -> Result<(), AllocError> {
    if is_early(armed.expiry, now) {
        return judged.breaks(Breach {
            law: Law::Firing,
            place: read.place(LineKind::TimerExpires),
            whose: Whose::Timer { timer: address },
            finding: Finding::Early {
                timer: armed.kind,
                expiry: armed.expiry,
                fired: now,
            },
            sign: None,
        });
    }
    judged.holds(Law::Firing);
    late.push(now.saturating_sub(armed.expiry))?;
    Ok(())
}

/// A timer was armed, and has neither fired nor been stopped up to this moment; `again` is the line at which it is armed again.
fn judge_unfired(
    judged: &mut JudgedLaws,
    armed: Armed,
    address: u64,
    at: u64,
    again: Option<u64>,
) -> Result<(), AllocError> {
    if !is_due(armed.expiry, at) {
        return Ok(());
    }
    judged.breaks(Breach {
        law: Law::Firing,
        place: armed.place,
        whose: Whose::Timer { timer: address },
        finding: Finding::NeverFired {
            timer: armed.kind,
            expiry: armed.expiry,
            again,
        },
        sign: None,
    })
}
