//! A run: a table, a worker for each file, and the closing readings.
ghost use Rattle.std.specs.Prelude.{◌≡◌, ◌≤◌, IfOk, length};
ghost use Rattle.grub_workers.specs.Apart.{AreOwn};
ghost use Rattle.grub_plan.specs.Answers.{IsAnswered};
ghost use Rattle.grub_workers.specs.Runs.{AllAsksOf, EachEntry, IsNoLostCharge, IsOnlyRun, IsRun};

use crate::attempts::Attempts;
use crate::gate::Gate;
use crate::scoped::{Done, SharedWork, run_scoped};
use grub_book::Reading;
use grub_plan::{Plan, Report};
use grub_table::Shared;
use std::alloc::Global;
use std::error::Error;
use std::fmt;
use std::sync::Wait;
use std::thread::Threads;

/// Why a run has no outcome.
#[derive(Clone, Copy, Debug, PartialEq, Eq)]
pub enum RunFault {
    /// 38: the allocator refused.
    NoMemory,

    /// 39: the start of a thread was refused.
    Spawn,
}

impl fmt::Display for RunFault {
    ghost use Rattle.std.specs.Prelude.{Some};
    ghost use Rattle.grub_workers.specs.Messages.{run_fault_text};

    ghost output = { λ fault. Some (run_fault_text fault) };

    fn fmt<W: fmt::Write>(&self, f: &mut fmt::Formatter<W>) -> fmt::Result {
        f.write_str(match self {
            RunFault::NoMemory => "38 NoMemory",
            RunFault::Spawn => "39 Spawn",
        })
    }
}

impl Error for RunFault {}

/// A report for each file, and the closing reading of each runqueue, in 1/2^20, both in the order of the files.
#[derive(Drop)]
pub struct Outcome {
    pub reports: Vec<Report>,
    pub closing: Vec<Reading>,
}

/// Runs each script of the plan in a thread of its own, all at once over one table.
/// An ask has at most `rounds` rounds, and each round at most `tries` tries of the runqueue's word. The gate runs around each call of the table.
/// `NoMemory` (38) is meant for a refused growth, and `Spawn` (39) for a refused start of a thread. Then all workers that were started are joined.
pub fn run<R: Threads + Wait, G: Gate>(
    rt: &R,
    alloc: Global,
    plan: &Plan,
    tries: u8,
    rounds: u16,
    gate: &G,
) -> Result<Outcome, RunFault>
    requires { 1 ≤ rounds }
    ensures run { IfOk result (λ o. IsRun plan.now tries o.reports.items o.closing.items) }
    ensures tasks { IfOk result (λ o. AllAsksOf plan.now o.reports.items) }
    ensures charges { IfOk result (λ o. EachEntry IsNoLostCharge o.reports.items) }

    // A file whose tasks no other file names has each ask answered, and its report and closing reading are a function of the file, its runqueue and its tasks.
    // Where no two files name one task, so is the whole outcome.
    ensures apart { IfOk result (λ o. 1 ≤ tries → AreOwn plan.now o.reports.items o.closing.items) }

    // With one file alone no ask is given up, and the outcome is a function of the file.
    ensures alone { IfOk result
        (λ o. length plan.now.scripts ≡ 1 → 1 ≤ tries → EachEntry IsAnswered o.reports.items) }
    ensures same { IfOk result (λ o. length plan.now.scripts ≡ 1 → 1 ≤ tries
        → IsOnlyRun plan.now o.reports.items o.closing.items) }
{
    let Ok((shared, passes)) = Shared::open(alloc, plan.setup(), plan.files()) else {
        return Err(RunFault::NoMemory);
    };
    let work = SharedWork {
        table: &shared,
        plan,
        attempts: Attempts { tries, rounds },
        gate,
    };
    let done = run_scoped(rt, alloc, work, passes)?;
    let Done { passes, reports } = done;
    match shared.close(alloc, passes) {
        Ok(closing) => Ok(Outcome { reports, closing }),
        Err(_) => Err(RunFault::NoMemory),
    }
}
