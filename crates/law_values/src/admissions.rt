//! Admissions: total_bw is the sum of what was admitted.

use crate::shares::{Asked, Total};
use law_findings::{Breach, Finding, JudgedLaws, Law, LineKind, ReadLine, Sign, Whose, bandwidth};
use std::alloc::AllocError;
use trace_data::{Admitted, Enqueued, Parameters};

/// The policy SCHED_DEADLINE.
const DEADLINE: u64 = 6;

/// SCHED_FLAG_SUGOV.
const SUGOV: u64 = 0x1000_0000;

/// ENQUEUE_RESTORE.
const RESTORE: u64 = 2;

/// Whether an admission is of a reservation: of SCHED_DEADLINE, and not of the frequency governor.
pub fn is_of_reservation(line: &Admitted) -> bool {
    line.policy == DEADLINE && line.parameters.flags & SUGOV == 0
}

impl Total {
    /// The test of an admission of this task's reservation shows total_bw.
    pub fn admit(
        &mut self,
        judged: &mut JudgedLaws,
        task: usize,
        read: ReadLine,
        line: &Admitted,
    ) -> Result<(), AllocError> {
        self.answer_admission(task, line.policy_before == DEADLINE, read.at)?;
        self.judge_total(judged, read, line.total_bw)?;
        let was_deadline = line.policy_before == DEADLINE;
        if was_deadline && !self.of(task).is_known {
            return Ok(());
        }
        let period = if line.parameters.dl_period == 0 {
            line.parameters.dl_deadline
        } else {
            line.parameters.dl_period
        };
        let is_queued = line.on_rq != 0 && !line.is_delayed;
        self.asked.push(Asked {
            task,
            cpu: if is_queued { Some(read.cpu) } else { None },
            bandwidth: bandwidth(line.parameters.dl_runtime, period),
            parameters: Parameters {
                dl_period: period,
                ..line.parameters
            },
            was_deadline,
        })?;
        Ok(())
    }

    fn judge_total(
        &mut self,
        judged: &mut JudgedLaws,
        read: ReadLine,
        total_bw: u64,
    ) -> Result<(), AllocError> {
        if read.at <= self.open_until {
            return Ok(());
        }
        let Some(base) = self.base else {
            self.base = Some(total_bw.wrapping_sub(self.sum));
            self.asleep = 0;
            return Ok(());
        };
        if self.is_sum(total_bw, base) {
            judged.holds(Law::Total);
            return Ok(());
        }
        let without = total_bw.wrapping_sub(self.asleep);
        let is_asleep = self.asleep > 0 && self.is_sum(without, base);
        let admitted = if is_asleep {
            without
        } else {
            base.wrapping_add(self.sum)
        };
        self.base = Some(total_bw.wrapping_sub(self.sum));
        self.asleep = 0;
        judged.breaks(Breach {
            law: Law::Total,
            place: read.place(LineKind::Admit),
            whose: Whose::Domain,
            finding: Finding::OtherTotal { admitted, total_bw },
            sign: if is_asleep {
                Some(Sign::LeftAsleep)
            } else {
                None
            },
        })
    }

    /// The next line of a task that asked while it was blocked tells whether it was admitted: another admission shows its class.
    fn answer_admission(
        &mut self,
        task: usize,
        is_deadline: bool,
        at: u64,
    ) -> Result<(), AllocError> {
        let Some(asked) = self.take_asked(|asked| asked.task == task && asked.cpu.is_none()) else {
            return Ok(());
        };
        if asked.was_deadline || is_deadline {
            self.accept(asked, at)?;
        }
        Ok(())
    }

    /// An enqueue tells whether an admission before it was accepted; `is_back` of one that puts its task back into another class.
    pub fn enqueue(
        &mut self,
        task: usize,
        read: ReadLine,
        line: &Enqueued,
        is_back: bool,
    ) -> Result<(), AllocError> {
        let is_restored = line.flags & RESTORE != 0;
        let asked = self.take_asked(|asked| match asked.cpu {
            Some(cpu) => cpu == read.cpu && is_restored,
            None => asked.task == task,
        });
        if let Some(asked) = asked
            && asked.task == task
            && asked.parameters.dl_runtime == line.parameters.dl_runtime
            && asked.parameters.dl_period == line.parameters.dl_period
        {
            self.accept(asked, read.at)?;
        }
        if is_back || line.parameters.flags & SUGOV != 0 {
            return Ok(());
        }
        self.see_share(task, line)
    }

    /// A task that is enqueued has a share; one of before the record had it then.
    fn see_share(&mut self, task: usize, line: &Enqueued) -> Result<(), AllocError> {
        let own = bandwidth(line.parameters.dl_runtime, line.parameters.dl_period);
        let Some(share) = self.share(task)? else {
            return Ok(());
        };
        share.is_awaited = false;
        share.is_ending = false;
        if !share.is_known && line.parameters.dl_runtime > 0 {
            share.is_known = true;
            share.bandwidth = own;
            self.sum = self.sum.wrapping_add(own);
            self.base = self.base.map(|base| base.wrapping_sub(own));
        }
        Ok(())
    }

    fn take_asked<F: Fn(&Asked) -> bool>(&mut self, is_it: F) -> Option<Asked>
        requires { F.IsAlwaysCallable is_it }
    {
        let place = self.asked.iter().position(|asked| is_it(asked))?;
        if place >= self.asked.len() {
            return None;
        }
        Some(self.asked.swap_remove(place))
    }

    fn accept(&mut self, asked: Asked, at: u64) -> Result<(), AllocError> {
        if !asked.was_deadline
            && let Some(share) = self.share(asked.task)?
        {
            share.is_awaited = false;
            share.is_ending = false;
        }
        self.take(asked.task, asked.bandwidth, asked.cpu, at)
    }

    /// A line of this CPU that is none of a queued admission's call: it was refused.
    pub fn refuse(&mut self, cpu: u32) {
        if !self.asked.is_empty() {
            self.asked.retain(|asked| asked.cpu != Some(cpu));
        }
    }
}
