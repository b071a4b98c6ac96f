//! What the notes of a record tell.

ghost use Rattle.std.specs.Prelude.{◌≡◌, OnOk, option_map};
ghost use Rattle.trace_data.specs.declared.line.RecordLine.TheVariants.{Note};
ghost use Rattle.check_record.specs.Seen.{shown_in, timed_in};
ghost use Rattle.check_record.specs.Shown.{retimed, shown_with};
ghost use Rattle.check_record.specs.Timed.{domained, noted_policy, task_noted};
ghost use Rattle.check_settings.specs.Heads.{noted_with, told_of};
ghost use Rattle.check_record.specs.Lost.{changed_by, dropped_with, fault_noted, is_another_by, is_behind_by, losing_by, lost_by, lost_line_by};

use crate::gathering::Gathering;
use check_settings::{cpus_of, server_note};
use probe_verdict::DroppedLines;
use std::alloc::AllocError;
use timer_play::RunqueueSums;
use trace_data::{Limit, Policy, TraceNote};
use trace_lines::Lost as LostLines;
use trace_options::Fault;

impl Gathering<'_> {
    /// The CPUs of the root domain, as a note may list them.
    #[tactic(auto, unfolding(crate::specs::Seen::shown_in))]
    pub(crate) fn see_domain(
        &mut self,
        number: u64,
        domain: Option<&[u8]>,
    ) -> Result<(), AllocError>
        ensures { OnOk result (shown_in self.new
            ≡ retimed (domained (option_map (λ d. d.now) domain.entry)) (shown_in self.old)) }
    {
        let Some(domain) = domain else {
            return Ok(());
        };
        match cpus_of(self.alloc, domain)? {
            Some(cpus) => self.head.domain = cpus,
            None => self.fault = Some(Fault::BadNote { line: number }),
        }
        Ok(())
    }

    /// The kernel's whole release, as a note may have it.
    #[tactic(auto, unfolding(crate::specs::Seen::shown_in))]
    pub(crate) fn see_release(&mut self, release: Option<&[u8]>) -> Result<(), AllocError>
        ensures { shown_in self.new ≡ shown_in self.old }
    {
        let Some(release) = release else {
            return Ok(());
        };
        self.head.release.clear();
        self.head.release.extend_from_slice(release)
    }

    #[tactic(auto, unfolding(crate::specs::Seen::shown_in))]
    pub(crate) fn see_lost(&mut self, number: u64, lost: Option<LostLines>)
        ensures lost { self.new.lost ≡ lost_by lost self.old.lost }
        ensures line { self.new.lost_line
            ≡ lost_line_by lost self.old.lost number self.old.lost_line }
        ensures shown { shown_in self.new ≡ shown_in self.old }
    {
        if let Some(lost) = lost {
            self.lost_line = self.losing_line().unwrap_or(number);
            self.lost = Some(dropped_with(self.lost, lost));
        }
    }

    /// The line at which a note says that lines were lost.
    pub fn losing_line(&self) -> Option<u64>
        ensures { result ≡ losing_by self.now.lost self.now.lost_line }
    {
        match self.lost {
            Some(lost) if lost.lines > 0 => Some(self.lost_line),
            _ => None,
        }
    }

    /// The line of a note by which the limit was changed meanwhile.
    pub fn changed_line(&self) -> Option<u64>
        ensures { result ≡ self.now.changed_line }
    {
        self.changed_line
    }

    #[tactic(auto, unfolding(crate::specs::Seen::shown_in))]
    pub(crate) fn note(&mut self, number: u64, note: TraceNote) -> Result<(), AllocError>
        ensures head { OnOk result (told_of self.new.head ≡ noted_with note (told_of self.old.head)) }
        ensures fault { OnOk result (self.new.fault
            ≡ fault_noted note number (timed_in self.old).lines.latest self.old.fault) }
        ensures changed { OnOk result (self.new.changed_line
            ≡ changed_by note number self.old.head.limit self.old.changed_line) }
        ensures shown { OnOk result
            (shown_in self.new ≡ shown_with number (Note note) (shown_in self.old)) }
    {
        match note {
            TraceNote::Head {
                kernel,
                limit,
                total_bw,
            } => {
                self.head.kernel = kernel;
                self.head.limit = limit;
                self.head.total_bw = total_bw;
                Ok(())
            }
            TraceNote::Runqueue {
                cpu,
                sums,
                domain,
                server,
            } => {
                self.laws.note_domain(domain);
                let (limit, total_bw) = (self.head.limit, self.head.total_bw);
                self.laws.note_extra(cpu, sums.extra_bw, limit, total_bw)?;
                self.head.sums.push(RunqueueSums { cpu, sums })?;
                self.head.servers.push(server_note(cpu, sums, server))?;
                self.head.see_domain(cpu, domain)
            }
            TraceNote::Capacity { cpu, capacity } => self.head.see_capacity(cpu, capacity),
            TraceNote::Task {
                pid,
                at,
                by,
                cpu,
                policy,
            } => {
                if is_behind(at, self.timers.latest()) {
                    self.fault = Some(Fault::BadNote { line: number });
                    return Ok(());
                }
                self.note_task(pid, at, by, cpu, noted_policy(policy))
            }
            TraceNote::End { limit, .. } => {
                if is_another(self.head.limit, limit) {
                    self.changed_line = Some(number);
                }
                Ok(())
            }
        }
    }

    #[tactic(auto, unfolding(crate::specs::Seen::shown_in))]
    fn note_task(
        &mut self,
        pid: u64,
        at: Option<u64>,
        by: Option<u64>,
        cpu: u32,
        policy: Policy,
    ) -> Result<(), AllocError>
        ensures head { self.new.head ≡ self.old.head }
        ensures fault { self.new.fault ≡ self.old.fault }
        ensures changed { self.new.changed_line ≡ self.old.changed_line }
        ensures shown { OnOk result (shown_in self.new
            ≡ retimed (task_noted pid at by cpu policy) (shown_in self.old)) }
    {
        self.has_notes = true;
        self.begin();
        self.timers.note(pid, at, by, cpu, policy)
    }
}

/// The policy that a note tells: a task that has ended reserves nothing any more (`__dl_clear_params`).
fn noted_policy(policy: Policy) -> Policy
    ensures { result ≡ noted_policy policy }
{
    match policy {
        Policy::Deadline(parameters) if parameters.dl_runtime == 0 => Policy::Other,
        other => other,
    }
}

/// What notes say was lost, with one note more.
fn dropped_with(before: Option<DroppedLines>, lost: LostLines) -> DroppedLines
    ensures { result ≡ dropped_with before lost }
{
    match before {
        Some(before) => DroppedLines {
            lines: before.lines.saturating_add(lost.lines),
            hits: before.hits.saturating_add(lost.missed),
        },
        None => DroppedLines {
            lines: lost.lines,
            hits: lost.missed,
        },
    }
}

/// Whether a note of this moment, or of the start, stands behind a line of a later one.
fn is_behind(at: Option<u64>, latest: u64) -> bool
    ensures { result ≡ is_behind_by at latest }
{
    at.unwrap_or(0) < latest
}

/// Whether the limit at the end of a record is another than at its begin.
fn is_another(begin: Option<Limit>, end: Option<Limit>) -> bool
    ensures { result ≡ is_another_by begin end }
{
    match (begin, end) {
        (Some(Limit::MaxBw(begin)), Some(Limit::MaxBw(end))) => begin != end,
        (
            Some(Limit::Runtime { runtime, period }),
            Some(
                Limit::Runtime {
                    runtime: runtime_at_end,
                    period: period_at_end,
                },
            ),
        ) => runtime != runtime_at_end || period != period_at_end,
        _ => false,
    }
}
