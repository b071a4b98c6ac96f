//! The lines of timers of a record, and the tasks that are given or named.

ghost use Rattle.std.specs.Prelude.{◌≡◌, ◌||◌, OnOk, is_some, option_map};
ghost use Rattle.check_settings.specs.Heads.{is_of_domain};
ghost use Rattle.check_record.specs.FirstFault.{fault_woken};
ghost use Rattle.check_record.specs.Seen.{shown_in, timed_in};
ghost use Rattle.check_record.specs.Shown.{retimed};
ghost use Rattle.check_record.specs.Timed.{cpus_seen, event_kept, event_of, is_past, kept_in, kept_unless_past, late_note_seen, line_kept, newcomer_seen, other_cpu, task_shown, wanted_in, with_event_line};
ghost use Rattle.timer_record.specs.Kept.{kept_of};

use crate::gathering::Gathering;
use check_settings::{OpeningSign, WantedLines, newcomer, wanted_by};
use law_findings::ReadLine;
use std::alloc::AllocError;
use timer_record::{OpenRecord, Unlisted};
use trace_data::Fixed;
use trace_options::Fault;

impl<'o> Gathering<'o> {
    /// A line shows this pid with this comm; a task may have another one later.
    #[tactic(auto, unfolding(crate::specs::Seen::shown_in))]
    pub(crate) fn show(
        &mut self,
        pid: u64,
        comm: &[u8],
        is_in_class: bool,
    ) -> Result<(), AllocError>
        ensures { OnOk result
            (shown_in self.new ≡ retimed (task_shown pid comm.now) (shown_in self.old)) }
    {
        self.name(pid, comm, is_in_class)?;
        let wanted = self.wanted();
        self.timers.show(self.alloc, wanted, pid, comm)
    }

    #[tactic(auto, unfolding(crate::specs::Seen::shown_in))]
    fn name(&mut self, pid: u64, comm: &[u8], is_in_class: bool) -> Result<(), AllocError>
        ensures { shown_in self.new ≡ shown_in self.old }
    {
        if self.last == Some(pid) && !is_in_class {
            return Ok(());
        }
        self.last = Some(pid);
        self.names.show(self.alloc, pid, comm, is_in_class)
    }

    /// Which lines are kept, by what is known of the kernel.
    fn wanted(&self) -> WantedLines
        ensures { result ≡ wanted_in (timed_in self.now) }
    {
        wanted_by(
            self.head.kernel_by(self.options),
            !self.head.sums.is_empty(),
        )
    }

    /// The first given task that no line has shown.
    pub fn not_found(&self) -> Option<&'o str> {
        self.timers.not_found()
    }

    /// The lines of timers are kept from here on.
    #[tactic(auto, unfolding(crate::specs::Seen::shown_in))]
    pub(crate) fn begin(&mut self)
        ensures head { self.new.head ≡ self.old.head }
        ensures fault { self.new.fault ≡ self.old.fault }
        ensures changed { self.new.changed_line ≡ self.old.changed_line }
        ensures shown { shown_in self.new ≡ retimed kept_in (shown_in self.old) }
    {
        let wanted = self.wanted();
        self.timers.begin(self.alloc, wanted);
    }

    /// Takes the line of an event of the scheduler or of a timer.
    pub(crate) fn fixed(&mut self, read: ReadLine, fixed: Fixed) -> Result<(), AllocError>
        ensures { OnOk result (shown_in self.new
            ≡ retimed (with_event_line (event_of read fixed)) (shown_in self.old)) }
    {
        self.see_cpus(read.cpu, cpu_of(&fixed));
        self.keep_unless_past(read, fixed)
    }

    /// Whether lines of timers are not kept any more.
    fn is_past(&self) -> bool
        ensures { result ≡ is_past (timed_in self.now) }
    {
        self.plays_probes() && !self.keeps_timers
    }

    fn keep_unless_past(&mut self, read: ReadLine, fixed: Fixed) -> Result<(), AllocError>
        ensures { OnOk result (shown_in self.new
            ≡ retimed (kept_unless_past (event_of read fixed)) (shown_in self.old)) }
    {
        if self.is_past() {
            return Ok(());
        }
        self.keep(read, fixed)
    }

    /// A line of this CPU names another one.
    #[tactic(auto, unfolding(crate::specs::Seen::shown_in))]
    fn see_cpus(&mut self, cpu: u32, other: u32)
        ensures { shown_in self.new ≡ retimed (cpus_seen cpu other) (shown_in self.old) }
    {
        self.head.greatest_cpu = self.head.greatest_cpu.max(cpu).max(other);
    }

    /// Keeps the line of an event.
    fn keep(&mut self, read: ReadLine, fixed: Fixed) -> Result<(), AllocError>
        ensures { OnOk result (shown_in self.new
            ≡ retimed (event_kept (event_of read fixed)) (shown_in self.old)) }
    {
        self.see_newcomer(read.line, read.cpu);
        self.see_cpu(read.line, &fixed);
        self.begin();
        self.see_late_note(read.line, read.at, &fixed);
        self.keep_line(read, fixed)
    }

    #[tactic(auto, unfolding(crate::specs::Seen::shown_in))]
    fn keep_line(&mut self, read: ReadLine, fixed: Fixed) -> Result<(), AllocError>
        ensures { OnOk result (shown_in self.new
            ≡ retimed (line_kept (event_of read fixed)) (shown_in self.old)) }
    {
        self.timers
            .line(read.line, read.at, read.cpu, read.pid, fixed)
    }

    /// A line of a task in the class whose notes put it outside: its reservation is not known from the moment of the note on.
    #[tactic(auto, unfolding(crate::specs::Seen::shown_in))]
    fn see_late_note(&mut self, number: u64, at: u64, fixed: &Fixed)
        ensures { shown_in self.new
            ≡ retimed (late_note_seen number at fixed.now) (shown_in self.old) }
    {
        if let Some(late) = self.timers.late_noted(number, at, fixed) {
            self.see_opening(late.line, Some(OpeningSign::LateNote { pid: late.pid }));
        }
    }

    /// A line of a CPU that the head lacks shows that one came.
    #[tactic(auto, unfolding(crate::specs::Seen::shown_in))]
    fn see_newcomer(&mut self, number: u64, cpu: u32)
        ensures { shown_in self.new ≡ retimed (newcomer_seen number cpu) (shown_in self.old) }
    {
        let sign = newcomer(&self.head, self.options, cpu);
        self.see_opening(number, sign);
    }

    /// A SCHED_DEADLINE task wakes on a CPU of the root domain, unless CPUs came before.
    #[tactic(auto, unfolding(crate::specs::Seen::shown_in))]
    fn see_cpu(&mut self, number: u64, fixed: &Fixed)
        ensures fault { self.new.fault ≡ fault_woken
            (λ cpu. is_some self.old.head.opening || is_of_domain self.old.head self.old.options.now cpu)
            fixed.now number self.old.fault }
        ensures shown { shown_in self.new ≡ shown_in self.old }
    {
        if let Fixed::Woken {
            cpu,
            is_deadline: true,
            ..
        } = *fixed
            && self.head.opening.is_none()
            && !self.head.has_cpu(self.options, cpu)
        {
            self.fault = Some(Fault::OutsideDomain { line: number });
        }
    }

    /// The first task with a 0-lag timer that neither an option nor a note gives, where timers are compared and no note tells of tasks.
    pub fn unknown(&self) -> Result<Option<Fault<'o>>, AllocError> {
        let Some(unlisted) = self.unlisted() else {
            return Ok(None);
        };
        let comm = self.names.comm(self.alloc, unlisted.pid)?;
        Ok(Some(Fault::UnknownTask {
            line: unlisted.line,
            pid: unlisted.pid,
            comm,
        }))
    }

    fn unlisted(&self) -> Option<Unlisted> {
        if self.has_notes || self.plays_probes() {
            return None;
        }
        self.timers.unlisted()
    }

    /// Whether a timer of any kind was started.
    pub fn has_timers(&self) -> bool {
        self.timers.has_timers()
    }

    /// Gives the lines of timers out.
    pub fn take_record(&mut self) -> Option<OpenRecord>
        ensures record { option_map kept_of result ≡ (timed_in self.old).lines.kept }
        ensures head { self.new.head ≡ self.old.head }
    {
        self.timers.take()
    }
}

/// The CPU that an event names beside its line's, or 0.
fn cpu_of(fixed: &Fixed) -> u32
    ensures { result ≡ other_cpu fixed.now }
{
    match *fixed {
        Fixed::Woken { cpu, .. } | Fixed::Migrated { cpu, .. } => cpu,
        _ => 0,
    }
}
