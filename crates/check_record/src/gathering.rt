//! A record, line by line: notes, lines of timers that are kept, and lines of probes that are played at once.

ghost use Rattle.std.specs.Prelude.{◌≡◌, ◌&&◌, not, IfOk, IsTrue, None, OnOk, Some};
ghost use Rattle.trace_lines.specs.ToldTexts.{told_text};
ghost use Rattle.check_settings.specs.Heads.{chosen, seen_on, told_of};
ghost use Rattle.check_record.specs.FirstFault.{fault_headed, is_too_late, raised_by};
ghost use Rattle.check_settings.specs.Opening.{opened_with};
ghost use Rattle.check_record.specs.Playing.{has_lines};
ghost use Rattle.check_record.specs.Seen.{IsEnded, shown_in};
ghost use Rattle.check_record.specs.Shown.{as_read, nothing_shown, probe_taken, retimed, shown_with, with_probe, with_said};
ghost use Rattle.check_record.specs.Timed.{governed, headed, opened, probe_seen, shown_told, tells_governor, with_told};

use crate::laws::RecordLaws;
use crate::names::Names;
use crate::probes::{Probes, SeenRecord, ToldSettings};
use crate::whole::RecordRequest;
use check_settings::{
    OpeningSign, RecordHead, RecordTimers, is_frequency, is_older, opening_by_change, opening_of,
};
use law_findings::ReadLine;
use law_verdict::shows_class;
use probe_explain::ProbeLine;
use probe_findings::ProbedLine;
use probe_lines::event_of;
use probe_verdict::DroppedLines;
use std::alloc::{AllocError, Global};
use trace_data::{Flaw, RecordLine, Said, TraceNote};
use trace_lines::{Lines, ToldLine};
use trace_options::{CPUS, CheckOptions, Fault};

/// A moment that is greater than each number of nanoseconds is read as this one.
const TOO_LATE: u64 = u64::MAX;

/// A line of an event whose moment is so much before that of the line before it.
#[derive(Clone, Copy)]
pub struct EarlierLine {
    pub line: u64,
    pub nanos: u64,
}

/// A record that is being read.
#[derive(Drop)]
pub struct Gathering<'o> {
    pub(crate) alloc: Global,
    pub(crate) options: &'o CheckOptions<'o>,
    pub head: RecordHead,
    pub names: Names,

    /// The pid of the last line that showed a task.
    pub(crate) last: Option<u64>,

    /// The lines of timers, with the tasks that options give.
    pub(crate) timers: RecordTimers<'o>,

    /// The moment of the last line of an event, and the first line that is before the one before it.
    pub(crate) before: u64,
    pub earlier: Option<EarlierLine>,

    /// Whether a note tells of a task.
    pub(crate) has_notes: bool,

    /// Whether a note tells of a task that was in the class at the start.
    pub has_older: bool,

    /// What the kernel's log warned of.
    pub warnings: Vec<Vec<u8>>,

    /// Whether lines of timers are kept beside lines of probes, for the states that they show.
    pub(crate) keeps_timers: bool,
    pub probes: Probes,
    pub laws: RecordLaws,
    pub lost: Option<DroppedLines>,

    /// The line at which a note says that lines were lost, or else what was lost.
    pub(crate) lost_line: u64,
    pub(crate) changed_line: Option<u64>,
    pub(crate) fault: Option<Fault<'o>>,
}

impl<'o> Lines for Gathering<'o> {
    type Fault = Fault<'o>;

    ghost use Rattle.check_record.specs.Seen.{shown_in};
    ghost use Rattle.check_record.specs.Shown.{Shown, with_line};

    ghost Seen = { Shown };

    ghost seen = { shown_in };

    ghost step = { with_line };

    /// Behind a fault nothing is taken.
    fn take(&mut self, number: u64, told: &ToldLine<&[u8]>) -> Result<bool, Fault<'o>> {
        if is_too_late(&told.line) {
            return Err(Fault::Line {
                line: number,
                flaw: Flaw::BadTraceLine,
            });
        }
        self.take_told(number, told)?;
        self.end_line()?;
        Ok(true)
    }
}

impl<'o> Gathering<'o> {
    /// The options by which it is read.
    pub fn options(&self) -> &'o CheckOptions<'o> {
        self.options
    }

    /// Nothing was read.
    #[tactic(auto, unfolding(crate::specs::Seen::shown_in), using(crate::proofs::ShownLemmas::none_yet))]
    pub(crate) fn new(
        alloc: Global,
        options: &'o CheckOptions<'o>,
        request: RecordRequest<'_>,
    ) -> Result<Gathering<'o>, AllocError>
        ensures { IfOk result (λ g.
            shown_in g ≡ nothing_shown options.entry.now request.entry.keeps_timers) }
    {
        let keeps_lines = options.explains || request.keeps_timers || request.path == "-";
        Ok(Gathering {
            alloc,
            options,
            head: RecordHead::new(alloc),
            names: Names::new(alloc),
            last: None,
            timers: RecordTimers::new(alloc, &options.tasks)?,
            before: 0,
            earlier: None,
            has_notes: false,
            has_older: false,
            warnings: Vec::new(alloc),
            keeps_timers: request.keeps_timers,
            probes: Probes::new(alloc, request.keeps_rows, keeps_lines),
            laws: RecordLaws::new(alloc, request.laws, request.keeps_rows),
            lost: None,
            lost_line: 0,
            changed_line: None,
            fault: None,
        })
    }

    /// The record was looked at before.
    #[tactic(auto, unfolding(crate::specs::Seen::shown_in))]
    pub(crate) fn tell(&mut self, seen: SeenRecord)
        ensures { shown_in self.new ≡ shown_in self.old }
    {
        self.probes.tell(seen);
    }

    /// What is wrong by the line that was taken.
    #[tactic(auto, unfolding(crate::specs::Seen::shown_in))]
    fn end_line(&mut self) -> Result<(), Fault<'o>>
        ensures fault { result ≡ raised_by self.old.fault }
        ensures none { self.new.fault ≡ None }
        ensures shown { shown_in self.new ≡ shown_in self.old }
    {
        match self.fault.take() {
            Some(fault) => Err(fault),
            None => Ok(()),
        }
    }

    /// Takes what a line tells, whose number counts from 1.
    fn take_told(&mut self, number: u64, told: &ToldLine<&[u8]>) -> Result<(), AllocError>
        ensures { OnOk result (shown_in self.new ≡ shown_with number told.now.line
            (retimed (with_told number (told_text told.now)) (shown_in self.old))) }
    {
        self.see_beside(number, told)?;
        self.take_line(number, &told.line)
    }

    /// Takes what a line tells beside what it says.
    fn see_beside(&mut self, number: u64, told: &ToldLine<&[u8]>) -> Result<(), AllocError>
        ensures { OnOk result (shown_in self.new
            ≡ retimed (with_told number (told_text told.now)) (shown_in self.old)) }
    {
        self.see_head(number, told.processors);
        self.see_domain(number, told.domain)?;
        self.see_release(told.release)?;
        self.see_lost(number, told.lost);
        self.see_governor(tells_governor(told));
        self.see_opening(number, opening_by_change(told.change));
        self.see_warning(told.warning)?;
        self.see_shown(number, told)
    }

    /// A note or an event may tell that something sets the frequency of a CPU.
    #[tactic(auto, unfolding(crate::specs::Seen::shown_in))]
    fn see_governor(&mut self, is_told: bool)
        ensures { shown_in self.new ≡ retimed (governed is_told) (shown_in self.old) }
    {
        self.head.has_governor = self.head.has_governor || is_told;
    }

    /// The kernel's log warned of something, as a note has it.
    #[tactic(auto, unfolding(crate::specs::Seen::shown_in))]
    fn see_warning(&mut self, warning: Option<&[u8]>) -> Result<(), AllocError>
        ensures { shown_in self.new ≡ shown_in self.old }
    {
        if let Some(text) = warning {
            self.warnings.push(text.to_vec(self.alloc)?)?;
        }
        Ok(())
    }

    /// A line may show a task.
    fn see_shown(&mut self, number: u64, told: &ToldLine<&[u8]>) -> Result<(), AllocError>
        ensures { OnOk result (shown_in self.new ≡ retimed
            (shown_told number told.now.line (told_text told.now).shown) (shown_in self.old)) }
    {
        match told.shown {
            Some(shown) => self.see_task(number, &told.line, shown.pid, shown.comm),
            None => Ok(()),
        }
    }

    /// A line shows the task of this pid with this comm.
    fn see_task(
        &mut self,
        number: u64,
        line: &RecordLine,
        pid: u64,
        comm: &[u8],
    ) -> Result<(), AllocError>
        ensures { OnOk result (shown_in self.new ≡ retimed (shown_told number line.now
            (Some (record { comm = comm.now; pid = pid }))) (shown_in self.old)) }
    {
        self.show(pid, comm, shows_class(line))?;
        self.see_older(is_older(line, comm));
        self.see_opening(number, opening_of(line, comm));
        Ok(())
    }

    /// A line may show that `extra_bw` is not known any more.
    #[tactic(auto, unfolding(crate::specs::Seen::shown_in))]
    pub(crate) fn see_opening(&mut self, number: u64, sign: Option<OpeningSign>)
        ensures opening { self.new.head.opening ≡ opened_with sign number self.old.head.opening }
        ensures told { told_of self.new.head ≡ told_of self.old.head }
        ensures shown { shown_in self.new ≡ retimed (opened number sign) (shown_in self.old) }
    {
        if let Some(sign) = sign {
            self.head.see_sign(number, sign);
        }
    }

    #[tactic(auto, unfolding(crate::specs::Seen::shown_in))]
    fn see_older(&mut self, is_older: bool)
        ensures { shown_in self.new ≡ shown_in self.old }
    {
        self.has_older = self.has_older || is_older;
    }

    /// Takes a note, or the line of an event.
    fn take_line(&mut self, number: u64, line: &RecordLine) -> Result<(), AllocError>
        ensures { OnOk result (shown_in self.new ≡ shown_with number line.now (shown_in self.old)) }
    {
        match line {
            RecordLine::Quiet | RecordLine::Flawed(_) => Ok(()),
            RecordLine::Note(note) => self.note(number, *note),
            RecordLine::Event {
                at,
                cpu,
                pid,
                said,
                ..
            } => self.take_event(
                ReadLine {
                    line: number,
                    at: *at,
                    cpu: *cpu,
                    pid: *pid,
                },
                said,
            ),
        }
    }

    /// Takes the line of an event.
    fn take_event(&mut self, read: ReadLine, said: &Said) -> Result<(), AllocError>
        ensures { OnOk result (shown_in self.new
            ≡ with_said read.line read.at read.cpu read.pid said.now (shown_in self.old)) }
    {
        self.see_moment(read);
        self.hold_to_laws(read, said)?;
        match said {
            Said::Fixed(fixed) => self.fixed(read, *fixed),
            Said::Probe(probe) => self.probe(&ProbeLine {
                place: ProbedLine {
                    line: read.line,
                    at: read.at,
                    cpu: read.cpu,
                    pid: read.pid,
                    event: event_of(probe),
                },
                probe: *probe,
            }),
        }
    }

    /// A line of an event may be before the one before it.
    #[tactic(auto, unfolding(crate::specs::Seen::shown_in))]
    fn see_moment(&mut self, read: ReadLine)
        ensures { shown_in self.new ≡ shown_in self.old }
    {
        if read.at < self.before && self.earlier.is_none() {
            self.earlier = Some(EarlierLine {
                line: read.line,
                nanos: self.before - read.at,
            });
        }
        self.before = read.at;
    }

    /// A line of an event is held to the laws.
    #[tactic(auto, unfolding(crate::specs::Seen::shown_in))]
    fn hold_to_laws(&mut self, read: ReadLine, said: &Said) -> Result<(), AllocError>
        ensures { shown_in self.new ≡ shown_in self.old }
    {
        let kernel = self.head.kernel_by(self.options);
        self.laws.take(kernel, read, said)
    }

    /// The head of a trace may say how many processors there are.
    #[tactic(auto, unfolding(crate::specs::Seen::shown_in))]
    fn see_head(&mut self, number: u64, processors: Option<u32>)
        ensures processors { self.new.head.processors ≡ chosen self.old.head.processors processors }
        ensures fault { self.new.fault
            ≡ fault_headed self.old.head.processors processors number self.old.fault }
        ensures shown { shown_in self.new ≡ retimed (headed processors) (shown_in self.old) }
    {
        if self.head.processors.is_some() {
            return;
        }
        self.head.processors = processors;
        if let Some(count) = processors
            && (count == 0 || count > CPUS)
        {
            self.fault = Some(Fault::OutsideDomain { line: number });
        }
    }

    /// Whether the verdict is by lines of probes: lines of timers are not kept then.
    pub(crate) fn plays_probes(&self) -> bool
        ensures { result ≡ (has_lines self.now.probes && not self.now.options.now.by_timers) }
    {
        self.probes.has_lines() && !self.options.by_timers
    }

    /// Takes a line of a probe.
    fn probe(&mut self, line: &ProbeLine) -> Result<(), AllocError>
        ensures head { told_of self.new.head
            ≡ seen_on line.now.place.cpu (told_of self.old.head) }
        ensures shown { OnOk result
            (shown_in self.new ≡ with_probe (as_read line.now) (shown_in self.old)) }
    {
        self.see_probe(line.place.cpu);
        self.take_probe(line)
    }

    /// A line of a probe is of this CPU. Behind it lines of timers are kept only for the states that they show.
    #[tactic(auto, unfolding(crate::specs::Seen::shown_in))]
    fn see_probe(&mut self, cpu: u32)
        ensures head { told_of self.new.head ≡ seen_on cpu (told_of self.old.head) }
        ensures shown { shown_in self.new ≡ retimed (probe_seen cpu) (shown_in self.old) }
    {
        if self.plays_probes() && !self.keeps_timers {
            self.timers.forget();
        }
        self.head.greatest_cpu = self.head.greatest_cpu.max(cpu);
    }

    #[tactic(auto, unfolding(crate::specs::Seen::shown_in))]
    fn take_probe(&mut self, line: &ProbeLine) -> Result<(), AllocError>
        ensures head { self.new.head ≡ self.old.head }
        ensures shown { OnOk result
            (shown_in self.new ≡ probe_taken (as_read line.now) (shown_in self.old)) }
    {
        let told = ToldSettings {
            head: &self.head,
            options: self.options,
            has_older: self.has_older,
        };
        self.probes.take(line, told, &self.names)
    }

    /// Ends the lines of probes. False where the record is to be read again.
    pub(crate) fn end_probes(&mut self, options: &CheckOptions<'_>) -> Result<bool, AllocError>
        ensures shown { IfOk result (λ over. IsTrue over → shown_in self.new ≡ shown_in self.old) }
        ensures ended { IfOk result (λ over. IsTrue over → IsEnded options.now self.new) }
    {
        if options.by_timers {
            return Ok(true);
        }
        self.end_played(options)
    }

    #[tactic(auto, unfolding(crate::specs::Seen::shown_in))]
    fn end_played(&mut self, options: &CheckOptions<'_>) -> Result<bool, AllocError>
        ensures shown { IfOk result (λ over. IsTrue over → shown_in self.new ≡ shown_in self.old) }
        ensures ended { IfOk result (λ over. IsTrue over → IsEnded options.now self.new) }
    {
        let told = ToldSettings {
            head: &self.head,
            options,
            has_older: self.has_older,
        };
        self.probes.end(told, &self.names)
    }

    /// What the record has shown and its notes tell, for a second reading of it.
    pub(crate) fn into_seen(self) -> Result<SeenRecord, AllocError> {
        let notes = self
            .head
            .start_notes(self.alloc, self.options, self.has_older)?;
        let probes = self.probes;
        Ok(SeenRecord {
            look: probes.look,
            notes,
        })
    }
}

/// Whether a note or an event tells that something sets the frequency of a CPU.
fn tells_governor(told: &ToldLine<&[u8]>) -> bool
    ensures { result ≡ tells_governor (told_text told.now) }
{
    match told.governor {
        Some(_) => true,
        None => is_frequency(told.change),
    }
}

/// Whether the moment of a line, or that of its note, is greater than each number of nanoseconds.
fn is_too_late(line: &RecordLine) -> bool
    ensures { result ≡ is_too_late line.now }
{
    match *line {
        RecordLine::Event { at, .. } => at == TOO_LATE,
        RecordLine::Note(TraceNote::Task { at: Some(at), .. }) => at == TOO_LATE,
        _ => false,
    }
}
