//! The laws of a record, beside its rules.

use kernel_rules::BW_UNIT;
use law_findings::{AskedLaws, JudgedLaws, LawFigures, ReadLine};
use law_play::LawPlay;
use law_timers::TimerLaws;
use law_verdict::FigureLines;
use std::alloc::{AllocError, Global};
use trace_data::{Fixed, Kernel, Limit, Probe, Said};

/// What became of the laws in a record, and what is told beside them.
#[derive(Drop)]
pub struct LawsOfRecord {
    pub judged: JudgedLaws,
    pub figures: LawFigures,
}

/// What the laws need of the lines so far.
#[derive(Drop)]
pub struct RecordLaws {
    alloc: Global,
    asked: AskedLaws,
    keeps_breaches: bool,

    /// The root domain of the last note, and whether notes tell of several.
    domain: Option<u64>,
    has_domains: bool,

    /// The CPUs whose extra_bw is too low by a note.
    low: Vec<u32>,
    play: Option<LawPlay>,

    /// By lines of timers, as long as no line of a probe was read.
    timers: Option<TimerLaws>,
    has_probes: bool,

    /// What each task had.
    pub figures: FigureLines,
}

impl RecordLaws {
    pub(crate) fn new(alloc: Global, asked: AskedLaws, keeps_breaches: bool) -> RecordLaws {
        RecordLaws {
            alloc,
            asked,
            keeps_breaches,
            domain: None,
            has_domains: false,
            low: Vec::new(alloc),
            play: None,
            timers: None,
            has_probes: false,
            figures: FigureLines::new(alloc),
        }
    }

    /// A note tells the root domain of a CPU.
    pub(crate) fn note_domain(&mut self, domain: Option<u64>) {
        self.has_domains = self.has_domains || self.domain.is_some() && domain != self.domain;
        self.domain = domain;
    }

    /// A note tells the extra_bw of a CPU, and the head the limit and what is admitted.
    pub(crate) fn note_extra(
        &mut self,
        cpu: u32,
        extra_bw: u64,
        limit: Option<Limit>,
        total_bw: Option<u64>,
    ) -> Result<(), AllocError> {
        if extra_bw.cast_signed() < least_left(limit, total_bw) {
            self.low.push(cpu)?;
        }
        Ok(())
    }

    /// Takes a line of an event, of a record of this kernel.
    pub(crate) fn take(
        &mut self,
        kernel: Option<Kernel>,
        read: ReadLine,
        said: &Said,
    ) -> Result<(), AllocError> {
        self.figures.take(said)?;
        self.take_timers(kernel, read, said)?;
        match &mut self.play {
            Some(play) => play.take(read, said),
            None => self.take_first(kernel, read, said),
        }
    }

    /// Takes the first line of an event.
    fn take_first(
        &mut self,
        kernel: Option<Kernel>,
        read: ReadLine,
        said: &Said,
    ) -> Result<(), AllocError> {
        let mut play = LawPlay::new(self.alloc, kernel, self.asked, self.keeps_breaches);
        if self.has_domains {
            play.part_domains();
        }
        for cpu in self.low.iter() {
            play.begin_low(*cpu)?;
        }
        let taken = play.take(read, said);
        self.play = Some(play);
        taken
    }

    /// Lines of probes show more than lines of timers: from the first of them on these are not needed. Marks stand in both records.
    fn take_timers(
        &mut self,
        kernel: Option<Kernel>,
        read: ReadLine,
        said: &Said,
    ) -> Result<(), AllocError> {
        match said {
            Said::Fixed(fixed) if !self.has_probes => match &mut self.timers {
                Some(timers) => timers.take(read, fixed),
                None => self.take_first_timers(kernel, read, fixed),
            },
            Said::Fixed(_) => Ok(()),
            Said::Probe(Probe::Mark(_)) => {
                if let Some(timers) = &mut self.timers {
                    timers.mark();
                }
                Ok(())
            }
            Said::Probe(_) => {
                if !self.has_probes {
                    self.end_timers();
                }
                Ok(())
            }
        }
    }

    /// A line of a probe was read.
    fn end_timers(&mut self) {
        self.has_probes = true;
        self.timers = None;
    }

    /// Takes the first line of timers.
    fn take_first_timers(
        &mut self,
        kernel: Option<Kernel>,
        read: ReadLine,
        fixed: &Fixed,
    ) -> Result<(), AllocError> {
        let mut timers = TimerLaws::new(self.alloc, kernel, self.asked, self.keeps_breaches);
        let taken = timers.take(read, fixed);
        self.timers = Some(timers);
        taken
    }

    /// Takes the end of the record: what became of the laws, by its lines of probes, or else by those of timers.
    pub fn finish(&mut self) -> Result<Option<LawsOfRecord>, AllocError> {
        if let Some(mut timers) = self.timers.take() {
            let figures = timers.finish()?;
            let judged = timers.judged;
            return Ok(Some(LawsOfRecord { judged, figures }));
        }
        let Some(mut play) = self.play.take() else {
            return Ok(None);
        };
        let figures = play.finish()?;
        let judged = play.judged;
        Ok(Some(LawsOfRecord { judged, figures }))
    }
}

/// What a limit and what is admitted leave of each CPU at least, and 0 where one of them is not told.
fn least_left(limit: Option<Limit>, total_bw: Option<u64>) -> i64 {
    match (limit, total_bw) {
        (Some(Limit::MaxBw(max_bw)), Some(total_bw)) => max_bw
            .min(BW_UNIT)
            .cast_signed()
            .wrapping_sub(total_bw.cast_signed()),
        _ => 0,
    }
}
