//! The lines of probes of a record: they are played as they come.

ghost use Rattle.std.specs.Prelude.{◌≡◌, ◌∷◌, ◌++◌, ◌||◌, ◌&&◌, [], IfOk, IfSome, IsTrue, None, OnOk, false, is_none, true};
ghost use Rattle.check_settings.specs.Heads.{chosen, law_by};
ghost use Rattle.probe_explain.specs.Taken.{IsExplainedWhere};
ghost use Rattle.probe_findings.specs.Tallies.{none_differs};
ghost use Rattle.probe_start.specs.Looks.{arms_timer, shows_dequeue};
ghost use Rattle.check_record.specs.Playing.{AreSeenBy, IsPlayedBy, has_lines, lines_in, rules_in, taken_in};

use crate::names::Names;
use crate::played::Played;
use check_settings::RecordHead;
use kernel_rules::ChargeLaw;
use probe_explain::ProbeLine;
use probe_findings::{Broken, Deviation, Findings, KindCounts, Laws};
use probe_start::{RecordLook, StartNotes};
use probe_verdict::{Marks, put_row, total_of};
use std::alloc::{AllocError, Global};
use std::collections::HashMap;
use trace_data::Probe;
use trace_options::CheckOptions;

/// So many lines of probes are looked at before the first of them is played.
const LOOK: usize = 16_384;

/// What notes and options tell so far.
#[derive(Clone, Copy)]
pub(crate) struct ToldSettings<'a> {
    pub head: &'a RecordHead,
    pub options: &'a CheckOptions<'a>,

    /// Whether a note tells of a task that is older than the record.
    pub has_older: bool,
}

impl ToldSettings<'_> {
    /// What is known before the first line of a probe.
    pub fn notes(self, alloc: Global) -> Result<StartNotes, AllocError> {
        self.head.start_notes(alloc, self.options, self.has_older)
    }

    /// Whose arithmetic the record is played by.
    pub fn law(self) -> ChargeLaw
        ensures { result ≡ law_by self.entry.head.now self.entry.options.now }
    {
        self.head.law(self.options)
    }
}

/// What a whole reading of a record has shown, and what its notes told.
#[derive(Drop)]
pub(crate) struct SeenRecord {
    pub look: RecordLook,
    pub notes: StartNotes,
}

/// The lines of probes so far.
#[derive(Drop)]
pub struct Probes {
    alloc: Global,

    /// The lines that are kept: all of them, or those that were not played yet.
    pub kept: Vec<ProbeLine>,
    keeps_all: bool,

    /// What they show, and what an earlier reading of the same record has shown.
    pub look: RecordLook,
    seen_before: Option<SeenRecord>,
    pub played: Option<Played>,
    laws: Laws,
    pub marks: Marks,

    /// What the laws came to, at the end.
    pub law_findings: Findings,

    /// The tasks that they show in the class, in the order of their first lines.
    pub in_class: Vec<u64>,
    places: HashMap<u64, usize>,

    /// Whether a line shows a task of the class.
    pub shows_task: bool,
    keeps_rows: bool,

    /// The rows of the comparisons so far.
    pub rows: Vec<u8>,
}

fn put_law_rows(
    alloc: Global,
    table: &mut Vec<u8>,
    findings: &Findings,
    names: &Names,
) -> Result<(), AllocError> {
    for row in &findings.rows {
        put_row(alloc, table, row, &names.tasks)?;
    }
    Ok(())
}

impl Probes {
    /// No line. With `keeps_all` all are kept, and played at their end.
    pub(crate) fn new(alloc: Global, keeps_rows: bool, keeps_all: bool) -> Probes
        ensures lines { lines_in result ≡ [] }
        ensures none { has_lines result ≡ false }
        ensures dequeues { result.look.has_dequeues ≡ false }
        ensures timers { result.look.has_timers ≡ false }
    {
        Probes {
            alloc,
            kept: Vec::new(alloc),
            keeps_all,
            look: RecordLook::new(alloc),
            seen_before: None,
            played: None,
            laws: Laws::new(alloc),
            marks: Marks::new(alloc),
            law_findings: Findings::new(alloc, keeps_rows),
            in_class: Vec::new(alloc),
            places: HashMap::new(alloc),
            shows_task: false,
            keeps_rows,
            rows: Vec::new(alloc),
        }
    }

    /// The record was looked at before.
    pub(crate) fn tell(&mut self, seen: SeenRecord)
        ensures lines { lines_in self.new ≡ lines_in self.old }
        ensures some { has_lines self.new ≡ has_lines self.old }
        ensures look { self.new.look ≡ self.old.look }
    {
        self.seen_before = Some(seen);
    }

    /// Whether there was a line.
    pub(crate) fn has_lines(&self) -> bool
        ensures { result ≡ has_lines self.now }
    {
        self.played.is_some() || !self.kept.is_empty()
    }

    /// Takes a line.
    pub(crate) fn take(
        &mut self,
        line: &ProbeLine,
        told: ToldSettings<'_>,
        names: &Names,
    ) -> Result<(), AllocError>
        ensures lines { OnOk result (lines_in self.new ≡ lines_in self.old ++ line.now ∷ []) }
        ensures some { OnOk result (has_lines self.new ≡ true) }
        ensures dequeues { OnOk result
            (self.new.look.has_dequeues ≡ (self.old.look.has_dequeues || shows_dequeue line.now.probe)) }
        ensures timers { OnOk result
            (self.new.look.has_timers ≡ (self.old.look.has_timers || arms_timer line.now.probe)) }
    {
        self.look_at(line)?;
        self.keep_or_play(line, told, names)?;
        self.put_rows(names)
    }

    /// What a line shows beside what it is played for.
    fn look_at(&mut self, line: &ProbeLine) -> Result<(), AllocError>
        ensures kept { self.new.kept ≡ self.old.kept }
        ensures taken { taken_in self.new ≡ taken_in self.old }
        ensures dequeues { OnOk result
            (self.new.look.has_dequeues ≡ (self.old.look.has_dequeues || shows_dequeue line.now.probe)) }
        ensures timers { OnOk result
            (self.new.look.has_timers ≡ (self.old.look.has_timers || arms_timer line.now.probe)) }
    {
        self.see_class(&line.probe)?;
        self.look.see(line.place.at, &line.probe)?;
        self.laws.see(line.place, &line.probe)?;
        self.marks.see(line.place, &line.probe)
    }

    fn keep_or_play(
        &mut self,
        line: &ProbeLine,
        told: ToldSettings<'_>,
        names: &Names,
    ) -> Result<(), AllocError>
        ensures lines { OnOk result (lines_in self.new ≡ lines_in self.old ++ line.now ∷ []) }
        ensures some { OnOk result (has_lines self.new ≡ true) }
        ensures look { self.new.look ≡ self.old.look }
    {
        match &mut self.played {
            Some(played) => played.take(line),
            None => self.keep(line, told, names),
        }
    }

    /// Keeps a line of a record that is not played yet.
    fn keep(
        &mut self,
        line: &ProbeLine,
        told: ToldSettings<'_>,
        names: &Names,
    ) -> Result<(), AllocError>
        requires { self.old.played ≡ None }
        ensures lines { OnOk result (lines_in self.new ≡ lines_in self.old ++ line.now ∷ []) }
        ensures some { OnOk result (has_lines self.new ≡ true) }
        ensures look { self.new.look ≡ self.old.look }
    {
        self.kept.push(*line)?;
        if self.is_looked_at() {
            self.play_kept(told, names)
        } else {
            Ok(())
        }
    }

    /// Whether enough lines were looked at to play them.
    fn is_looked_at(&self) -> bool {
        !self.keeps_all && (self.seen_before.is_some() || self.kept.len() >= LOOK)
    }

    /// Ends the lines. False where the record is to be read again, since its end shows what its begin did not.
    pub(crate) fn end(&mut self, told: ToldSettings<'_>, names: &Names) -> Result<bool, AllocError>
        ensures lines { IfOk result (λ over. IsTrue over → lines_in self.new ≡ lines_in self.old) }
        ensures some { IfOk result (λ over. IsTrue over → has_lines self.new ≡ has_lines self.old) }
        ensures none { IfOk result (λ over. IsTrue over →
            taken_in self.new ≡ None → lines_in self.new ≡ []) }
        ensures rules { IfOk result (λ over. IsTrue over → IfSome (rules_in self.new)
            (IsPlayedBy (law_by told.entry.head.now told.entry.options.now))) }
        ensures seen { IfOk result (λ over. IsTrue over →
            IfSome (rules_in self.new) (AreSeenBy self.new.look)) }
        ensures explained { IfOk result (λ over. IsTrue over →
            IfSome (taken_in self.new) IsExplainedWhere) }
        ensures look { self.new.look ≡ self.old.look }
    {
        self.play_rest(told, names)?;
        if !self.is_borne_out(told)? {
            return Ok(false);
        }
        self.finish(told, names)?;
        Ok(true)
    }

    /// Plays the lines of a record that is not played yet.
    fn play_rest(&mut self, told: ToldSettings<'_>, names: &Names) -> Result<(), AllocError>
        ensures lines { OnOk result (lines_in self.new ≡ lines_in self.old) }
        ensures some { OnOk result (has_lines self.new ≡ has_lines self.old) }
        ensures none { OnOk result (taken_in self.new ≡ None → lines_in self.new ≡ []) }
        ensures look { self.new.look ≡ self.old.look }
    {
        if self.played.is_none() {
            self.play_kept(told, names)
        } else {
            Ok(())
        }
    }

    /// Whether what was taken for granted at the begin holds to the end.
    fn is_borne_out(&self, told: ToldSettings<'_>) -> Result<bool, AllocError>
        ensures rules { IfOk result (λ holds. IsTrue holds → IfSome (rules_in self.now)
            (IsPlayedBy (law_by told.entry.head.now told.entry.options.now))) }
        ensures seen { IfOk result (λ holds. IsTrue holds →
            IfSome (rules_in self.now) (AreSeenBy self.now.look)) }
    {
        match &self.played {
            Some(played) => {
                let notes = told.notes(self.alloc)?;
                Ok(played.is_borne_out(told.law(), &self.look, &notes))
            }
            None => Ok(true),
        }
    }

    fn finish(&mut self, told: ToldSettings<'_>, names: &Names) -> Result<(), AllocError>
        ensures rules { OnOk result (rules_in self.new ≡ rules_in self.old) }
        ensures lines { OnOk result (lines_in self.new ≡ lines_in self.old) }
        ensures some { OnOk result (has_lines self.new ≡ has_lines self.old) }
        ensures explained { OnOk result (IfSome (taken_in self.new) IsExplainedWhere) }
        ensures look { self.new.look ≡ self.old.look }
    {
        let notes = told.notes(self.alloc)?;
        self.end_played()?;
        if self.played.is_some() {
            self.finish_laws(&notes)?;
        }
        self.put_rows(names)?;
        put_law_rows(self.alloc, &mut self.rows, &self.law_findings, names)
    }

    fn end_played(&mut self) -> Result<(), AllocError>
        ensures rules { OnOk result (rules_in self.new ≡ rules_in self.old) }
        ensures lines { OnOk result (lines_in self.new ≡ lines_in self.old) }
        ensures some { OnOk result (has_lines self.new ≡ has_lines self.old) }
        ensures explained { OnOk result (IfSome (taken_in self.new) IsExplainedWhere) }
        ensures look { self.new.look ≡ self.old.look }
    {
        match &mut self.played {
            Some(played) => played.end(),
            None => Ok(()),
        }
    }

    fn finish_laws(&mut self, notes: &StartNotes) -> Result<(), AllocError>
        ensures kept { self.new.kept ≡ self.old.kept }
        ensures taken { taken_in self.new ≡ taken_in self.old }
        ensures look { self.new.look ≡ self.old.look }
    {
        let findings = &mut self.law_findings;
        self.laws.finish(notes.settings, &notes.servers, findings)
    }

    /// The tasks that are enqueued are of the class.
    fn see_class(&mut self, probe: &Probe) -> Result<(), AllocError>
        ensures kept { self.new.kept ≡ self.old.kept }
        ensures taken { taken_in self.new ≡ taken_in self.old }
        ensures look { self.new.look ≡ self.old.look }
    {
        self.shows_task = self.shows_task || shows_task(probe);
        if let Probe::Enqueued(line) = probe
            && !self.places.contains_key(&line.pid)
        {
            self.places.insert(line.pid, self.in_class.len())?;
            self.in_class.push(line.pid)?;
        }
        Ok(())
    }

    /// Plays the lines that were kept, of a record that is not played yet.
    fn play_kept(&mut self, told: ToldSettings<'_>, names: &Names) -> Result<(), AllocError>
        requires { self.old.played ≡ None }
        ensures lines { OnOk result (lines_in self.new ≡ lines_in self.old) }
        ensures some { OnOk result (has_lines self.new ≡ has_lines self.old) }
        ensures none { OnOk result (taken_in self.new ≡ None → lines_in self.new ≡ []) }
        ensures look { self.new.look ≡ self.old.look }
    {
        if self.kept.is_empty() {
            return Ok(());
        }
        let mut played = self.begun(told)?;
        played.take_all(self.alloc, &self.kept, &mut self.rows, names)?;
        self.played = Some(played);
        if !self.keeps_all {
            self.kept.clear();
        }
        Ok(())
    }

    /// A play of no line, by what is known so far.
    fn begun(&self, told: ToldSettings<'_>) -> Result<Played, AllocError>
        ensures { IfOk result (λ p. p.player.lines ≡ []) }
    {
        match &self.seen_before {
            Some(seen) => Played::new(
                self.alloc,
                told.law(),
                &seen.look,
                &seen.notes,
                self.keeps_rows,
            ),
            None => {
                let notes = told.notes(self.alloc)?;
                Played::new(self.alloc, told.law(), &self.look, &notes, self.keeps_rows)
            }
        }
    }

    /// Appends the rows of the comparisons since the last time.
    fn put_rows(&mut self, names: &Names) -> Result<(), AllocError>
        ensures kept { self.new.kept ≡ self.old.kept }
        ensures taken { taken_in self.new ≡ taken_in self.old }
        ensures look { self.new.look ≡ self.old.look }
    {
        if !self.keeps_rows {
            return Ok(());
        }
        match &mut self.played {
            Some(played) => played.put_rows(self.alloc, &mut self.rows, names),
            None => Ok(()),
        }
    }

    /// How many values of each kind were compared, those of laws too.
    pub fn counts(&self, played: &Played) -> KindCounts {
        KindCounts {
            laws: self.law_findings.counts.laws,
            ..played.player.run().counts()
        }
    }

    /// How many values differ, and laws are broken.
    pub fn differ(&self) -> u64 {
        match &self.played {
            Some(played) => total_of(&self.counts(played)).differ,
            None => 0,
        }
    }

    /// Whether each value that was compared is the kernel's, and each law holds.
    pub fn agrees(&self, played: &Played) -> bool
        ensures equal { IsTrue result → played.now.player.first ≡ None }
        ensures all { result ≡ (is_none played.now.player.first
            && none_differs self.now.law_findings.counts) }
    {
        played.player.run().agrees() && self.keeps_laws()
    }

    /// Whether each law holds.
    pub fn keeps_laws(&self) -> bool
        ensures { result ≡ none_differs self.now.law_findings.counts }
    {
        self.law_findings.agrees()
    }

    /// How many laws are broken.
    pub fn broken_laws(&self) -> u64
        ensures { result ≡ self.now.law_findings.counts.laws.differ }
    {
        self.law_findings.counts.laws.differ
    }

    /// The first value that differs; where none does, the first law that is broken.
    pub fn first(&self, played: &Played) -> Option<Deviation>
        ensures { result ≡ chosen played.now.player.first self.now.law_findings.first }
    {
        match played.player.run().first() {
            Some(first) => Some(first),
            None => self.law_findings.first,
        }
    }

    /// The first law that is broken.
    pub fn broken(&self) -> Option<Broken> {
        self.laws.broken
    }
}

/// Whether a line shows what a task of the class has.
fn shows_task(probe: &Probe) -> bool {
    matches!(
        probe,
        Probe::Enqueued(_) | Probe::Updated(_) | Probe::Dequeued(_) | Probe::LeftClass(_)
    )
}
