//! What became of the laws that a record is held to, line by line.

ghost use Rattle.std.specs.Prelude.{◌≡◌, OnOk, [], true, false};
ghost use Rattle.law_findings.specs.Asked.{is_asked};
ghost use Rattle.law_findings.specs.Judged.{OnlyTells, breaches_with, broken_in, held_in, judged_by, place_of, sign_in};
ghost use Rattle.law_findings.specs.Tallies.{judged_in, no_tallies};
ghost use Rattle.law_findings.specs.declared.judging.Judgement.TheVariants.{Holds};

use crate::asked::AskedLaws;
use crate::judging::{Judgement, LawTallies};
use crate::known::{Sign, is_known};
use crate::words::{Breach, Law, LawLine, LineKind};
use std::alloc::{AllocError, Global};
use trace_data::Kernel;

/// Where a line stands: its number, its moment in nanoseconds, the CPU that wrote it, and the task that ran there.
#[derive(Clone, Copy)]
pub struct ReadLine {
    pub line: u64,
    pub at: u64,
    pub cpu: u32,
    pub pid: u64,
}

impl ReadLine {
    /// The place of a value that a line of this kind shows.
    pub fn place(self, kind: LineKind) -> LawLine
        ensures { result ≡ place_of self kind }
    {
        LawLine {
            line: self.line,
            at: self.at,
            cpu: self.cpu,
            kind,
        }
    }
}

/// The laws that a record is held to, how often each held, and what broke it.
#[derive(Drop)]
pub struct JudgedLaws {
    /// The record's kernel: its release says which faults are known.
    pub kernel: Option<Kernel>,
    pub asked: AskedLaws,
    pub tallies: LawTallies,

    /// Each breach is kept, and not only counted.
    pub keeps_breaches: bool,
    pub breaches: Vec<Breach>,
}

impl JudgedLaws {
    /// No value is judged yet.
    pub fn new(
        alloc: Global,
        kernel: Option<Kernel>,
        asked: AskedLaws,
        keeps_breaches: bool,
    ) -> JudgedLaws
        ensures kernel { result.kernel ≡ kernel }
        ensures asked { result.asked ≡ asked }
        ensures tallies { result.tallies ≡ no_tallies }
        ensures keeps_breaches { result.keeps_breaches ≡ keeps_breaches }
        ensures breaches { result.breaches.items ≡ [] }
    {
        JudgedLaws {
            kernel,
            asked,
            tallies: LawTallies::new(),
            keeps_breaches,
            breaches: Vec::new(alloc),
        }
    }

    /// A value keeps this law.
    pub fn holds(&mut self, law: Law)
        ensures asked { is_asked self.old.asked law ≡ true
            → self.new.tallies ≡ judged_in self.old.tallies law Holds }
        ensures unasked { is_asked self.old.asked law ≡ false → self.new.tallies ≡ self.old.tallies }
        ensures all { self.new.tallies ≡ held_in self.old law }
        ensures only { OnlyTells self.old self.new }
    {
        if self.asked.asks(law) {
            self.tallies.judge(law, Judgement::Holds);
        }
    }

    /// A value breaks its law; its sign is kept where the kernel is known to have that fault.
    pub fn breaks(&mut self, breach: Breach) -> Result<(), AllocError>
        ensures unasked { is_asked self.old.asked breach.law ≡ false
            → OnOk result (self.new.tallies ≡ self.old.tallies) }
        ensures all { OnOk result (self.new.tallies ≡ broken_in self.old breach) }
        ensures breaches { OnOk result (self.new.breaches.items ≡ breaches_with self.old breach) }
        ensures only { OnlyTells self.old self.new }
    {
        if !self.asked.asks(breach.law) {
            return Ok(());
        }
        let breach = Breach {
            sign: sign_in(breach.sign, self.kernel),
            ..breach
        };
        if self.keeps_breaches {
            self.breaches.push(breach)?;
        }
        self.tallies
            .judge(breach.law, judged_by(breach.sign, breach));
        Ok(())
    }
}

/// A sign counts where the kernel is known to have the fault.
fn sign_in(sign: Option<Sign>, kernel: Option<Kernel>) -> Option<Sign>
    ensures { result ≡ sign_in kernel sign }
{
    match sign {
        Some(sign) if is_known(sign, kernel) => Some(sign),
        _ => None,
    }
}

fn judged_by(sign: Option<Sign>, breach: Breach) -> Judgement
    ensures { result ≡ judged_by sign breach }
{
    match sign {
        Some(_) => Judgement::Known(breach),
        None => Judgement::Breaks(breach),
    }
}
