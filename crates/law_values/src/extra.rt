//! What the admitted leave of a processor: extra_bw.

use crate::shares::Total;
use law_findings::{
    Breach, Finding, JudgedLaws, Law, LineKind, ReadLine, Sign, Whose, is_not_negative,
};
use std::alloc::AllocError;

impl Total {
    /// A line shows the extra_bw of a CPU.
    pub fn judge_extra(
        &mut self,
        judged: &mut JudgedLaws,
        read: ReadLine,
        kind: LineKind,
        cpu: u32,
        extra_bw: u64,
    ) -> Result<(), AllocError> {
        if is_not_negative(extra_bw) {
            if self.below.is_empty() || !self.below.iter().any(|it| *it == cpu) {
                judged.holds(Law::Total);
            }
            return Ok(());
        }
        if self.below.iter().any(|it| *it == cpu) {
            return Ok(());
        }
        self.below.push(cpu)?;
        judged.breaks(Breach {
            law: Law::Total,
            place: read.place(kind),
            whose: Whose::Cpu { cpu },
            finding: Finding::NegativeExtra {
                extra_bw: extra_bw.cast_signed(),
            },
            sign: Some(self.sign_of(cpu)),
        })
    }

    /// The record begins with an extra_bw of this CPU that is too low.
    pub fn begin_low(&mut self, cpu: u32) -> Result<(), AllocError> {
        self.low_at_start.push(cpu)?;
        Ok(())
    }

    /// What an extra_bw of this CPU that is below 0 has in common with a known fault.
    fn sign_of(&self, cpu: u32) -> Sign {
        if self.low_at_start.iter().any(|it| *it == cpu) {
            Sign::LowAtStart
        } else if self.has_marks {
            Sign::SharesTakenAgain
        } else {
            Sign::ServersTakenTwice
        }
    }
}
