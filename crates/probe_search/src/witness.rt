//! A search that tells what it chose: each move is a line of text, in the order in which it was made.

use kernel_rules::Delayed;
use probe_explain::{ProbeLine, Search, Step};
use probe_run::{Effect, PendingEffect, Run, RunMove, UnlockedSum};
use probe_tasks::LineChoice;
use std::alloc::{AllocError, Global};
use std::collections::VecDeque;

/// Another search, with what it chose: `line N`, `settle N WHAT CPU`, `meet CPU`, `rest CPU`.
#[derive(Drop)]
pub struct Witness<S> {
    alloc: Global,
    search: S,
    pub text: String,
}

impl<S> Witness<S> {
    /// A witness of what this search chooses.
    pub fn new(alloc: Global, search: S) -> Witness<S> {
        Witness {
            alloc,
            search,
            text: String::new(alloc),
        }
    }

    fn put_settled(&mut self, pending: &PendingEffect) -> Result<(), AllocError> {
        let line = pending.place.line;
        let text = match pending.effect {
            Effect::Adds {
                sum: UnlockedSum::ExtraBw(cpu),
                amount,
            } => {
                let what = if is_negative(amount) {
                    "taken"
                } else {
                    "freed"
                };
                format!(in self.alloc; "settle {line} {what} {cpu}\n")?
            }
            Effect::Adds {
                sum: UnlockedSum::TotalBw(_),
                amount,
            } => {
                let what = if is_negative(amount) {
                    "freed"
                } else {
                    "taken"
                };
                format!(in self.alloc; "settle {line} {what} total\n")?
            }
            Effect::Locks { cpu, delayed, .. } => {
                let what = match delayed {
                    Delayed::Moved => "moved",
                    Delayed::ZeroLag => "zero",
                };
                format!(in self.alloc; "settle {line} {what} {cpu}\n")?
            }
            Effect::Returns { .. } => format!(in self.alloc; "settle {line} returned\n")?,
            Effect::MovesOffline => format!(in self.alloc; "settle {line} offline\n")?,
        };
        self.text.push_str(text.as_str())
    }

    fn put_move(&mut self, run: &Run, chosen: RunMove) -> Result<(), AllocError> {
        let text = match chosen {
            RunMove::Settle(place) => {
                return match run.pending().get(place) {
                    Some(pending) => self.put_settled(pending),
                    None => self.text.push_str("settle nothing\n"),
                };
            }
            RunMove::Meet(cpu) => format!(in self.alloc; "meet {cpu}\n")?,
            RunMove::OpenDequeue(cpu) => format!(in self.alloc; "rest {cpu}\n")?,
        };
        self.text.push_str(text.as_str())
    }

    fn put_line(&mut self, next: &ProbeLine, choice: &LineChoice) -> Result<(), AllocError> {
        let line = next.place.line;
        let text = format!(in self.alloc; "line {line}")?;
        self.text.push_str(text.as_str())?;
        self.put_choice(" extra=", choice.extra_bw)?;
        self.put_choice(" late=", choice.late)?;
        self.put_choice(" paid=", choice.cost)?;
        self.text.push_str("\n")
    }

    fn put_choice(&mut self, name: &str, value: Option<u64>) -> Result<(), AllocError> {
        let Some(value) = value else {
            return Ok(());
        };
        let text = format!(in self.alloc; "{name}{value}")?;
        self.text.push_str(text.as_str())
    }
}

/// Whether a number modulo 2^64 stands for one below 0.
fn is_negative(amount: u64) -> bool {
    amount.cast_signed() < 0
}

impl<S: Search> Search for Witness<S> {
    fn choose(
        &mut self,
        run: &Run,
        next: &ProbeLine,
        ahead: &VecDeque<ProbeLine>,
    ) -> Result<Step, AllocError> {
        let step = self.search.choose(run, next, ahead)?;
        match step {
            Step::Move(chosen) => self.put_move(run, chosen)?,
            Step::Line(choice) => self.put_line(next, &choice)?,
        }
        Ok(step)
    }

    fn end(&mut self, run: &Run) -> Result<Option<RunMove>, AllocError> {
        let step = self.search.end(run)?;
        if let Some(chosen) = step {
            self.put_move(run, chosen)?;
        }
        Ok(step)
    }
}
