//! Which one changed rule explains a record.

ghost use Rattle.std.specs.Prelude.{◌≡◌};
ghost use Rattle.probe_verdict.specs.Explained.{is_explained, is_guess_of};

use crate::changes::change_name;
use crate::text::total_of;
use crate::writing::{put, put_count};
use kernel_changes::RuleChange;
use probe_findings::KindCounts;
use std::alloc::{AllocError, Global};

/// What a play with one rule changed comes to.
#[derive(Clone, Copy)]
pub struct Trial {
    pub change: RuleChange,

    /// Whether each comparison is equal.
    pub agrees: bool,

    /// How many differ.
    pub differ: u64,
}

/// Whether a change explains a record: the play of the record as it stands differs, and with the change it agrees.
pub fn explains(agrees: bool, agrees_changed: bool) -> bool
    ensures { result ≡ is_explained agrees agrees_changed }
{
    !agrees && agrees_changed
}

/// Whether a change takes away nine tenths of what differs, and not all.
pub fn is_guess(as_it_stands: u64, changed: u64) -> bool
    ensures { result ≡ is_guess_of as_it_stands changed }
{
    changed != 0 && changed <= as_it_stands / 10
}

/// Appends the changes that explain the record, and then those that take away nine tenths of what differs; `agrees` is the answer
/// of the play as it stands.
pub fn put_explanation(
    alloc: Global,
    out: &mut Vec<u8>,
    agrees: bool,
    counts: &KindCounts,
    trials: &[Trial],
) -> Result<(), AllocError> {
    let is_explained = put_explaining(out, agrees, trials)?;
    let is_guessed = put_guesses(alloc, out, total_of(counts).differ, trials)?;
    if is_explained || is_guessed {
        return Ok(());
    }
    put(out, "  no one changed rule explains it\n")
}

fn put_change(out: &mut Vec<u8>, change: RuleChange) -> Result<(), AllocError> {
    put(out, "  with one rule changed, \"")?;
    put(out, change_name(change))?;
    put(out, "\": ")
}

/// Appends the changes with which the record agrees. True where there is one.
fn put_explaining(out: &mut Vec<u8>, agrees: bool, trials: &[Trial]) -> Result<bool, AllocError> {
    let mut is_named = false;
    for trial in trials {
        if explains(agrees, trial.agrees) {
            is_named = true;
            put_change(out, trial.change)?;
            put(out, "the kernel agrees, bit for bit\n")?;
        }
    }
    Ok(is_named)
}

/// Appends the changes that take away nine tenths of what differs, and not all. True where there is one.
fn put_guesses(
    alloc: Global,
    out: &mut Vec<u8>,
    differ: u64,
    trials: &[Trial],
) -> Result<bool, AllocError> {
    let mut is_named = false;
    for trial in trials {
        if is_guess(differ, trial.differ) {
            is_named = true;
            put_guess(alloc, out, *trial)?;
        }
    }
    Ok(is_named)
}

fn put_guess(alloc: Global, out: &mut Vec<u8>, trial: Trial) -> Result<(), AllocError> {
    put_change(out, trial.change)?;
    put(out, "a guess, since ")?;
    put_count(alloc, out, trial.differ)?;
    put(out, " still differ\n")
}
