//! Which one changed rule explains what timers show.

use probe_verdict::{Trial, change_name, explains, is_guess};
use std::alloc::{AllocError, Global};

/// Appends the changes with which each timer agrees, and those that take away nine tenths of what differs, of a record of which so
/// many timers differ.
pub fn put_explanation(
    alloc: Global,
    out: &mut Vec<u8>,
    differ: u64,
    trials: &[Trial],
) -> Result<(), AllocError> {
    let is_explained = put_explaining(alloc, out, differ, trials)?;
    let is_guessed = put_guesses(alloc, out, differ, trials)?;
    if is_explained || is_guessed {
        return Ok(());
    }
    out.extend_from_slice(b"  no one changed rule explains it\n")?;
    Ok(())
}

/// Appends the changes with which each timer agrees. True where there is one.
fn put_explaining(
    alloc: Global,
    out: &mut Vec<u8>,
    differ: u64,
    trials: &[Trial],
) -> Result<bool, AllocError> {
    let mut is_named = false;
    for trial in trials {
        if explains(differ == 0, trial.agrees) {
            is_named = true;
            put_cause(alloc, out, *trial)?;
        }
    }
    Ok(is_named)
}

fn put_cause(alloc: Global, out: &mut Vec<u8>, trial: Trial) -> Result<(), AllocError> {
    let name = change_name(trial.change);
    let text = format!(in alloc; "  with one rule changed, \"{name}\": the kernel agrees\n")?;
    out.extend_from_slice(text.as_bytes())?;
    Ok(())
}

/// Appends the changes that take away nine tenths of what differs, and not all. True where there is one.
fn put_guesses(
    alloc: Global,
    out: &mut Vec<u8>,
    differ: u64,
    trials: &[Trial],
) -> Result<bool, AllocError> {
    let mut is_named = false;
    for trial in trials {
        if is_guess(differ, trial.differ) {
            is_named = true;
            put_guess(alloc, out, *trial)?;
        }
    }
    Ok(is_named)
}

fn put_guess(alloc: Global, out: &mut Vec<u8>, trial: Trial) -> Result<(), AllocError> {
    let name = change_name(trial.change);
    let differ = trial.differ;
    let text = format!(in alloc;
        "  with one rule changed, \"{name}\": a guess, since {differ} still differ\n"
    )?;
    out.extend_from_slice(text.as_bytes())?;
    Ok(())
}
