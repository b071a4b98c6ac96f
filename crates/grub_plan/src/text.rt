//! The texts of entries and reports.

ghost use Rattle.std.specs.Prelude.{◌≡◌, ◌++◌, All, length, OnOk, IfOk};
ghost use Rattle.grub_plan.specs.Plans.{IsAskOf};
ghost use Rattle.grub_plan.specs.Texts.{reading_text, entry_line, report_text};

use crate::entry::{Entry, Report};
use crate::pieces::{READING_MAX, append_close, append_entry, append_head, append_reading};
use crate::plan::Plan;
use grub_book::Reading;
use std::alloc::{AllocError, Global};
use std::error::Error;
use std::fmt;
use text_bytes::LINE_MAX;

/// Why a text was not made.
#[derive(Clone, Copy, Debug, PartialEq, Eq)]
pub enum TextFault {
    /// 43: the allocator refused.
    NoMemory,
}

impl fmt::Display for TextFault {
    ghost use Rattle.std.specs.Prelude.{Some};
    ghost use Rattle.grub_plan.specs.Messages.{text_fault_text};

    ghost output = { λ _. Some text_fault_text };

    fn fmt<W: fmt::Write>(&self, f: &mut fmt::Formatter<W>) -> fmt::Result {
        f.write_str(match self {
            TextFault::NoMemory => "43 NoMemory",
        })
    }
}

impl Error for TextFault {}

impl From<AllocError> for TextFault {
    fn from(_e: AllocError) -> TextFault {
        TextFault::NoMemory
    }
}

/// Appends the text of a reading. It is refused where the allocator refused.
pub fn put_reading(out: &mut Vec<u8>, reading: Reading) -> Result<(), AllocError>
    ensures { OnOk result (out.new.items ≡ out.old.items ++ reading_text reading) }
{
    out.reserve(READING_MAX)?;
    append_reading(out, reading);
    Ok(())
}

/// The line of an entry, with the byte that ends it. Its task is to be one of the plan's.
/// It is refused with 43 where the allocator refused.
pub fn line_of(alloc: Global, plan: &Plan, entry: &Entry) -> Result<Vec<u8>, TextFault>
    requires { IsAskOf (length plan.now.setup.tasks) entry.now.ask }
    ensures { IfOk result (λ v. v.items ≡ entry_line plan.now.names entry.now) }
{
    let mut line = Vec::with_capacity(alloc, LINE_MAX)?;
    append_entry(&mut line, plan, *entry);
    Ok(line)
}

/// The text of the report of runqueue `r`: its number, a line for each entry, and the closing reading.
/// The entries' tasks are to be the plan's. It is refused with 43 where the allocator refused.
#[tactic(auto, unfolding(crate::specs::Texts::report_text))]
pub fn report_of(
    alloc: Global,
    plan: &Plan,
    r: u32,
    report: &Report,
    closing: Reading,
) -> Result<Vec<u8>, TextFault>
    requires { All (λ e. IsAskOf (length plan.now.setup.tasks) e.ask) report.now.entries.items }
    ensures { IfOk result
        (λ v. v.items ≡ report_text plan.now.names r report.now.entries.items closing) }
{
    let mut text = Vec::with_capacity(alloc, LINE_MAX)?;
    append_head(&mut text, r);
    for entry in &report.entries {
        text.reserve(LINE_MAX)?;
        append_entry(&mut text, plan, *entry);
    }
    text.reserve(LINE_MAX)?;
    append_close(&mut text, closing);
    Ok(text)
}
