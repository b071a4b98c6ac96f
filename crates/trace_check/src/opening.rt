//! Marks of a record by timers, and from where on `extra_bw` is not known.

use check_record::Gathering;
use check_settings::{OpeningSign, SumsOpened};
use std::alloc::{AllocError, Global};

/// The lines of a verdict by timers that tell it; none where no line changes `extra_bw` by no rule of a task.
pub(crate) fn opening_text(
    alloc: Global,
    gathering: &Gathering<'_>,
) -> Result<Vec<u8>, AllocError> {
    let mut text = Vec::new(alloc);
    gathering.probes.marks.put_with(
        alloc,
        &mut text,
        b"; nothing is said of what the kernel did there\n",
    )?;
    if let Some(opening) = gathering.head.opening {
        put_opening(alloc, &mut text, opening)?;
    }
    Ok(text)
}

fn put_opening(alloc: Global, out: &mut Vec<u8>, opening: SumsOpened) -> Result<(), AllocError> {
    let line = opening.line;
    let start = match opening.sign {
        OpeningSign::Mark => format!(in alloc; "extra_bw unknown: from line {line} on, by a mark")?,
        OpeningSign::Hotplug { cpu } => {
            format!(in alloc;
                "extra_bw unknown: from line {line} on, since CPU {cpu} goes or comes"
            )?
        }
        OpeningSign::NewCpu { cpu } => {
            format!(in alloc;
                "extra_bw unknown: from line {line} on, of CPU {cpu}, which the head does not have"
            )?
        }
        OpeningSign::LateNote { pid } => {
            format!(in alloc;
                "extra_bw unknown: from line {line} on, since the note of pid {pid} came too late, and tells a later state"
            )?
        }
    };
    out.extend_from_slice(start.as_bytes())?;
    out.extend_from_slice(
        b". A task with SCHED_FLAG_RECLAIM is not compared from its next charge to a full wake\n",
    )?;
    Ok(())
}
