//! What all proposals together come to, in words.

ghost use Rattle.std.specs.Prelude.{◌≡◌, ◌++◌, ◌*◌, IfOk, OnOk, decimal, option_map, if◌then◌else◌};
ghost use Rattle.size_admission.specs.Told.{TellsAll, all_text};
ghost use Rattle.size_admission.specs.Texts.{admission_text, admits_text, bound_text, in_time_text, is_used, less_text, percent_text, placed_text, processor_text, processors_text, together_text, with_names, with_piece};

use crate::admission::{Proposal, RootDomain, bandwidth, hundredths, is_admitted, is_in_time};
use crate::table::{
    TableRow, heading, hundredths_cell, number_cell, put_hundredths, put_table, put_text,
};
use crate::together::{Placed, Together, add_up, load};
use std::alloc::{AllocError, Global};
use text_bytes::put_number;

/// The table of the proposals.
fn rows_text(alloc: Global, proposals: &[Proposal]) -> Result<Vec<u8>, AllocError> {
    let mut rows: Vec<TableRow> = Vec::new(alloc);
    rows.push(heading(alloc, &["task", "runtime", "period", "%"])?)?;
    for one in proposals {
        let mut row = Vec::new(alloc);
        row.push(Vec::from_slice(alloc, &one.comm)?)?;
        row.push(number_cell(alloc, u64::from(one.runtime))?)?;
        row.push(number_cell(alloc, u64::from(one.period))?)?;
        row.push(hundredths_cell(alloc, hundredths(bandwidth(one.runtime, one.period)))?)?;
        rows.push(row)?;
    }
    let mut out = Vec::new(alloc);
    put_table(&mut out, &rows, &[0], 2)?;
    Ok(out)
}

#[tactic(auto, unfolding(crate::specs::Texts::percent_text))]
fn put_percent(out: &mut Vec<u8>, bandwidth: u64) -> Result<(), AllocError>
    ensures { OnOk result (out.new.items ≡ out.old.items ++ percent_text bandwidth) }
{
    put_hundredths(out, hundredths(bandwidth))
}

/// Writes what so much of each processor comes to.
fn put_share(out: &mut Vec<u8>, part: u32, machine: RootDomain) -> Result<(), AllocError>
    ensures { OnOk result
        (out.new.items ≡ out.old.items ++ percent_text (part * machine.processors)) }
{
    put_percent(out, u64::from(part) * u64::from(machine.processors))
}

/// Writes how many processors there are.
fn put_count(out: &mut Vec<u8>, machine: RootDomain) -> Result<(), AllocError>
    ensures { OnOk result (out.new.items ≡ out.old.items ++ decimal machine.processors) }
{
    put_number(out, b"", u64::from(machine.processors))
}

/// Writes one of two texts.
fn put_either(out: &mut Vec<u8>, holds: bool, yes: &str, no: &str) -> Result<(), AllocError>
    ensures { OnOk result (out.new.items ≡ out.old.items ++ (if holds then yes.now else no.now)) }
{
    put_text(out, if holds { yes } else { no })
}

/// Writes what a root domain keeps for its fair servers.
fn put_less(out: &mut Vec<u8>, machine: RootDomain) -> Result<(), AllocError>
    ensures { OnOk result (out.new.items ≡ out.old.items ++ less_text machine) }
{
    if machine.fair == 0 {
        return Ok(());
    }
    put_text(out, ", less ")?;
    put_share(out, machine.fair, machine)?;
    put_text(out, " % for fair servers")
}

/// Writes what a root domain admits.
fn put_admits(out: &mut Vec<u8>, machine: RootDomain) -> Result<(), AllocError>
    ensures { OnOk result (out.new.items ≡ out.old.items ++ admits_text machine) }
{
    put_text(out, " % of a processor; ")?;
    put_count(out, machine)?;
    put_text(out, " processors admit ")?;
    put_share(out, machine.most, machine)?;
    put_text(out, " %")?;
    Ok(())
}

fn put_admission(out: &mut Vec<u8>, sum: u64, machine: RootDomain) -> Result<(), AllocError>
    ensures { OnOk result (out.new.items ≡ out.old.items ++ admission_text sum machine) }
{
    put_text(out, "  ")?;
    put_percent(out, sum)?;
    put_admits(out, machine)?;
    put_less(out, machine)?;
    let holds = is_admitted(sum, machine);
    put_either(out, holds, ": admitted\n", ": refused, EBUSY\n")?;
    Ok(())
}

/// Writes what all proposals come to beside the fair servers.
fn put_together(out: &mut Vec<u8>, sum: u64, machine: RootDomain) -> Result<(), AllocError>
    ensures { OnOk result (out.new.items ≡ out.old.items ++ together_text sum machine) }
{
    put_count(out, machine)?;
    put_text(out, " processors together: ")?;
    put_percent(out, sum)?;
    put_text(out, " + ")?;
    put_share(out, machine.fair, machine)
}

/// Writes to how much global EDF keeps all deadlines.
fn put_bound(out: &mut Vec<u8>, greatest: u64, machine: RootDomain) -> Result<(), AllocError>
    ensures { OnOk result (out.new.items ≡ out.old.items ++ bound_text greatest machine) }
{
    let processors = u64::from(machine.processors);
    put_number(out, b"", processors * 100)?;
    put_number(out, b" - ", processors.saturating_sub(1))?;
    put_text(out, " * ")?;
    put_percent(out, greatest)?;
    put_text(out, "\n")
}

fn put_in_time(
    out: &mut Vec<u8>,
    sum: u64,
    greatest: u64,
    machine: RootDomain,
) -> Result<(), AllocError>
    ensures { OnOk result (out.new.items ≡ out.old.items ++ in_time_text sum greatest machine) }
{
    let holds = is_in_time(sum, greatest, machine);
    put_either(
        out,
        holds,
        "  in time on ",
        "  late by a bounded time, maybe, on ",
    )?;
    put_together(out, sum, machine)?;
    put_either(out, holds, " <= ", " > ")?;
    put_bound(out, greatest, machine)?;
    Ok(())
}

/// Writes a piece behind others, and a sign between them.
fn put_piece(out: &mut Vec<u8>, sign: &[u8], piece: &[u8]) -> Result<(), AllocError>
    ensures { OnOk result (out.new.items ≡ with_piece sign.now out.old.items piece.now) }
{
    if piece.is_empty() {
        return Ok(());
    }
    if !out.is_empty() {
        out.extend_from_slice(sign)?;
    }
    out.extend_from_slice(piece)
}

/// Writes the comms of the tasks on a processor, with a space between each and the next.
fn put_names(
    out: &mut Vec<u8>,
    proposals: &[Proposal],
    placed: &[Placed],
    processor: usize,
) -> Result<(), AllocError>
    ensures { OnOk result (out.new.items
        ≡ with_names processor out.old.items proposals.now placed.now) }
{
    let [one, proposals @ ..] = proposals else {
        return Ok(());
    };
    let [place, placed @ ..] = placed else {
        return Ok(());
    };
    if place.processor == processor {
        put_piece(out, b" ", &one.comm)?;
    }
    put_names(out, proposals, placed, processor)
}

/// Whether a task is on a processor.
fn is_used(placed: &[Placed], processor: usize) -> bool
    ensures { result ≡ is_used processor placed.now }
{
    placed.iter().any(|place| place.processor == processor)
}

/// Which tasks share a processor, and what they come to. A processor that nothing uses is left out.
#[tactic(auto, unfolding(crate::specs::Texts::processor_text))]
fn processor_text(
    alloc: Global,
    proposals: &[Proposal],
    placed: &[Placed],
    processor: usize,
) -> Result<Vec<u8>, AllocError>
    ensures { IfOk result (λ v. v.items ≡ processor_text processor proposals.now placed.now) }
{
    let mut out = Vec::new(alloc);
    if !is_used(placed, processor) {
        return Ok(out);
    }
    put_names(&mut out, proposals, placed, processor)?;
    put_text(&mut out, " ")?;
    put_percent(&mut out, load(placed, processor))?;
    put_text(&mut out, " %")?;
    Ok(out)
}

/// Which tasks share each processor.
fn processors_text(
    alloc: Global,
    proposals: &[Proposal],
    placed: &[Placed],
    processors: u32,
) -> Result<Vec<u8>, AllocError>
    ensures { IfOk result (λ v. v.items ≡ processors_text processors proposals.now placed.now) }
{
    let mut out = Vec::new(alloc);
    for processor in 0..processors as usize {
        let piece = processor_text(alloc, proposals, placed, processor)?;
        put_piece(&mut out, b"; ", &piece)?;
    }
    Ok(out)
}

/// Which tasks share a processor, where they fit so.
fn placed_text(
    alloc: Global,
    proposals: &[Proposal],
    placed: &Option<Vec<Placed>>,
    processors: u32,
) -> Result<Vec<u8>, AllocError>
    ensures { IfOk result (λ v. v.items
        ≡ placed_text proposals.now (option_map (λ p. p.items) placed.now) processors) }
{
    let mut out = Vec::new(alloc);
    match placed {
        None => put_text(&mut out, "  a processor each: they do not fit so\n")?,
        Some(placed) => {
            put_text(&mut out, "  a processor each: ")?;
            out.extend_from_slice(&processors_text(alloc, proposals, placed, processors)?)?;
            put_text(&mut out, "\n")?;
        }
    }
    Ok(out)
}

/// Writes what proposals come to together.
fn put_all(
    out: &mut Vec<u8>,
    rows: &[u8],
    all: &Together,
    placed: &[u8],
    machine: RootDomain,
) -> Result<(), AllocError>
    ensures { OnOk result (out.new.items ≡ out.old.items
        ++ all_text rows.now all.now.sum all.now.greatest machine placed.now) }
{
    put_text(out, "\nall proposals\n")?;
    out.extend_from_slice(rows)?;
    put_admission(out, all.sum, machine)?;
    put_in_time(out, all.sum, all.greatest, machine)?;
    out.extend_from_slice(placed)?;
    Ok(())
}

/// Writes what all proposals together come to: their sum, whether it is admitted, and on which processors they fit.
pub fn put_proposals(
    out: &mut Vec<u8>,
    proposals: &[Proposal],
    machine: RootDomain,
) -> Result<(), AllocError>
    ensures { OnOk result (TellsAll proposals.now machine out.old.items out.new.items) }
{
    let alloc = *out.allocator();
    let all = add_up(alloc, proposals, machine)?;
    let rows = rows_text(alloc, proposals)?;
    let placed = placed_text(alloc, proposals, &all.placed, machine.processors)?;
    put_all(out, &rows, &all, &placed, machine)
}
