//! Tables with aligned columns.

ghost use Rattle.std.specs.Prelude.{◌≤◌};

use grub_plan::Plan;
use itoa::Buffer;
use std::alloc::{AllocError, Global};

/// What stands in a cell of a table.
#[derive(Clone, Copy)]
pub enum Cell {
    /// The name of a column, by its number.
    Head(u32),

    /// The name of a task, by its number.
    Name(u32),

    Number(u128),

    /// Hundredths of a percent.
    Percent(u128),
}

/// A table with so many columns, the first of which is aligned to the left where `left` says so. It is refused where the
/// allocator refused.
pub(crate) fn table_of(
    alloc: Global,
    plan: &Plan,
    left: bool,
    columns: usize,
    cells: &[Cell],
) -> Result<Vec<u8>, AllocError>
    requires { 1 ≤ columns }
{
    let lengths = lengths_of(alloc, plan, cells)?;
    let mut out = Vec::new(alloc);
    for (k, cell) in cells.iter().enumerate() {
        let text = text_of(alloc, plan, *cell)?;
        let gap = width(columns, k % columns, &lengths).saturating_sub(text.len());
        let (before, after) = gaps(left && k % columns == 0, gap);
        put_padded(&mut out, before, &text, after, (k + 1) % columns == 0)?;
    }
    Ok(out)
}

/// How long the texts of the cells are.
fn lengths_of(alloc: Global, plan: &Plan, cells: &[Cell]) -> Result<Vec<usize>, AllocError> {
    let mut lengths = Vec::new(alloc);
    for cell in cells {
        lengths.push(text_of(alloc, plan, *cell)?.len())?;
    }
    Ok(lengths)
}

/// The greatest of the lengths in a column.
fn width(columns: usize, column: usize, lengths: &[usize]) -> usize
    requires { 1 ≤ columns }
{
    let mut width = 0;
    for (k, length) in lengths.iter().enumerate() {
        if k % columns == column {
            width = width.max(*length);
        }
    }
    width
}

/// How many spaces stand before and after a text that is aligned to the left, or to the right.
fn gaps(left: bool, gap: usize) -> (usize, usize) {
    if left { (0, gap) } else { (gap, 0) }
}

/// Appends a text with so many spaces about it, and then one that ends its column, or the byte that ends its row.
fn put_padded(
    out: &mut Vec<u8>,
    before: usize,
    text: &[u8],
    after: usize,
    is_last: bool,
) -> Result<(), AllocError> {
    put_spaces(out, before)?;
    out.extend_from_slice(text)?;
    put_spaces(out, after)?;
    put_end(out, is_last)
}

fn put_end(out: &mut Vec<u8>, is_last: bool) -> Result<(), AllocError> {
    if is_last {
        out.extend_from_slice(b"\n")
    } else {
        out.extend_from_slice(b" ")
    }
}

fn put_spaces(out: &mut Vec<u8>, count: usize) -> Result<(), AllocError> {
    for _k in 0..count {
        out.push(b' ')?;
    }
    Ok(())
}

/// The text of a cell.
fn text_of(alloc: Global, plan: &Plan, cell: Cell) -> Result<Vec<u8>, AllocError> {
    match cell {
        Cell::Head(k) => Vec::from_slice(alloc, head(k).as_bytes()),
        Cell::Name(t) => Vec::from_slice(alloc, name_of(plan, t).as_bytes()),
        Cell::Number(n) => number_text(alloc, n),
        Cell::Percent(n) => percent_text(alloc, n),
    }
}

/// The name of a task, where there is one of this number.
fn name_of(plan: &Plan, t: u32) -> &str {
    if plan.setup().has_task(t) {
        plan.name(t)
    } else {
        ""
    }
}

fn number_text(alloc: Global, n: u128) -> Result<Vec<u8>, AllocError> {
    let mut buffer = Buffer::new();
    Vec::from_slice(alloc, buffer.format(n).as_bytes())
}

fn percent_text(alloc: Global, n: u128) -> Result<Vec<u8>, AllocError> {
    let mut text = number_text(alloc, n / 100)?;
    text.extend_from_slice(b".")?;
    put_digit(&mut text, n % 100 / 10)?;
    put_digit(&mut text, n % 10)?;
    Ok(text)
}

fn put_digit(out: &mut Vec<u8>, n: u128) -> Result<(), AllocError> {
    let mut buffer = Buffer::new();
    out.extend_from_slice(buffer.format(n).as_bytes())
}

/// The name of a column.
fn head(k: u32) -> &'static str {
    match k {
        0 => "task",
        1 => "runtime",
        2 => "period",
        3 => "util",
        4 => "executed",
        5 => "charged",
        6 => "reclaimed",
        7 => "recharges",
        8 => "joins",
        9 => "wakes",
        10 => "kept",
        11 => "moves",
        12 => "waits",
        13 => "sleeps",
        14 => "retired",
        15 => "least",
        16 => "late",
        17 => "worst",
        18 => "refused",
        19 => "runqueue",
        20 => "umax",
        21 => "uextra",
        22 => "span",
        23 => "changes",
        24 => "running",
        25 => "running-max",
        26 => "this",
        27 => "this-max",
        _ => "",
    }
}
