//! Tables of text.

ghost use Rattle.std.specs.Prelude.{◌≡◌, ◌++◌, OnOk};
ghost use Rattle.size_admission.specs.Texts.{hundredths_text};

use std::alloc::{AllocError, Global};
use text_bytes::put_number;

/// The cells of a line.
pub type TableRow = Vec<Vec<u8>>;

/// Writes a text.
pub fn put_text(out: &mut Vec<u8>, text: &str) -> Result<(), AllocError>
    ensures { OnOk result (out.new.items ≡ out.old.items ++ text.now) }
{
    out.extend_from_slice(text.as_bytes())
}

/// Hundredths as a number with two digits behind the point.
pub fn put_hundredths(out: &mut Vec<u8>, n: u64) -> Result<(), AllocError>
    ensures { OnOk result (out.new.items ≡ out.old.items ++ hundredths_text n) }
{
    put_number(out, b"", n / 100)?;
    let part = n % 100;
    put_text(out, if part < 10 { ".0" } else { "." })?;
    put_number(out, b"", part)
}

/// A text as a cell.
pub fn text_cell(alloc: Global, text: &str) -> Result<Vec<u8>, AllocError> {
    Vec::from_slice(alloc, text.as_bytes())
}

/// A number as a cell.
pub fn number_cell(alloc: Global, n: u64) -> Result<Vec<u8>, AllocError> {
    let mut cell = Vec::new(alloc);
    put_number(&mut cell, b"", n)?;
    Ok(cell)
}

/// Hundredths as a cell, with two digits behind the point.
pub fn hundredths_cell(alloc: Global, n: u64) -> Result<Vec<u8>, AllocError> {
    let mut cell = Vec::new(alloc);
    put_hundredths(&mut cell, n)?;
    Ok(cell)
}

/// The cells of a heading.
pub fn heading(alloc: Global, texts: &[&str]) -> Result<TableRow, AllocError> {
    let mut row = Vec::new(alloc);
    for text in texts {
        row.push(text_cell(alloc, text)?)?;
    }
    Ok(row)
}

fn widths_of(alloc: Global, rows: &[TableRow]) -> Result<Vec<usize>, AllocError> {
    let mut widths = Vec::new(alloc);
    for row in rows {
        for (i, cell) in row.iter().enumerate() {
            if i < widths.len() {
                let width: usize = widths[i];
                widths[i] = width.max(cell.len());
            } else {
                widths.push(cell.len())?;
            }
        }
    }
    Ok(widths)
}

fn put_spaces(out: &mut Vec<u8>, count: usize) -> Result<(), AllocError> {
    for _ in 0..count {
        out.push(b' ')?;
    }
    Ok(())
}

/// Takes the spaces from the end of a text.
fn trim(out: &mut Vec<u8>) {
    let end = out
        .iter()
        .rposition(|b| *b != b' ')
        .map_or(0, |i| i.saturating_add(1));
    out.truncate(end);
}

fn put_row(
    out: &mut Vec<u8>,
    row: &TableRow,
    widths: &[usize],
    left: &[usize],
    indent: usize,
) -> Result<(), AllocError> {
    put_spaces(out, indent)?;
    for (i, cell) in row.iter().enumerate() {
        if i > 0 {
            put_spaces(out, 2)?;
        }
        let room = widths
            .get(i)
            .copied()
            .unwrap_or(0)
            .saturating_sub(cell.len());
        if left.contains(&i) {
            out.extend_from_slice(cell)?;
            put_spaces(out, room)?;
        } else {
            put_spaces(out, room)?;
            out.extend_from_slice(cell)?;
        }
    }
    trim(out);
    out.push(b'\n')?;
    Ok(())
}

/// Writes a table whose columns are two spaces apart; those of `left` begin at their left, the others end at their right.
pub fn put_table(
    out: &mut Vec<u8>,
    rows: &[TableRow],
    left: &[usize],
    indent: usize,
) -> Result<(), AllocError> {
    let widths = widths_of(*out.allocator(), rows)?;
    for row in rows {
        put_row(out, row, &widths, left, indent)?;
    }
    Ok(())
}
