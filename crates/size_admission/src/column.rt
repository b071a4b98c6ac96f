//! Columns of a panel, each a pixel wide.

use std::alloc::{AllocError, Global};
use svg::LEFT;

/// How high a panel is, in pixels: a need as great as the top of its scale is as high.
pub const PANEL: u32 = 150;

/// How wide it is.
pub(crate) const WIDTH: u64 = 1024;

/// What a job needs.
#[derive(Clone, Copy, Debug, PartialEq, Eq)]
pub struct Need {
    /// How far along the panel's scale the job stands: microseconds since the record began, or how many jobs need more.
    pub at: u64,

    /// How high the runtime that it needs is, in pixels.
    pub height: u32,

    /// 0, or 1 where it may be late with 15 percent less than the least, or 2 where it may be with the least.
    pub shade: u32,
}

/// What stands in a column.
#[derive(Clone, Copy, Debug, PartialEq, Eq)]
pub struct Column {
    /// How many pixels right of the document's left edge it is.
    pub x: u64,
    pub height: u32,
    pub shade: u32,
}

/// The column of a need, on a scale that ends at `span`.
fn column_of(need: Need, span: u64) -> Column {
    let at = u128::from(need.at.min(span));
    Column {
        x: LEFT + (at * u128::from(WIDTH) / u128::from(span.max(1))).min(u128::from(WIDTH)) as u64,
        height: need.height,
        shade: need.shade,
    }
}

/// A column with what stands in another one of its place: the greater of both.
fn joined(column: Column, next: Column) -> Column {
    Column {
        x: column.x,
        height: column.height.max(next.height),
        shade: column.shade.max(next.shade),
    }
}

/// The columns of needs, in their order: of those that follow one another in a column the greatest.
pub(crate) fn columns_of(
    alloc: Global,
    needs: &[Need],
    span: u64,
) -> Result<Vec<Column>, AllocError> {
    let mut columns = Vec::new(alloc);
    let Some((first, rest)) = needs.split_first() else {
        return Ok(columns);
    };
    let mut now = column_of(*first, span);
    for need in rest {
        let next = column_of(*need, span);
        if next.x == now.x {
            now = joined(now, next);
        } else {
            columns.push(now)?;
            now = next;
        }
    }
    columns.push(now)?;
    Ok(columns)
}
