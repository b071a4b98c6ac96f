//! Passes that a handle keeps beside its own.

ghost use Rattle.std.specs.Prelude.{◌≡◌, ◌<◌, length};
ghost use Rattle.std.specs.Arc.{arc_value};
ghost use Rattle.std.specs.List.{All};
ghost use Rattle.grub_table.specs.Calls.{IsPassOf};
ghost use Rattle.neddwyrol_table.specs.Called.{table_of, passes_of, IsWell};

use crate::held::Kept;
use grub_table::{Pass, Shared};
use std::alloc::Global;
use std::sync::Arc;

/// A pass beside its table, with those before it gathered.
pub(crate) fn unpushed(shared: Arc<Shared, Global>, mut passes: Vec<Pass>) -> Kept
    requires some { 0 < length passes.items }
    requires of { All (IsPassOf (arc_value shared)) passes.items }
    ensures same { (table_of result ≡ arc_value shared) × (passes_of result ≡ passes.items) }
    ensures well { IsWell result }
{
    let Some(pass) = passes.pop() else {
        unreachable!()
    };
    Kept {
        shared,
        pass,
        gathered: passes,
    }
}
