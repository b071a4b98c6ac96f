//! Passes are taken apart and gathered, and a table is closed.

ghost use Rattle.std.specs.Prelude.{◌≡◌, ◌≢◌, ◌++◌, [], ◌∷◌, length, IfSome, IsNone, IsSome, ◌<◌, ◌⊎◌};
ghost use Rattle.std.specs.List.{All};
ghost use Rattle.grub_table.specs.Calls.{IsPassOf};
ghost use Rattle.neddwyrol_table.specs.Called.{table_of, passes_of, IsWell, IsBeside, IsSame};
ghost use Rattle.neddwyrol_table.specs.Ended.{HasParted, HasGathered, HaveMet, IsAgain, AreWritten, Written};

use crate::held::Kept;
use crate::parting::unpushed;
use grub_book::Reading;
use grub_table::{CloseFault, CloseWhy, Pass};
use library_book::{DONE, NdReading};
use std::alloc::Global;
use std::sync::Arc;

/// A pass of the table is not gathered.
pub const MISSING: u32 = 26;

/// No pass is gathered, or memory was refused.
pub const NO_PART: u32 = 27;

/// Memory was refused.
pub const NO_MEMORY: u32 = 42;

/// The last pass that was gathered, by itself, where there is one and memory for it.
pub(crate) fn parted(alloc: Global, kept: Kept) -> (Kept, Option<Kept>)
    requires { IsWell kept }
    ensures well { IsWell result.0 × IfSome result.1 IsWell }
    ensures parted { IfSome result.1 (HasParted kept result.0) }
    ensures kept { IsNone result.1 → IsSame kept result.0 }
{
    let Kept {
        shared,
        pass,
        mut gathered,
    } = kept;
    let part = match Arc::try_clone(&shared) {
        Ok(other) => match gathered.pop() {
            Some(last) => Some(Kept {
                shared: other,
                pass: last,
                gathered: Vec::new(alloc),
            }),
            None => None,
        },
        Err(_) => None,
    };
    let kept = Kept {
        shared,
        pass,
        gathered,
    };
    (kept, part)
}

/// Two passes meet.
pub(crate) fn met(kept: Kept, other: Kept) -> (Kept, Kept)
    requires well { IsWell kept × IsWell other }
    requires table { table_of other ≡ table_of kept }
    ensures well { IsWell result.0 × IsWell result.1 }
    ensures beside { IsBeside kept result.0 × IsBeside other result.1 }
    ensures met { HaveMet kept.pass other.pass result.0.pass result.1.pass }
{
    let Kept {
        shared,
        pass,
        gathered,
    } = kept;
    let Kept {
        shared: other_shared,
        pass: other_pass,
        gathered: other_gathered,
    } = other;
    let (pass, other_pass) = shared.meet(pass, other_pass);
    let first = Kept {
        shared,
        pass,
        gathered,
    };
    let second = Kept {
        shared: other_shared,
        pass: other_pass,
        gathered: other_gathered,
    };
    (first, second)
}

/// Takes a pass, and those that it had gathered, into others; where memory is refused all stays.
fn taken_in(all: &mut Vec<Pass>, more: &mut Vec<Pass>, pass: Pass) -> Option<Pass>
    ensures done { IsNone result → all.new.items ≡ all.old.items ++ (more.old.items ++ pass ∷ []) }
    ensures kept { IsSome result
        → (all.new.items ≡ all.old.items) × (more.new.items ≡ more.old.items) }
    ensures back { IfSome result (λ p. p ≡ pass) }
{
    if let Err(refused) = more.push(pass) {
        return Some(refused.value);
    }
    if all.append(more).is_ok() {
        return None;
    }
    more.pop()
}

/// Gathers the second, with what it gathered, in the first. Where memory is refused both come back as they were.
pub(crate) fn gathered(kept: Kept, other: Kept) -> (Kept, Option<Kept>)
    requires well { IsWell kept × IsWell other }
    requires table { table_of other ≡ table_of kept }
    ensures well { IsWell result.0 × IfSome result.1 IsWell }
    ensures done { IsNone result.1 → HasGathered kept other result.0 }
    ensures kept { IsSome result.1 → IsSame kept result.0 }
    ensures back { IfSome result.1 (IsSame other) }
{
    let Kept {
        shared,
        pass,
        gathered: mut all,
    } = kept;
    let Kept {
        shared: other_shared,
        pass: other_pass,
        gathered: mut more,
    } = other;
    match taken_in(&mut all, &mut more, other_pass) {
        None => {
            let first = Kept {
                shared,
                pass,
                gathered: all,
            };
            (first, None)
        }
        Some(left) => {
            let first = Kept {
                shared,
                pass,
                gathered: all,
            };
            let second = Kept {
                shared: other_shared,
                pass: left,
                gathered: more,
            };
            (first, Some(second))
        }
    }
}

/// The readings of a table at the end, as many as there is room for.
fn written(last: &[Reading], readings: &mut [NdReading])
    ensures { Written last.now readings.old readings.new }
{
    let count = last.len().min(readings.len());
    for i in 0..count {
        readings[i] = NdReading {
            running_bw: last[i].running,
            this_bw: last[i].this,
        };
    }
}

/// What a table that was not closed gives back, where there is memory for it.
fn reopened(alloc: Global, fault: CloseFault) -> (Option<Kept>, u32)
    requires some { 0 < length fault.passes.items }
    requires of { All (IsPassOf fault.shared) fault.passes.items }
    ensures code { (result.1 ≡ MISSING) ⊎ (result.1 ≡ NO_MEMORY) }
    ensures back { IfSome result.0 (λ k. (table_of k ≡ fault.shared)
        × (passes_of k ≡ fault.passes.items)) }
    ensures well { IfSome result.0 IsWell }
    ensures lost { IsNone result.0 → result.1 ≡ NO_MEMORY }
{
    let CloseFault {
        why,
        shared,
        passes,
    } = fault;
    let code = match why {
        CloseWhy::Missing(_) => MISSING,
        CloseWhy::NoMemory => NO_MEMORY,
    };
    match Arc::new(alloc, shared) {
        Ok(shared) => (Some(unpushed(shared, passes)), code),
        Err(_) => (None, NO_MEMORY),
    }
}

/// Closes the table with all its passes, of which none is in another handle. Where it is refused all comes back as it was;
/// where there is no memory even for that, nothing does.
pub(crate) fn closed(alloc: Global, kept: Kept, readings: &mut [NdReading]) -> (Option<Kept>, u32)
    requires { IsWell kept }
    ensures done { result.1 ≡ DONE → IsNone result.0
        × AreWritten (table_of kept) (passes_of kept) readings.old readings.new }
    ensures kept { result.1 ≢ DONE → readings.new ≡ readings.old }
    ensures back { IfSome result.0 (IsAgain kept) }
    ensures well { IfSome result.0 IsWell }
    ensures lost { IsNone result.0 → (result.1 ≡ DONE) ⊎ (result.1 ≡ NO_MEMORY) }
{
    let Kept {
        shared,
        pass,
        mut gathered,
    } = kept;
    if let Err(refused) = gathered.push(pass) {
        let back = Kept {
            shared,
            pass: refused.value,
            gathered,
        };
        return (Some(back), NO_MEMORY);
    }
    match Arc::try_unwrap(shared) {
        Err(shared) => (Some(unpushed(shared, gathered)), MISSING),
        Ok(table) => match table.close(alloc, gathered) {
            Ok(last) => {
                written(last.as_slice(), readings);
                (None, DONE)
            }
            Err(fault) => reopened(alloc, fault),
        },
    }
}
