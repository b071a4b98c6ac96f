//! The handles, which C holds as pointers.
ghost use Rattle.std.specs.Prelude.{◌≡◌, ◌⊎◌, MatchBool, IfOk, IfErr};
ghost use denote.RawPtr.{InBlock, null_ptr};
ghost use Rattle.neddwyrol_table.specs.declared.held.Held.{Held};
ghost use Rattle.neddwyrol_table.specs.Owned.{held_coded, held_owns};

use crate::held::Held;
use crate::parts::Parts;
use std::alloc::Global;
use std::marker::Model;

/// The pass or claim of a call is empty.
pub const EMPTY: u32 = 51;

/// Two passes of a call are of two tables. The calls of the header tell them apart by `nd_pass_table`.
pub const TWO_TABLES: u32 = 53;

/// A pointer of which C knows no more: null where there is nothing.
#[repr(C)]
#[derive(Drop)]
pub struct NdPass {
    at: *mut u8,
    alloc: Global,
    pub ghost held: { Held } by { held_coded },
}

impl Model for NdPass {
    ghost also_owns = { λ h. held_owns h.alloc h.at h.held };
}

impl NdPass {
    pub(crate) fn of_parts(parts: Parts<Held, Global>) -> NdPass
        ensures { InBlock result.at × (result.held ≡ parts.value) }
    {
        let Parts { ptr, alloc } = parts;
        NdPass {
            at: ptr as *mut u8,
            alloc,
        }
    }

    pub(crate) fn into_parts(self) -> Parts<Held, Global>
        requires { InBlock self.at }
        ensures { result.value ≡ self.held }
    {
        let NdPass { at, alloc } = self;
        Parts {
            ptr: at as *mut Held,
            alloc,
        }
    }

    pub(crate) fn of_box(held: Box<Held>) -> NdPass
        ensures { InBlock result.at × (result.held ≡ held.value) }
    {
        NdPass::of_parts(Parts::of(held))
    }

    /// Whether it leads to something.
    pub(crate) fn is_there(&mut self) -> bool
        ensures { (self.new ≡ self.old)
            × MatchBool result (InBlock self.old.at) (self.old.at ≡ null_ptr) }
    {
        !self.at.is_null()
    }

    /// What it leads to; an empty one comes back.
    #[inline(always)]
    pub(crate) fn opened(mut self) -> Result<Box<Held>, NdPass>
        ensures held { IfOk result (λ b. (b.value ≡ self.held) × InBlock self.at) }
        ensures empty { IfErr result (λ h. (h ≡ self) × (self.at ≡ null_ptr)) }
    {
        if self.is_there() {
            Ok(self.into_parts().into_box())
        } else {
            Err(self)
        }
    }
}

/// What two handles lead to; where one is empty both come back.
pub(crate) fn both_opened(
    mut first: NdPass,
    mut second: NdPass,
) -> Result<(Box<Held>, Box<Held>), (NdPass, NdPass)>
    ensures held { IfOk result (λ b. (b.0.value ≡ first.held) × (b.1.value ≡ second.held)) }
    ensures there { IfOk result (λ b. InBlock first.at × InBlock second.at) }
    ensures same { IfErr result (λ h. (h.0 ≡ first) × (h.1 ≡ second)) }
    ensures empty { IfErr result (λ h. (first.at ≡ null_ptr) ⊎ (second.at ≡ null_ptr)) }
{
    if !first.is_there() {
        return Err((first, second));
    }
    if !second.is_there() {
        return Err((first, second));
    }
    let one = first.into_parts().into_box();
    let other = second.into_parts().into_box();
    Ok((one, other))
}

/// The handle of a pass that holds a task.
#[repr(C)]
#[derive(Drop)]
pub struct NdClaim {
    pub pass: NdPass,
}

/// Where a table lies.
#[repr(C)]
#[derive(Drop)]
pub struct NdTable {
    pub at: *mut u8,
}

// What it leads to may go to another thread.
unsafe impl Send for NdPass {}
