//! The shared table for C: a handle for each pass. What each call does is `grub_table`'s.
#![tactic(auto)]

mod calls;
mod claims;
mod closing;
mod exports;
mod handled;
mod held;
mod opening;
mod parting;
mod parts;
mod pass;

pub use calls::{BUSY, HELD, LOST};
pub use closing::{MISSING, NO_MEMORY, NO_PART};
pub use exports::{
    nd_claim_cancel, nd_claim_finish, nd_claim_record, nd_pass_apply, nd_pass_free, nd_pass_gather,
    nd_pass_meet, nd_pass_part, nd_pass_read, nd_pass_start, nd_pass_table, nd_table_close,
    nd_table_open,
};
pub use held::{Held, Kept, Taken};
pub use opening::{NO_PASS, NO_TABLE_MEMORY, PASSES_MAX, TOO_MANY_PASSES};
pub use pass::{EMPTY, NdClaim, NdPass, NdTable, TWO_TABLES};
