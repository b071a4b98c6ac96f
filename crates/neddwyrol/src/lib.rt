//! The library for C: the book of GRUB (greedy reclamation of unused bandwidth) over memory of its caller, and the
//! arithmetic without state. What each call does is `library_book`'s; no call asks anything of the numbers that it is given.
#![tactic(auto)]

mod arithmetic;
mod book;
mod checks;
mod first;

pub use arithmetic::{
    nd_bw, nd_capacity_fault, nd_charge, nd_deplete, nd_exhaustion, nd_kernel_charge,
    nd_params_fault, nd_woken, nd_zero_lag,
};
pub use book::{nd_apply, nd_apply_all, nd_open};
pub use checks::{
    ABI, VERSION, nd_abi, nd_audit, nd_audit_fault, nd_check, nd_open_fault, nd_version,
};
pub use first::{nd_earliest, nd_next_timer};
