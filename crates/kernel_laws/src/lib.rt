//! Laws of a kernel's accounting: its charge and its test of a wake beside the documentation's,
//! its replenishment, the sums of a runqueue and total_bw event by event.
#![tactic(auto)]

mod admitted;
mod law;
mod sums;
mod totals;
mod waiting;

pub use admitted::extra_stays;
pub use law::{
    charges_are_alike, charges_are_hardly_less, charges_are_no_more, rates_are_between,
    recharges_are_least, wakes_answer_alike, zero_lag_times_are_exact,
};
pub use sums::{
    admissions_balance, leavings_balance, moves_balance, replenishments_balance, restores_balance,
    saves_balance, sleeps_balance, sums_stay, wakes_balance, zero_lag_times_balance,
};
pub use totals::{
    admissions_move_total, leavings_move_total, others_keep_total, sleeps_move_total, total_stays,
    zero_lag_times_move_total,
};
pub use waiting::{
    charges_throttle, charges_wait, dequeues_wait, enqueues_wait, returns_wait, timers_wait,
};
