//! Laws of the constant bandwidth server, of GRUB and of EDF, which hold however a scheduler is written: what each says of the
//! values that lines show, and how often it held.
#![tactic(auto)]

mod asked;
mod budget;
mod expiry;
mod firing;
mod judged;
mod judging;
mod known;
mod pick;
mod progress;
mod run;
mod server;
mod spread;
mod total;
mod words;
mod zero_lag;

pub use asked::AskedLaws;
pub use budget::{has_budget, is_within};
pub use expiry::{Expiry, is_next_period};
pub use firing::{is_awake_long, is_due, is_early};
pub use judged::{JudgedLaws, ReadLine};
pub use judging::{Judgement, LawTallies, LawTally};
pub use known::{Sign, is_known};
pub use pick::{LowerRun, Queued, is_pick_right, is_run_short, is_tick_counted};
pub use progress::{Throttled, is_waited_for};
pub use run::{begins_at_switch, is_apart, nanos_of};
pub use server::{ServerStart, is_lowered, is_near, is_taken_once, left};
pub use spread::spread_of;
pub use total::{bandwidth, is_not_negative};
pub use words::{
    Breach, Finding, FiredTimer, LAWS, Law, LawFigures, LawLine, LineKind, Spread, Standing,
    TimerKind, Whose,
};
pub use zero_lag::{Blocked, is_armed_for, is_past};
