//! The verdict on a record: whether a kernel's timers are where its rules put them, in words and as a table.
#![tactic(auto)]

mod apart;
mod cause;
mod charges;
mod figures;
mod first;
mod heading;
mod judging;
mod numbers;
mod omitted;
mod reserved;
mod speed;
mod table;
mod tested;
mod text;
mod writing;

pub use cause::{Cause, cause_of};
pub use heading::TimerHeading;
pub use judging::{Judged, agrees, first_deviation, judge, judged_of};
pub use numbers::{KindNumbers, numbers_of};
pub use omitted::{LeftOut, left_out};
pub use speed::judge_at_unknown_speed;
pub use table::{put_row, put_table, table_head};
pub use text::put_verdict;
