//! The values that a line of a probe shows: compared with the rules' values, and taken.
#![tactic(auto)]

mod comparing;
mod keeping;
mod shown;

pub use comparing::{
    Compared, check_choice, check_sums, compare_address, compare_contending, compare_dequeued,
    compare_enqueued, compare_left, compare_updated,
};
pub use keeping::{ShownSums, change_and_block, change_and_start, note_contention, read_and_keep};
pub use shown::{
    shown_contending, shown_dequeued, shown_enqueued, shown_left, with_new_parameters, with_yield,
};
