//! The book of GRUB bandwidth reclaiming, shared by threads without a lock. Each finished call is the reply of a one-thread book at one point of one growing history.
#![tactic(auto)]

mod answer;
mod bits;
mod claim;
mod closing;
mod counted;
mod fault;
mod finishing;
mod laws;
mod opening;
mod params;
mod pass;
mod queue;
mod reading;
mod row;
mod rule;
mod seated;
mod server;
mod shared;
mod starting;
mod steps;
mod task;
mod view;
mod word_laws;

pub use answer::{Finished, Sighting, Started};
pub use claim::Claim;
pub use fault::{CloseFault, CloseWhy, OpenFault};
pub use laws::{closing_readings_are_sound, one_pass_makes_all, passes_learn_on};
pub use params::{pack_params, unpack_params};
pub use pass::Pass;
pub use queue::{pack_queue, queue_fits, unpack_queue};
pub use server::{pack_server, server_fits, unpack_server};
pub use shared::Shared;
pub use task::{TaskWord, pack_task, task_fits, unpack_task};
pub use word_laws::{
    claims_are_one_bit, sound_books_have_words, words_have_64_bits, words_tell_their_values,
};
