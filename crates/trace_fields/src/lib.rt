//! What one line of a kernel trace says.
#![tactic(auto)]

mod decimal;
mod field;
mod front;
mod head;
mod opening;
mod shown;
mod spaces;

pub use decimal::{before_end, number, point_text};
pub use field::{behind, cpu_field, deadline_field, number_field, place_of, value_of};
pub use front::{after, begins, has_key};
pub use head::{is_comment, is_lost, processors};
pub use opening::{CPUS_MAX, CpuWord, Opening, opening_of, running, running_comm, running_task};
pub use shown::{Shown, shown_by};
pub use spaces::without_spaces;
