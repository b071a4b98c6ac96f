//! The verdict of the exact check: in words, and as a table of its comparisons.
#![tactic(auto)]

mod arithmetic;
mod changes;
mod deviation;
mod evidence;
mod explanation;
mod heading;
mod marks;
mod names;
mod table;
mod text;
mod writing;

pub use arithmetic::{RuleNumbers, put_arithmetic};
pub use changes::change_name;
pub use deviation::put_answer;
pub use evidence::{Evidence, put_evidence};
pub use explanation::{Trial, explains, is_guess, put_explanation};
pub use heading::{DroppedLines, NamedTask, ProbeHeading};
pub use marks::{MarkCount, Marks};
pub use names::{
    KINDS, event_name, function_of, kind_name, quantity_name, rule_function, rule_name,
};
pub use table::{TABLE_HEAD, put_row};
pub use text::{Total, has_values, put_heading, put_unfollowed, total_of};
