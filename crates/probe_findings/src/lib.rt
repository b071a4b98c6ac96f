//! What an exact check compares: words, counts, and which pending effects explain a value.
#![tactic(auto)]

mod broken;
mod choice;
mod clock_law;
mod compared;
mod counts;
mod findings;
mod law;
mod ratio_law;
mod settings;
mod start_law;
mod words;

pub use broken::{Broken, Law, Laws};
pub use choice::{Amount, MOST, PickedEffects, pick};
pub use clock_law::{LeastLag, is_broken, is_late, lag_of, least_after};
pub use counts::{Comparisons, KindCounts, RuleCounts};
pub use findings::Findings;
pub use law::first_is_first;
pub use ratio_law::{each_pair_is_taken, greatest_ratio, is_ratio};
pub use settings::{LawSettings, ServerNote};
pub use start_law::{
    TaskSeen, is_older, nothing_seen, shown_elsewhere, shown_in_class, with_admission,
};
pub use words::{
    Comparison, Deviation, ExactRule, ExactValue, FIRST_SEEN, ProbedFunction, ProbedLine, Quantity,
    QuantityKind, RULES, Subject, Whose, Why, kind_of,
};
