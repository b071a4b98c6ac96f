//! Lines that kernels wrote, and lines that are wrong.

mod events;
mod faults;
mod fixtures;
mod fronts;
mod notes;
mod tasks;
