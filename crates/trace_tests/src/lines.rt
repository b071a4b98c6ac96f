//! Texts of records, and what is read of them.

mod faults;
mod fixtures;
mod words;
