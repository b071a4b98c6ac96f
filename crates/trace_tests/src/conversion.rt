//! What is told of traces: their event files, their faults and their tasks.

mod faults;
mod files;
mod fixtures;
mod tasks;
mod words;
