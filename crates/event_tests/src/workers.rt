//! Workers held by a gate, and the examples of runs.
mod files;
mod gates;
mod growths;
mod runs;
mod singles;
