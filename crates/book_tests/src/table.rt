//! The worked examples of the table and of its words, and what no clause says: memory that is refused, and threads.

mod examples;
mod fixtures;
mod growths;
mod threads;
mod words;
