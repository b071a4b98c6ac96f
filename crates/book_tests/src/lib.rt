//! Tests of the book, the table, the wheel of timers and text_bytes: worked numbers and examples, refused growths, and each beside a plain one.
#![tactic(auto)]

#[cfg(test)]
mod bandwidths;
#[cfg(test)]
mod book;
#[cfg(test)]
mod bytes;
#[cfg(test)]
mod comparison;
#[cfg(test)]
mod memory;
#[cfg(test)]
mod plain;
#[cfg(test)]
mod plain_wheel;
#[cfg(test)]
mod table;
#[cfg(test)]
mod wheel;
