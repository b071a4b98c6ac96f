//! Tests of lines of traces, of the table of releases, of explained lines, and of the converter.
#![tactic(auto)]

#[cfg(test)]
mod conversion;
#[cfg(test)]
mod explained;
#[cfg(test)]
mod facts;
#[cfg(test)]
mod lines;
#[cfg(test)]
mod releases;
