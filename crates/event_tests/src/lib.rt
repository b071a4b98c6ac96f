//! Tests of event files: reading, playing by threads and by one book, views and reports, with worked examples.
#![tactic(auto)]

#[cfg(test)]
mod documentation;
#[cfg(test)]
mod expects;
#[cfg(test)]
mod files;
#[cfg(test)]
mod moving;
#[cfg(test)]
mod reading;
#[cfg(test)]
mod run;
#[cfg(test)]
mod serve;
#[cfg(test)]
mod show;
#[cfg(test)]
mod timeline;
#[cfg(test)]
mod views;
#[cfg(test)]
mod workers;
#[cfg(test)]
mod writer;
