//! The worked examples of event files and reports.

mod faults;
mod growths;
mod plans;
mod texts;
mod threads;

use crate::documentation;
use grub_trace::*;
use std::alloc::{AllocError, Global};

/// Files of these bytes.
fn files_of(alloc: Global, texts: &[&[u8]]) -> Result<Vec<Vec<u8>>, AllocError> {
    let mut files = Vec::new(alloc);
    for text in texts {
        files.push(Vec::from_slice(alloc, text)?)?;
    }
    Ok(files)
}

/// The plan of files of these bytes, or their fault.
fn plan_of(alloc: Global, texts: &[&[u8]]) -> Result<Plan, TraceFault> {
    read_files(alloc, &files_of(alloc, texts)?)
}
