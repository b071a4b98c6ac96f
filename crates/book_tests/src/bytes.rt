//! Bytes from files that break off, and lines to writers that do.

mod files;
mod writing;
