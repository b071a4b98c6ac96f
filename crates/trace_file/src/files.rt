//! The calls by which a program reads traces and makes files.

use text_bytes::Source;

/// How files are made.
#[derive(Drop)]
pub struct Target<X, M, R> {
    /// Whether there is something at a path.
    pub exists: X,

    /// Makes a file at a path with these bytes.
    pub make: M,

    /// Removes the file at a path, where it can be removed.
    pub remove: R,
}

/// How traces are read, and files are made.
#[derive(Drop)]
pub struct Files<O, N, X, M, R> {
    pub source: Source<O, N>,
    pub target: Target<X, M, R>,
}
