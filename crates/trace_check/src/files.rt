//! The files that a check writes.

use crate::check::CheckRequest;
use std::io;
use trace_options::Fault;

/// A file that is wanted, and its bytes; no path where it is not.
type Wish<'a> = (Option<&'a str>, &'a [u8]);

/// The first of the files that are wanted that is there already.
pub(crate) fn first_there<'o, X: Fn(&str) -> bool>(
    exists: &X,
    wanted: CheckRequest<'o>,
) -> Option<&'o str>
    requires { X.IsAlwaysCallable exists.now }
{
    for path in [wanted.table, wanted.json, wanted.picture, wanted.report] {
        if let Some(path) = path
            && exists(path)
        {
            return Some(path);
        }
    }
    None
}

fn make_one<M: Fn(&str, &[u8]) -> io::Result<()>>(make: &M, wish: Wish<'_>) -> bool
    requires { M.IsAlwaysCallable make.now }
{
    match wish.0 {
        Some(path) => make(path, wish.1).is_ok(),
        None => true,
    }
}

/// Makes all of the files, or none: where one cannot be made, those before it are removed.
pub(crate) fn make_all<'o, M: Fn(&str, &[u8]) -> io::Result<()>, R: Fn(&str)>(
    make: &M,
    remove: &R,
    files: &[Wish<'_>],
) -> Result<(), Fault<'o>>
    requires make { M.IsAlwaysCallable make.now }
    requires remove { R.IsAlwaysCallable remove.now }
{
    for (place, file) in files.iter().enumerate() {
        if !make_one(make, *file) {
            remove_all(remove, files.get(..place).unwrap_or(&[]));
            return Err(Fault::Write);
        }
    }
    Ok(())
}

fn remove_all<R: Fn(&str)>(remove: &R, files: &[Wish<'_>])
    requires { R.IsAlwaysCallable remove.now }
{
    for file in files {
        if let Some(path) = file.0 {
            remove(path);
        }
    }
}
