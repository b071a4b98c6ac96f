//! The words of options that are right, and those that are wrong.

use convert::options_of;
use std::alloc::Global;

const RIGHT: [&str; 1] = ["a=b=1:10"];

/// The words of `--task`, `--rt` and `--fair-server`, and which of them is the first that is wrong.
static WORDS: [(&[&str], &str, &str, Option<&str>); 13] = [
    (&[], "1:1", "none", None),
    (&["a"], "1:1", "none", Some("a")),
    (&["a=1"], "1:1", "none", Some("a=1")),
    (&["a=2:1"], "1:1", "none", Some("a=2:1")),
    (&["a=+1:10"], "1:1", "none", Some("a=+1:10")),
    (
        &["a=1:10", "b=1:10", "a=2:10"],
        "1:1",
        "none",
        Some("a=2:10"),
    ),
    (&RIGHT, "1:1", "none", None),
    (&RIGHT, "2000001:2000000", "1:10", None),
    (&RIGHT, "2:1", "none", Some("2:1")),
    (&RIGHT, "0:1", "none", Some("0:1")),
    (&RIGHT, "1:0", "none", Some("1:0")),
    (&RIGHT, "1:1", "all", Some("all")),
    (&["a=1"], "0:1", "all", Some("a=1")),
];

/// The first of these words that is wrong, if one is; None where memory is refused.
fn wrong_of<'a>(
    alloc: Global,
    tasks: &[&'a str],
    limit: &'a str,
    fair: &'a str,
) -> Option<Option<&'a str>> {
    match options_of(alloc, tasks, None, Some(limit), Some(fair)) {
        Ok(Ok(_)) => Some(None),
        Ok(Err(wrong)) => Some(Some(wrong.value)),
        Err(_) => None,
    }
}

#[test]
fn wrong_options(rt: HostRuntime) {
    for (tasks, limit, fair, wrong) in &WORDS {
        let found = wrong_of(rt.alloc(), tasks, limit, fair);
        assert!(rt; found == Some(*wrong), "{limit} {fair}");
    }
}
