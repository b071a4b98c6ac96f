//! Assertions that name the case which fails, here and not in each test, where they would be proved again.

use std::process::Abort;

pub(crate) fn expect_case(rt: &impl Abort, holds: bool, case: &str) {
    assert!(rt; holds, "{case}");
}

pub(crate) fn expect_at(rt: &impl Abort, holds: bool, case: usize) {
    assert!(rt; holds, "{case}");
}
