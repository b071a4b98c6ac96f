//! Laws of the first deviation.

ghost use Rattle.probe_findings.specs.Firsts.{NoneWhereAllAreEqual, FoundIsFirst};

/// None is found exactly where all comparisons are equal, and what is found is the first that differs.
pub fn first_is_first()
    ensures none { NoneWhereAllAreEqual }
    ensures first { FoundIsFirst }
{}
