//! The file whose line is next of all files.
ghost use Rattle.std.specs.Prelude.{◌≡◌, ◌<◌, ◌+◌, ◌↔◌, IsSome, IsTrue, IfSome, MatchOption, Some, length, slice_index_or, slice_set};
ghost use Rattle.grub_timeline.specs.inside.Merge.{IsAhead, IsBefore, IsNext, NoHead, head_at, leader_of};

use grub_plan::{Line, Plan};

/// A line of the script of runqueue `r`.
#[derive(Clone, Copy, Debug, PartialEq, Eq)]
pub struct PlacedLine {
    pub runqueue: u32,
    pub line: Line,
}

/// A file whose lines come next while they are before `until`: then they come before those that are left of all others.
#[derive(Clone, Copy)]
pub struct Lead {
    pub runqueue: u32,

    /// The moment of its first line that is not done.
    pub moment: u64,
    pub until: u64,
}

/// The file whose line is next: the earliest, and of those at one moment that of the first file.
pub(crate) fn first(plan: &Plan, done: &[usize]) -> Option<Lead>
    requires { length done.now ≡ length plan.now.scripts }
    ensures none { MatchOption result (NoHead plan.now.scripts done.now)
        (IsAhead plan.now.scripts done.now) }
    ensures next { IfSome result (IsNext plan.now.scripts done.now) }
{
    let mut lead = None;
    for r in 0..plan.files() {
        lead = leader(lead, r, head(plan, done, r));
    }
    lead
}

/// Whether the next line of the file that led comes before those of the others still.
pub(crate) fn leads(plan: &Plan, done: &[usize], lead: Lead) -> bool
    requires len { length done.now ≡ length plan.now.scripts }
    requires file { lead.runqueue < length plan.now.scripts }
    ensures { IsTrue result ↔ IsNext plan.now.scripts done.now lead }
{
    match head(plan, done, lead.runqueue) {
        Some(line) => u64::from(line.m) < lead.until,
        None => false,
    }
}

/// The next line of file `r`, which has one left. It is done then.
pub(crate) fn take(plan: &Plan, done: &mut [usize], r: u32) -> Line
    requires len { length done.old ≡ length plan.now.scripts }
    requires left { IsSome (head_at plan.now.scripts done.old r) }
    ensures line { head_at plan.now.scripts done.old r ≡ Some result }
    ensures done { done.new ≡ slice_set done.old r (slice_index_or done.old r 0 + 1) }
{
    let at = done[r as usize];
    let line = plan.script(r)[at];
    done[r as usize] = at + 1;
    line
}

/// The first line of file `r` that is not done, where one is left.
fn head(plan: &Plan, done: &[usize], r: u32) -> Option<Line>
    requires len { length done.now ≡ length plan.now.scripts }
    requires file { r < length plan.now.scripts }
    ensures { result ≡ head_at plan.now.scripts done.now r }
{
    plan.script(r).get(done[r as usize]).copied()
}

/// Which file leads: the one that led those before `r`, or `r`, whose first line is this.
fn leader(lead: Option<Lead>, r: u32, head: Option<Line>) -> Option<Lead>
    requires before { IfSome lead IsBefore }
    ensures value { result ≡ leader_of lead r head }
    ensures before { IfSome result IsBefore }
{
    let Some(line) = head else {
        return lead;
    };
    let m = u64::from(line.m);
    match lead {
        Some(ahead) if ahead.moment <= m => Some(Lead {
            until: ahead.until.min(m + 1),
            ..ahead
        }),
        Some(ahead) => Some(Lead {
            runqueue: r,
            moment: m,
            until: ahead.moment,
        }),
        None => Some(Lead {
            runqueue: r,
            moment: m,
            until: u64::MAX,
        }),
    }
}
