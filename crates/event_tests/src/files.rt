//! Event files, their reports, and their bytes.

use std::alloc::Global;
use std::process::Abort;

/// The first file.
pub const FIRST: &str = "\
grub 1
queue 1048576 0
task A 4 8
at 0 join A
at 0 block A
at 0 read
at 3 wake A
at 3 read
";

pub const FIRST_REPORT: &str = "\
runqueue 0
at 0 join A: joined q=4 d=8
at 0 block A: asleep
at 0 read: running=0 this=524288
at 3 wake A: woken q=4 d=11
at 3 read: running=524288 this=524288
close running=524288 this=524288
";

/// A task leaves and exits.
pub const LEAVES: &str = "\
grub 1
queue 1048576 0
task T1 4 8
task T2 4 8
at 0 join T1
at 0 join T2
at 0 run T1 2
at 2 block T1
at 2 run T2 2
at 2 leave T1
at 2 exit T1
at 2 read
";

pub const LEAVES_REPORT: &str = "\
runqueue 0
at 0 join T1: joined q=4 d=8
at 0 join T2: joined q=4 d=8
at 0 run T1 2: charged dq=2 k=0 q=2 d=8
at 2 block T1: waiting ticket=1 z=4
at 2 run T2 2: charged dq=2 k=0 q=2 d=8
at 2 leave T1: left 0
at 2 exit T1: ended
at 2 read: running=524288 this=524288
close running=524288 this=524288
";

/// A timer that is due long after.
pub const FAR_TIMER: &str = "\
grub 1
queue 1048576 0
task A 100 1000
at 0 join A
at 0 run A 50
at 50 block A
at 499 read
at 756 read
";

pub const FAR_TIMER_REPORT: &str = "\
runqueue 0
at 0 join A: joined q=100 d=1000
at 0 run A 50: charged dq=50 k=0 q=50 d=1000
at 50 block A: waiting ticket=1 z=500
at 499 read: running=104857 this=104857
at 500 timer A 1: retired
at 756 read: running=0 this=104857
close running=0 this=104857
";

/// New reservations.
pub const RETUNES: &str = "\
grub 2
queue 1048576 0
task A 4 8
at 0 retune A 2 8
at 0 join A
at 0 block A
at 1 retune A 6 8
at 1 read
at 2 wake A
at 2 retune A 4 8
";

pub const RETUNES_REPORT: &str = "\
runqueue 0
at 0 retune A 2 8: retuned
at 0 join A: joined q=2 d=8
at 0 block A: asleep
at 1 retune A 6 8: retuned
at 1 read: running=0 this=786432
at 2 wake A: woken q=6 d=10
at 2 retune A 4 8: still-active
close running=786432 this=786432
";

/// No events.
pub const NO_EVENTS: &str = "\
grub 1
queue 1 0
";

pub const NO_EVENTS_REPORT: &str = "\
runqueue 0
close running=0 this=0
";

/// The bytes of these files; None where memory is refused.
pub(crate) fn files_of(alloc: Global, texts: &[&str]) -> Option<Vec<Vec<u8>>> {
    let mut files = Vec::new(alloc);
    for text in texts {
        let Ok(bytes) = text.as_bytes().to_vec(alloc) else {
            return None;
        };
        if files.push(bytes).is_err() {
            return None;
        }
    }
    Some(files)
}

/// The same, made a second time where a growth of it was refused.
pub(crate) fn files_after_all(rt: &impl Abort, alloc: Global, texts: &[&str]) -> Vec<Vec<u8>> {
    if let Some(files) = files_of(alloc, texts) {
        return files;
    }
    match files_of(alloc, texts) {
        Some(files) => files,
        None => panic!(rt; "refused twice"),
    }
}
