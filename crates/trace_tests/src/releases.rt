//! Versions, each in its row.

use kernel_rules::{
    ChargeLaw, RELEASES, Servers, UpdateFunction, charge_law, has_servers, is_judged_by_probes,
    is_judged_by_timers, release_of,
};
use std::test::Fail;
use trace_data::Kernel;

fn version(major: u32, minor: u32, patch: u32) -> Kernel {
    Kernel {
        major,
        minor,
        patch,
    }
}

/// A version, and what it has: whether max_bw, the servers, and whether it was tried by probes and by timers.
const WANTED: [(u32, u32, u32, bool, Servers, bool, bool); 12] = [
    (5, 10, 0, false, Servers::Absent, false, false),
    (6, 1, 177, false, Servers::Absent, true, true),
    (6, 4, 16, false, Servers::Absent, false, false),
    (6, 6, 0, true, Servers::Absent, false, false),
    (6, 11, 9, true, Servers::Absent, false, false),
    (6, 12, 91, true, Servers::StopWithTimer, false, false),
    (6, 12, 92, true, Servers::StopAtPick, true, true),
    (6, 12, 117, true, Servers::StopAtPick, true, true),
    (6, 16, 3, true, Servers::StopWithTimer, false, false),
    (6, 17, 0, true, Servers::StopAtIdle, false, false),
    (6, 18, 44, true, Servers::StopAtIdle, false, true),
    (7, 0, 0, true, Servers::StopAtIdle, false, false),
];

#[test]
fn versions_have_their_rows(rt: HostRuntime) -> Result<(), Fail> {
    for (major, minor, patch, has_max_bw, servers, by_probes, by_timers) in &WANTED {
        let kernel = version(*major, *minor, *patch);
        let release = release_of(kernel);
        assert_eq!(rt; release.has_max_bw, *has_max_bw);
        assert!(rt; release.servers == *servers);
        assert_eq!(rt; has_servers(kernel), *servers != Servers::Absent);
        assert_eq!(rt; is_judged_by_probes(Some(kernel)), *by_probes);
        assert_eq!(rt; is_judged_by_timers(Some(kernel)), *by_timers);
        assert_eq!(rt;
            matches!(charge_law(kernel), ChargeLaw::LinuxFrom65),
            *has_max_bw
        );
    }
    assert!(rt; is_judged_by_probes(None));
    assert!(rt; RELEASES[0].update == UpdateFunction::UpdateCurrDl);
    Ok(())
}
