//! What files are read as.

use super::*;

/// Whether so many files were read, and this is the script of one of them.
fn has_script(plan: &Plan, files: u32, f: u32, script: &[Line]) -> bool {
    plan.files() == files && f < files && plan.script(f) == script
}

/// Whether this is the script of a file of these bytes.
fn is_read_as(alloc: Global, text: &[u8], script: &[Line]) -> bool {
    match plan_of(alloc, &[text]) {
        Ok(plan) => has_script(&plan, 1, 0, script),
        Err(_) => false,
    }
}

const EXAMPLE_SCRIPT: [Line; 8] = [
    Line {
        m: 0,
        act: Act::Join(0),
    },
    Line {
        m: 0,
        act: Act::Join(1),
    },
    Line {
        m: 0,
        act: Act::Run(0, 2),
    },
    Line {
        m: 2,
        act: Act::Block(0),
    },
    Line {
        m: 2,
        act: Act::Run(1, 2),
    },
    Line {
        m: 4,
        act: Act::Run(1, 4),
    },
    Line {
        m: 8,
        act: Act::Wake(0),
    },
    Line {
        m: 8,
        act: Act::Read,
    },
];

#[test]
fn script_of_the_example(rt: HostRuntime) {
    let text = documentation::FILE.as_bytes();
    assert!(rt; is_read_as(rt.alloc(), text, &EXAMPLE_SCRIPT));
}

/// Whether this is the setup of the example.
fn is_example(plan: &Plan) -> bool {
    let setup = plan.setup();
    setup.has_queue(0)
        && setup.has_task(1)
        && setup.queue(0).umax() == 1048576
        && setup.params(1).period() == 8
        && plan.name(1) == "T2"
}

#[test]
fn setup_of_the_example(rt: HostRuntime) -> Result<(), TraceFault> {
    let plan = plan_of(rt.alloc(), &[documentation::FILE.as_bytes()])?;
    assert!(rt; is_example(&plan));
    Ok(())
}

const LATE_SCRIPT: [Line; 5] = [
    Line {
        m: 0,
        act: Act::Join(2),
    },
    Line {
        m: 1,
        act: Act::Join(0),
    },
    Line {
        m: 2,
        act: Act::Run(1, 5),
    },
    Line {
        m: 3,
        act: Act::Read,
    },
    Line {
        m: 4,
        act: Act::Leave(2),
    },
];

const USES: &[u8] =
    b"grub 1\nqueue 1 0\ntask A 1 2\nat 0 join B\nat 1 join A\nat 2 run C 5\nat 3 read\nat 4 leave B\n";

const DECLARES: &[u8] = b"grub 1\nqueue 1 0\ntask C 1 2\ntask B 1 2\n";

/// Names that a later file declares stand among those that are declared, and one stands twice.
#[test]
fn names_of_a_later_file(rt: HostRuntime) -> Result<(), TraceFault> {
    let plan = plan_of(rt.alloc(), &[USES, DECLARES])?;
    assert!(rt; has_script(&plan, 2, 0, &LATE_SCRIPT) && has_script(&plan, 2, 1, &[]));
    Ok(())
}

const RETUNED_SCRIPT: [Line; 3] = [
    Line {
        m: 0,
        act: Act::Retune(1, 1, 2),
    },
    Line {
        m: 3,
        act: Act::Leave(0),
    },
    Line {
        m: 3,
        act: Act::Exit(1),
    },
];

const VERSION_2: &[u8] =
    b"grub 2\nqueue 1048576 0\ntask A 4 8\nat 0 retune B 1 2\nat 3 leave A\nat 3 exit B\n";

const VERSION_1: &[u8] = b"grub 1\nqueue 9 5\ntask B 4 8\ntask at 16 16777216\nat 7 wake at\n";

/// Whether the third task has this name.
fn has_third(plan: &Plan, name: &str) -> bool {
    plan.setup().has_task(2) && plan.name(2) == name
}

/// Files of both versions stand in one run, and a file may name a task that a later one declares.
#[test]
fn two_versions(rt: HostRuntime) -> Result<(), TraceFault> {
    let plan = plan_of(rt.alloc(), &[VERSION_2, VERSION_1])?;
    assert!(rt; has_script(&plan, 2, 0, &RETUNED_SCRIPT) && has_third(&plan, "at"));
    Ok(())
}

const GREATEST_SCRIPT: [Line; 2] = [
    Line {
        m: 0,
        act: Act::Retune(0, 16777216, 16777216),
    },
    Line {
        m: 2147483647,
        act: Act::Run(0, 16777216),
    },
];

const GREATEST: &[u8] =
    b"grub 2\nqueue 1048576 1048576\ntask aZ09_-aZ09_-aZ09 16777216 16777216\nat 0 retune aZ09_-aZ09_-aZ09 16777216 16777216\nat 2147483647 run aZ09_-aZ09_-aZ09 16777216\n";

/// The greatest numbers of each kind, and the longest name.
#[test]
fn greatest_numbers(rt: HostRuntime) {
    assert!(rt; is_read_as(rt.alloc(), GREATEST, &GREATEST_SCRIPT));
}
