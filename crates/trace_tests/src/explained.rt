//! A run and a play of no lines.

use kernel_rules::ChargeLaw;
use probe_explain::{Player, ProbeLine, Search, Step};
use probe_run::{PlayRules, Run, RunMove, RunStart};
use probe_tasks::AS_SHOWN;
use std::alloc::{AllocError, Global};
use std::collections::VecDeque;
use std::test::Fail;

#[derive(Drop)]
struct NoSearch;

impl Search for NoSearch {
    fn choose(
        &mut self,
        run: &Run,
        next: &ProbeLine,
        ahead: &VecDeque<ProbeLine>,
    ) -> Result<Step, AllocError> {
        Ok(Step::Line(AS_SHOWN))
    }

    fn end(&mut self, run: &Run) -> Result<Option<RunMove>, AllocError> {
        Ok(None)
    }
}

fn no_start(alloc: Global) -> RunStart {
    RunStart {
        processors: Vec::new(alloc),
        starts: Vec::new(alloc),
        amid_until: 0,
    }
}

#[test]
fn nothing_differs_at_first(rt: HostRuntime) -> Result<(), Fail> {
    let alloc = rt.alloc();
    let run = Run::new(alloc, no_start(alloc), false)?;
    assert!(rt; run.agrees());
    Ok(())
}

#[test]
fn no_lines_are_explained(rt: HostRuntime) -> Result<(), Fail> {
    let alloc = rt.alloc();
    let rules = PlayRules {
        law: ChargeLaw::LinuxFrom65,
        change: None,
        has_dequeues: true,
        has_timers: true,
        begins_amid: false,
    };
    let mut player = Player::new(alloc, rules, no_start(alloc), 8, false)?;
    let mut search = NoSearch;
    player.finish(&mut search)?;
    assert!(rt; player.run().agrees());
    Ok(())
}
