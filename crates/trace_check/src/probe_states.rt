//! The states of a record that its lines of probes show.

use crate::check::CheckRequest;
use crate::showing::{Documents, documents_of, span_of};
use check_record::Gathering;
use probe_findings::Deviation;
use state_history::{ProbeLine, ProbedStates, RecordScene, TaskName};
use std::alloc::{AllocError, Global};
use timer_tasks::{Observation, ObservedAnswer, TimerKind};
use trace_data::{Probe, Ran, Sums};
use trace_options::CheckOptions;

/// `max_bw` where no line shows it: 950 ms in each second.
const MAX_BW: u64 = 996_147;

/// The documents of the states that lines of probes show; none where the window is no part of the record.
pub(crate) fn probe_states(
    alloc: Global,
    wanted: CheckRequest<'_>,
    options: &CheckOptions<'_>,
    gathering: &Gathering<'_>,
) -> Result<Option<Documents>, AllocError> {
    let Some(played) = &gathering.probes.played else {
        return Ok(None);
    };
    let Some(span) = span_of(wanted.window, played.from, played.to) else {
        return Ok(None);
    };
    let pids = gathering.probes.in_class.as_slice();
    let limits = limits_of(alloc, options, gathering)?;
    let mut states = ProbedStates::new(alloc, pids, limits.len(), span)?;
    for kept in &gathering.probes.kept {
        states.see(ProbeLine {
            line: kept.place.line,
            at: kept.place.at,
            cpu: kept.place.cpu,
            probe: kept.probe,
        })?;
    }
    let (history, timers) = states.finish(played.to)?;
    let tasks = task_names(alloc, gathering)?;
    let first = first_of(gathering.probes.first(played), pids);
    let scene = RecordScene {
        history: &history,
        tasks: &tasks,
        observations: &timers,
        first: first.as_ref(),
        span,
        limits: &limits,
    };
    Ok(Some(documents_of(alloc, wanted, scene)?))
}

fn task_names(alloc: Global, gathering: &Gathering<'_>) -> Result<Vec<TaskName>, AllocError> {
    let mut tasks = Vec::new(alloc);
    for pid in &gathering.probes.in_class {
        let comm = gathering.names.comm(alloc, *pid)?;
        tasks.push(TaskName {
            pid: *pid,
            comm: String::from_utf8_lossy(alloc, comm.as_slice())?,
        })?;
    }
    Ok(tasks)
}

/// `max_bw` of each runqueue, by its CPU: the last that a line shows.
fn limits_of(
    alloc: Global,
    options: &CheckOptions<'_>,
    gathering: &Gathering<'_>,
) -> Result<Vec<u64>, AllocError> {
    let settings = gathering.head.law_settings(options, gathering.has_older);
    let mut limits = Vec::new(alloc);
    let cpus = gathering.head.greatest_cpu as usize + 1;
    limits.resize(cpus, settings.limit.unwrap_or(MAX_BW))?;
    for kept in &gathering.probes.kept {
        if let Probe::Updated(line) = kept.probe
            && let Ran::Span { max_bw, .. } = line.ran
            && let Some(limit) = limits.get_mut(line.cpu as usize)
        {
            *limit = max_bw;
        }
    }
    Ok(limits)
}

/// Where the first value differs, as a mark.
fn first_of(first: Option<Deviation>, pids: &[u64]) -> Option<Observation> {
    let Deviation { comparison, .. } = first?;
    let place = comparison.place;
    let task = pids.iter().position(|pid| *pid == place.pid).unwrap_or(0);
    Some(Observation {
        line: place.line,
        at: place.at,
        cpu: place.cpu,
        task: task.min(u32::MAX as usize) as u32,
        kind: TimerKind::Block,
        predicted: place.at,
        kernel: None,
        difference: 0,
        runtime: 0,
        deadline: 0,
        sums: Sums {
            this_bw: 0,
            running_bw: 0,
            extra_bw: 0,
        },
        answer: ObservedAnswer::Differs,
    })
}
