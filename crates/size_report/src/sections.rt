//! A sections: the section of each task that is asked for, and what is proposed for it.

ghost use Rattle.std.specs.Prelude.{◌≡◌, ◌≤◌, ◌<◌, IfErr, IfOk, IfSome, OnOk, length, option_and_then, vec_len};
ghost use Rattle.std.specs.List.{FoldsTo};
ghost use Rattle.size_jobs.specs.Taking.{tasks_of};
ghost use Rattle.size_report.specs.Answers.{Adds, ProposesNone, Reserves, Sizes, no_sections, pid_of};
ghost use Rattle.size_report.specs.Faults.{IsOfTask};
ghost use Rattle.size_report.specs.Options.{asked_task, said_by};
ghost use Rattle.size_report.specs.Periods.{admitted_period, period_in, regular};
ghost use Rattle.size_report.specs.inside.Sections.{IsFound, sections_in};

use crate::census::duration;
use crate::figures::{Figures, regular_period};
use crate::options::{AskedTask, SizeOptions};
use crate::picture::{Drawn, drawn_of};
use crate::price::put_prices;
use crate::sizing::{Needed, PERIOD_LEAST, PERIOD_MOST, SizeRequest, jobs_of, needed_of};
use crate::task_text::{
    put_chance, put_choices, put_command, put_figures, put_head, put_late_count, put_no_runs,
    put_none, put_not_regular, put_others, put_question,
};
use size_admission::Proposal;
use size_jobs::{JobRecord, JobTask};
use size_least::{Job, first_late, late_count};
use std::alloc::{AllocError, Global};
use trace_options::Fault;
use trace_probes::numeral;

/// What is printed of the tasks so far, and what is proposed for them.
#[derive(Drop)]
pub(crate) struct SizeSections {
    pub text: Vec<u8>,
    pub proposals: Vec<Proposal>,

    /// What is drawn of them, where a picture is asked for.
    pub drawn: Vec<Drawn>,
}

impl SizeSections {
    fn new(alloc: Global) -> SizeSections
        ensures { sections_in result ≡ no_sections }
    {
        SizeSections {
            text: Vec::new(alloc),
            proposals: Vec::new(alloc),
            drawn: Vec::new(alloc),
        }
    }

    /// Adds a section in which nothing is proposed.
    fn tell(&mut self, lead: &[u8]) -> Result<(), AllocError>
        ensures { OnOk result (ProposesNone (sections_in self.old) (sections_in self.new)) }
    {
        self.text.extend_from_slice(lead)
    }
}

/// A task of a record, and its pid.
#[derive(Clone, Copy)]
pub(crate) struct FoundTask<'r> {
    pub pid: u64,
    pub task: &'r JobTask,
}

/// The task of a name: a pid, or the first with this comm.
fn task_named<'r>(record: &'r JobRecord, name: &str) -> Option<FoundTask<'r>>
    ensures { IfSome result (IsFound name.now (tasks_of record.now.tasks)) }
{
    let pid = pid_named(record, name)?;
    let task = record.tasks.task(pid)?;
    Some(FoundTask { pid, task })
}

fn pid_named(record: &JobRecord, name: &str) -> Option<u64>
    ensures { result ≡ pid_of name.now (tasks_of record.now.tasks) }
{
    match numeral(10, name.as_bytes()) {
        Some(pid) => Some(pid),
        None => record.tasks.pid_named(name.as_bytes()),
    }
}

/// The task of a name, which has a job.
fn asked_task<'r, 'a>(record: &'r JobRecord, name: &'a str) -> Result<FoundTask<'r>, Fault<'a>>
    ensures jobs { IfOk result (λ f. 0 < vec_len f.task.now.jobs) }
    ensures some { IfOk result (λ f. 0 < length f.task.now.jobs.items) }
    ensures found { IfOk result (IsFound name.now (tasks_of record.now.tasks)) }
    ensures fault { IfErr result (IsOfTask name.now) }
{
    let Some(found) = task_named(record, name) else {
        return Err(Fault::NoSuchTask { name });
    };
    if found.task.jobs.is_empty() {
        return Err(Fault::NoJobs { name });
    }
    Ok(found)
}

/// A period that the kernel admits.
fn admitted_period(period: u64) -> Option<u32>
    ensures { result ≡ admitted_period period }
{
    if period >= u64::from(PERIOD_LEAST) && period <= u64::from(PERIOD_MOST) {
        Some(period as u32)
    } else {
        None
    }
}

/// The period of a task by its wakes.
fn period_by_wakes(figures: &Figures) -> Option<u32>
    ensures { result ≡ option_and_then admitted_period (regular figures.now.between.items) }
{
    admitted_period(regular_period(&figures.between)?)
}

/// The period of a task: that which is given, else that of its wakes.
fn period_of(asked: &AskedTask<'_>, figures: &Figures) -> Option<u32>
    ensures { result ≡ period_in (asked_task asked.now) figures.now.between.items }
{
    match asked.period {
        Some(period) => Some(period),
        None => period_by_wakes(figures),
    }
}

/// Where the jobs of a task stand in a record, and in how long after its wake each is to be done.
#[derive(Clone, Copy)]
pub(crate) struct JobSpan {
    pub first: u64,
    pub within: u32,
    pub is_drawn: bool,
}

/// Writes that no runtime is enough: the first job that may be late with the whole period, and how many may be.
fn put_none_enough(
    out: &mut Vec<u8>,
    task: &JobTask,
    jobs: &[Job],
    period: u32,
) -> Result<(), AllocError>
    requires { 1 ≤ period }
{
    let alloc = *out.allocator();
    let late = first_late(alloc, jobs, period, period)?;
    put_none(out, &task.jobs, late)?;
    put_late_count(out, late_count(alloc, jobs, period, period)?, jobs.len())
}

/// Adds a section that ends with the command of what is proposed.
fn put_proposed(
    sections: &mut SizeSections,
    lead: &[u8],
    found: FoundTask<'_>,
    runtime: u32,
    period: u32,
) -> Result<(), AllocError>
    ensures { OnOk result (Reserves found.entry.pid found.entry.task.now.comm.items runtime period
        (sections_in sections.old) (sections_in sections.new)) }
{
    let alloc = *sections.text.allocator();
    sections.text.extend_from_slice(lead)?;
    put_command(&mut sections.text, runtime, period, found.pid)?;
    sections.proposals.push(Proposal {
        comm: Vec::from_slice(alloc, &found.task.comm)?,
        runtime,
        period,
    })?;
    Ok(())
}

/// Writes what a task needs, but for the command.
fn put_lead(
    lead: &mut Vec<u8>,
    needed: &Needed,
    task: &JobTask,
    jobs: &[Job],
    wanted: SizeRequest,
) -> Result<(), AllocError> {
    put_choices(lead, needed, &task.jobs, jobs, wanted)?;
    put_others(lead, &needed.others)?;
    put_chance(lead, task.jobs.len())
}

/// Adds the section of a task, whose first lines are given: what it needs in a period.
fn put_needed(
    sections: &mut SizeSections,
    mut lead: Vec<u8>,
    found: FoundTask<'_>,
    jobs: &[Job],
    wanted: SizeRequest,
    span: JobSpan,
) -> Result<(), AllocError>
    ensures { OnOk result (Sizes wanted.allowed wanted.margin wanted.period found.entry.pid
        found.entry.task.now.comm.items jobs.now (sections_in sections.old) (sections_in sections.new)) }
{
    let alloc = *sections.text.allocator();
    let period = wanted.period;
    if period == 0 {
        return sections.tell(&lead);
    }
    let needed = needed_of(alloc, jobs, wanted)?;
    if span.is_drawn {
        let drawn = drawn_of(alloc, found.task, span, jobs, period, &needed)?;
        sections.drawn.push(drawn)?;
    }
    let Some(needed) = needed else {
        put_none_enough(&mut lead, found.task, jobs, period)?;
        return sections.tell(&lead);
    };
    put_lead(&mut lead, &needed, found.task, jobs, wanted)?;
    put_proposed(sections, &lead, found, needed.proposed, period)
}

/// The first lines of the section of a task.
fn lead_of(
    alloc: Global,
    record: &JobRecord,
    found: FoundTask<'_>,
    figures: &Figures,
    is_first: bool,
) -> Result<Vec<u8>, AllocError> {
    let mut lead = Vec::new(alloc);
    if !is_first {
        lead.push(b'\n')?;
    }
    put_head(&mut lead, found.task, found.pid, duration(record))?;
    put_figures(&mut lead, figures)?;
    if !found.task.has_runs {
        put_no_runs(&mut lead)?;
    }
    Ok(lead)
}

/// Adds the section of a task that is asked for.
fn put_asked(
    sections: &mut SizeSections,
    record: &JobRecord,
    found: FoundTask<'_>,
    asked: &AskedTask<'_>,
    options: &SizeOptions<'_>,
) -> Result<(), AllocError>
    requires found { IsFound asked.now.name.now (tasks_of record.now.tasks) found }
    requires some { 0 < length found.task.now.jobs.items }
    ensures { OnOk result (Adds (said_by options.now) (tasks_of record.now.tasks)
        (sections_in sections.old) (asked_task asked.now) (sections_in sections.new)) }
{
    let alloc = *sections.text.allocator();
    let figures = Figures::new(alloc, &found.task.jobs)?;
    let mut lead = lead_of(alloc, record, found, &figures, sections.text.is_empty())?;
    let Some(period) = period_of(asked, &figures) else {
        put_not_regular(&mut lead)?;
        put_prices(&mut lead, &found.task.jobs, &figures, asked.within)?;
        return sections.tell(&lead);
    };
    let within = asked.within.unwrap_or(period);
    put_question(&mut lead, &figures, within, period)?;
    let jobs = jobs_of(alloc, &found.task.jobs, within)?;
    let wanted = SizeRequest {
        period,
        allowed: options.late,
        margin: options.margin,
        given: asked.runtime,
    };
    let span = JobSpan {
        first: record.first / 1000,
        within,
        is_drawn: options.picture.is_some(),
    };
    put_needed(sections, lead, found, &jobs, wanted, span)
}

/// Adds the section of a task that is asked for, by its name.
fn put_task<'a>(
    sections: &mut SizeSections,
    record: &JobRecord,
    asked: &AskedTask<'a>,
    options: &SizeOptions<'a>,
) -> Result<(), Fault<'a>>
    ensures { OnOk result (Adds (said_by options.now) (tasks_of record.now.tasks)
        (sections_in sections.old) (asked_task asked.now) (sections_in sections.new)) }
{
    let found = asked_task(record, asked.name)?;
    if put_asked(sections, record, found, asked, options).is_err() {
        return Err(Fault::NoText);
    }
    Ok(())
}

/// Each task that is asked for is in the record, and has a job.
fn find_all<'a>(record: &JobRecord, options: &SizeOptions<'a>) -> Result<(), Fault<'a>> {
    for asked in &options.tasks {
        let _ = asked_task(record, asked.name)?;
    }
    Ok(())
}

/// What is printed of the tasks that are asked for.
pub(crate) fn sections_of<'a>(
    alloc: Global,
    record: &JobRecord,
    options: &SizeOptions<'a>,
) -> Result<SizeSections, Fault<'a>>
    ensures { IfOk result (λ s. FoldsTo (Adds (said_by options.now) (tasks_of record.now.tasks))
        no_sections (said_by options.now).tasks (sections_in s)) }
{
    find_all(record, options)?;
    let mut sections = SizeSections::new(alloc);
    for asked in &options.tasks {
        put_task(&mut sections, record, asked, options)?;
    }
    Ok(sections)
}
