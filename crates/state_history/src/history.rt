//! Slices, as a record's lines bring them.

use crate::span::{Span, common};
use crate::state::{TaskState, is_same};
use std::alloc::{AllocError, Global};
use trace_data::Sums;

/// A state of a task on the runqueue of a CPU, and when it had it.
#[derive(Clone, Copy)]
pub struct Slice {
    pub task: u32,
    pub cpu: u32,
    pub state: TaskState,
    pub span: Span,
}

/// The sums of the runqueue of a CPU, and when they were so.
#[derive(Clone, Copy)]
pub struct SumsSlice {
    pub cpu: u32,
    pub sums: Sums,
    pub span: Span,
}

/// The budget of a task and its deadline, in nanoseconds, and when they were so.
#[derive(Clone, Copy)]
pub struct BudgetSlice {
    pub task: u32,
    pub runtime: i64,
    pub deadline: u64,
    pub span: Span,
}

/// What a record's tasks and runqueues came to in a part of it.
#[derive(Drop)]
pub struct History {
    /// Those that ended, by their ends.
    pub states: Vec<Slice>,
    pub sums: Vec<SumsSlice>,
    pub budgets: Vec<BudgetSlice>,

    /// The part of the record.
    window: Span,

    /// Those that have not ended: of each task, and of each runqueue.
    last_states: Vec<Option<Slice>>,
    last_budgets: Vec<Option<BudgetSlice>>,
    last_sums: Vec<Option<SumsSlice>>,
}

/// A span that begins at a moment and has not ended.
fn begun(at: u64) -> Span {
    Span { from: at, to: at }
}

/// What of a span that ends at a moment is in the window.
fn ended(window: Span, span: Span, at: u64) -> Option<Span> {
    common(
        window,
        Span {
            from: span.from,
            to: at.max(span.from),
        },
    )
}

/// Appends a state that ends at a moment, as far as it is in the window.
fn end_state(
    states: &mut Vec<Slice>,
    window: Span,
    last: Option<Slice>,
    at: u64,
) -> Result<(), AllocError> {
    let Some(slice) = last else {
        return Ok(());
    };
    match ended(window, slice.span, at) {
        Some(span) => {
            states.push(Slice { span, ..slice })?;
            Ok(())
        }
        None => Ok(()),
    }
}

/// Appends sums that end at a moment, as far as they are in the window.
fn end_sums(
    sums: &mut Vec<SumsSlice>,
    window: Span,
    last: Option<SumsSlice>,
    at: u64,
) -> Result<(), AllocError> {
    let Some(slice) = last else {
        return Ok(());
    };
    match ended(window, slice.span, at) {
        Some(span) => {
            sums.push(SumsSlice { span, ..slice })?;
            Ok(())
        }
        None => Ok(()),
    }
}

/// Appends a budget that ends at a moment, as far as it is in the window.
fn end_budget(
    budgets: &mut Vec<BudgetSlice>,
    window: Span,
    last: Option<BudgetSlice>,
    at: u64,
) -> Result<(), AllocError> {
    let Some(slice) = last else {
        return Ok(());
    };
    match ended(window, slice.span, at) {
        Some(span) => {
            budgets.push(BudgetSlice { span, ..slice })?;
            Ok(())
        }
        None => Ok(()),
    }
}

/// Whether a task is still in the state of its last slice.
fn is_still(last: Option<Slice>, cpu: u32, state: Option<TaskState>) -> bool {
    match (last, state) {
        (None, None) => true,
        (Some(slice), Some(state)) => slice.cpu == cpu && is_same(slice.state, state),
        _ => false,
    }
}

/// A state begins no earlier than the one before it.
fn begin_after(last: Option<Slice>, at: u64) -> u64 {
    match last {
        Some(slice) => at.max(slice.span.from),
        None => at,
    }
}

fn next_slice(task: u32, cpu: u32, state: Option<TaskState>, at: u64) -> Option<Slice> {
    match state {
        Some(state) => Some(Slice {
            task,
            cpu,
            state,
            span: begun(at),
        }),
        None => None,
    }
}

fn are_still(last: Option<SumsSlice>, sums: Sums) -> bool {
    match last {
        Some(slice) => {
            slice.sums.this_bw == sums.this_bw
                && slice.sums.running_bw == sums.running_bw
                && slice.sums.extra_bw == sums.extra_bw
        }
        None => false,
    }
}

fn is_budget_still(last: Option<BudgetSlice>, runtime: i64, deadline: u64) -> bool {
    match last {
        Some(slice) => slice.runtime == runtime && slice.deadline == deadline,
        None => false,
    }
}

/// The value at a place; none behind the last.
fn last_at<T: Copy>(lasts: &[Option<T>], place: usize) -> Option<T> {
    if place < lasts.len() {
        lasts[place]
    } else {
        None
    }
}

/// Another value at a place; none behind the last.
fn set_last<T: Copy>(lasts: &mut [Option<T>], place: usize, last: Option<T>) {
    if place < lasts.len() {
        lasts[place] = last;
    }
}

impl History {
    /// Nothing yet of so many tasks and runqueues, in this part of a record.
    pub fn new(
        alloc: Global,
        tasks: usize,
        cpus: usize,
        window: Span,
    ) -> Result<History, AllocError> {
        let mut history = History {
            states: Vec::new(alloc),
            sums: Vec::new(alloc),
            budgets: Vec::new(alloc),
            window,
            last_states: Vec::new(alloc),
            last_budgets: Vec::new(alloc),
            last_sums: Vec::new(alloc),
        };
        history.last_states.resize(tasks, None)?;
        history.last_budgets.resize(tasks, None)?;
        history.last_sums.resize(cpus, None)?;
        Ok(history)
    }

    /// How many tasks there are.
    pub fn tasks(&self) -> u32 {
        self.last_states.len().min(u32::MAX as usize) as u32
    }

    /// How many runqueues there are.
    pub fn cpus(&self) -> u32 {
        self.last_sums.len().min(u32::MAX as usize) as u32
    }

    /// The state that a task has not left.
    pub fn current(&self, task: u32) -> Option<Slice> {
        last_at(&self.last_states, task as usize)
    }

    /// From a moment on a task is in a state, on the runqueue of a CPU; on no runqueue where there is no state.
    pub fn show(
        &mut self,
        task: u32,
        cpu: u32,
        state: Option<TaskState>,
        at: u64,
    ) -> Result<(), AllocError> {
        let last = last_at(&self.last_states, task as usize);
        if is_still(last, cpu, state) {
            return Ok(());
        }
        let at = begin_after(last, at);
        end_state(&mut self.states, self.window, last, at)?;
        set_last(
            &mut self.last_states,
            task as usize,
            next_slice(task, cpu, state, at),
        );
        Ok(())
    }

    /// From a moment on the sums of a runqueue are these.
    pub fn show_sums(&mut self, cpu: u32, sums: Sums, at: u64) -> Result<(), AllocError> {
        let last = last_at(&self.last_sums, cpu as usize);
        if are_still(last, sums) {
            return Ok(());
        }
        end_sums(&mut self.sums, self.window, last, at)?;
        let next = SumsSlice {
            cpu,
            sums,
            span: begun(at),
        };
        set_last(&mut self.last_sums, cpu as usize, Some(next));
        Ok(())
    }

    /// From a moment on the budget of a task and its deadline are these.
    pub fn show_budget(
        &mut self,
        task: u32,
        runtime: i64,
        deadline: u64,
        at: u64,
    ) -> Result<(), AllocError> {
        let last = last_at(&self.last_budgets, task as usize);
        if is_budget_still(last, runtime, deadline) {
            return Ok(());
        }
        end_budget(&mut self.budgets, self.window, last, at)?;
        let next = BudgetSlice {
            task,
            runtime,
            deadline,
            span: begun(at),
        };
        set_last(&mut self.last_budgets, task as usize, Some(next));
        Ok(())
    }

    /// The record ends at a moment, and all ends with it.
    pub fn finish(&mut self, at: u64) -> Result<(), AllocError> {
        end_states(&mut self.states, self.window, &self.last_states, at)?;
        end_all_sums(&mut self.sums, self.window, &self.last_sums, at)?;
        end_budgets(&mut self.budgets, self.window, &self.last_budgets, at)?;
        Ok(())
    }
}

fn end_states(
    states: &mut Vec<Slice>,
    window: Span,
    lasts: &[Option<Slice>],
    at: u64,
) -> Result<(), AllocError> {
    for last in lasts {
        end_state(states, window, *last, at)?;
    }
    Ok(())
}

fn end_all_sums(
    sums: &mut Vec<SumsSlice>,
    window: Span,
    lasts: &[Option<SumsSlice>],
    at: u64,
) -> Result<(), AllocError> {
    for last in lasts {
        end_sums(sums, window, *last, at)?;
    }
    Ok(())
}

fn end_budgets(
    budgets: &mut Vec<BudgetSlice>,
    window: Span,
    lasts: &[Option<BudgetSlice>],
    at: u64,
) -> Result<(), AllocError> {
    for last in lasts {
        end_budget(budgets, window, *last, at)?;
    }
    Ok(())
}
