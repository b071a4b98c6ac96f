//! What a report says of the record, and of how it was checked.

use crate::report::CheckReport;
use crate::words::{number_or_null, text_of, text_or_null, word};
use law_findings::{AskedLaws, LAWS};
use law_verdict::law_name;
use probe_verdict::{DroppedLines, NamedTask};
use serde_json::{Value, json};
use std::alloc::{AllocError, Global};
use trace_data::Kernel;

/// How a record was checked.
#[derive(Clone, Copy)]
pub struct ReportSettings<'a> {
    /// The name of the record.
    pub trace: &'a str,
    pub is_by_documentation: bool,

    /// How far the moment of a timer may lie from the kernel's, in nanoseconds.
    pub within: u64,

    /// What options say of `max_bw` and of each fair server's bandwidth, in units of 2^-20.
    pub max_bw: Option<u64>,
    pub server_bw: Option<u64>,

    /// The laws that are asked.
    pub laws: AskedLaws,
}

/// Adds the settings of a check.
pub fn add_settings(
    alloc: Global,
    report: &mut CheckReport,
    settings: ReportSettings<'_>,
) -> Result<(), AllocError> {
    let arithmetic = if settings.is_by_documentation {
        "documentation"
    } else {
        "kernel"
    };
    let laws = laws_of(alloc, settings.laws)?;
    let settings = json!(in alloc; {
        "trace": settings.trace,
        "arithmetic": arithmetic,
        "within_ns": settings.within,
        "max_bw": number_or_null(settings.max_bw),
        "server_bw": number_or_null(settings.server_bw),
        "laws": laws
    })?;
    report.add(alloc, "settings", settings)
}

fn laws_of(alloc: Global, asked: AskedLaws) -> Result<Value, AllocError> {
    let mut names = Vec::new(alloc);
    for law in LAWS {
        if asked.asks(law) {
            names.push(word(alloc, law_name(law))?)?;
        }
    }
    Ok(Value::Array(names))
}

/// A release as three numbers, as 6.12.117; or null.
pub(crate) fn kernel_of(alloc: Global, kernel: Option<Kernel>) -> Result<Value, AllocError> {
    match kernel {
        Some(kernel) => {
            let (major, minor, patch) = (kernel.major, kernel.minor, kernel.patch);
            Ok(Value::from(format!(in alloc; "{major}.{minor}.{patch}")?))
        }
        None => Ok(Value::Null),
    }
}

/// The whole release that a note tells; or null.
pub(crate) fn release_of(alloc: Global, release: Option<&[u8]>) -> Result<Value, AllocError> {
    text_or_null(alloc, release)
}

pub(crate) fn cpus_of(alloc: Global, cpus: &[u32]) -> Result<Value, AllocError> {
    let mut values = Vec::new(alloc);
    for cpu in cpus {
        values.push(Value::from(*cpu))?;
    }
    Ok(Value::Array(values))
}

/// A task by its pid and comm.
pub(crate) fn task_of(alloc: Global, pid: u64, comm: &[u8]) -> Result<Value, AllocError> {
    let comm = text_of(alloc, comm)?;
    json!(in alloc; {"pid": pid, "comm": comm})
}

pub(crate) fn tasks_of(alloc: Global, tasks: &[NamedTask]) -> Result<Value, AllocError> {
    let mut values = Vec::new(alloc);
    for task in tasks {
        values.push(task_of(alloc, task.pid, task.comm.as_slice())?)?;
    }
    Ok(Value::Array(values))
}

/// How many lines and hits of probes were lost; null where no note tells it.
pub(crate) fn lost_of(alloc: Global, lost: Option<DroppedLines>) -> Result<Value, AllocError> {
    match lost {
        Some(lost) => json!(in alloc; {"lines": lost.lines, "hits": lost.hits}),
        None => Ok(Value::Null),
    }
}
