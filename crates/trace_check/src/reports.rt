//! The report of a verdict.

ghost use Rattle.std.specs.Prelude.{◌≡◌, IfOk};

use crate::check::{CheckRequest, Verdict};
use check_record::Gathering;
use check_report::{ReportSettings, add_evidence, add_settings};
use probe_verdict::{Evidence, put_evidence};
use std::alloc::{AllocError, Global};
use trace_options::{Arithmetic, CheckOptions, Fault};

/// Adds what speaks for the first deviation to a verdict.
pub(crate) fn put_evidence_of<'o>(
    alloc: Global,
    verdict: &mut Verdict,
    evidence: Evidence<'_>,
) -> Result<(), Fault<'o>>
    ensures { verdict.new.agrees ≡ verdict.old.agrees }
{
    put_evidence(alloc, &mut verdict.text, evidence)?;
    add_evidence(alloc, &mut verdict.report, evidence)?;
    Ok(())
}

/// A verdict with its report as it is written, where that is wanted.
pub(crate) fn with_report<'o>(
    alloc: Global,
    wanted: CheckRequest<'_>,
    options: &CheckOptions<'_>,
    gathering: &Gathering<'_>,
    mut verdict: Verdict,
) -> Result<Verdict, Fault<'o>>
    ensures agrees { IfOk result (λ v. v.agrees ≡ verdict.agrees) }
    ensures laws { IfOk result (λ v. v.keeps_laws ≡ verdict.keeps_laws) }
{
    if wanted.report.is_some() {
        match write_report(alloc, wanted, options, gathering, &mut verdict) {
            Ok(()) => {}
            Err(AllocError) => return Err(Fault::NoMemory),
        }
    }
    Ok(verdict)
}

fn write_report(
    alloc: Global,
    wanted: CheckRequest<'_>,
    options: &CheckOptions<'_>,
    gathering: &Gathering<'_>,
    verdict: &mut Verdict,
) -> Result<(), AllocError>
    ensures agrees { verdict.new.agrees ≡ verdict.old.agrees }
    ensures laws { verdict.new.keeps_laws ≡ verdict.old.keeps_laws }
{
    let given = gathering.head.law_settings(options, gathering.has_older);
    let settings = ReportSettings {
        trace: wanted.path,
        is_by_documentation: matches!(options.arithmetic, Arithmetic::Documentation),
        within: options.within,
        max_bw: given.limit,
        server_bw: given.server_bw,
        laws: wanted.laws,
    };
    add_settings(alloc, &mut verdict.report, settings)?;
    verdict.report.warn(alloc, &gathering.warnings)?;
    verdict.reported = verdict
        .report
        .write(alloc, verdict.agrees, verdict.keeps_laws)?;
    Ok(())
}
