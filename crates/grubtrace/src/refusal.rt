//! Words that ask for nothing that there is, and the line of each.

ghost use Rattle.std.specs.Prelude.{◌≡◌};
ghost use Rattle.trace_options.specs.declared.fault.TheConstants.{STATUS_USAGE};

use size_report::{FaultKind, OptionFault};
use std::io::Write;
use trace_check::{CheckOption, WrongOption};
use trace_options::STATUS_USAGE;

/// Why words ask for nothing.
#[derive(Clone, Copy)]
pub(crate) enum Refusal<'a> {
    /// An option of `events`, of `check` or of `size` says nothing that it may say.
    OfEvents(WrongOption<'a>),
    OfCheck(WrongOption<'a>),
    OfSize(OptionFault<'a>),

    /// The value of `--laws` is no list of laws.
    Laws(&'a str),
}

impl Refusal<'_> {
    /// Writes the line that tells it, and gives the program's status.
    pub(crate) fn told<E: Write>(self, faults: &mut E) -> u8
        ensures { result ≡ STATUS_USAGE }
    {
        match self {
            Refusal::OfEvents(wrong) => wrong_option(wrong, TAKES_TASK, faults),
            Refusal::OfCheck(wrong) => wrong_option(wrong, TAKES_RECORDED_TASK, faults),
            Refusal::OfSize(wrong) => wrong_of_size(wrong, faults),
            Refusal::Laws(names) => wrong_value("--laws", names, TAKES_LAWS, faults),
        }
    }
}

const TAKES_TASK: &str = "it takes NAME=RUNTIME:PERIOD, each NAME once";

const TAKES_RECORDED_TASK: &str = "it takes NAME=RUNTIME:PERIOD[:DEADLINE][,norec], each NAME once";

const TAKES_LAWS: &str = "it takes names of laws with commas between, or none";

const TAKES_LIMIT: &str = "it takes RUNTIME:PERIOD";

const TAKES_SERVER: &str = "it takes RUNTIME:PERIOD or none";

/// The line of an option with a wrong value, and why it is wrong.
fn wrong_value<E: Write>(option: &str, value: &str, why: &str, faults: &mut E) -> u8
    ensures { result ≡ STATUS_USAGE }
{
    let _ = writeln!(
        faults,
        "error: invalid value '{value}' for '{option}': {why}"
    );
    STATUS_USAGE
}

/// That of an option of `events` or of `check`, whose tasks are said so.
fn wrong_option<E: Write>(wrong: WrongOption<'_>, of_task: &str, faults: &mut E) -> u8
    ensures { result ≡ STATUS_USAGE }
{
    let (option, why) = match wrong.option {
        CheckOption::Task => ("--task", of_task),
        CheckOption::Domain => ("--domain", "it takes a list of CPUs like 0-3,6"),
        CheckOption::Rt => ("--rt", TAKES_LIMIT),
        CheckOption::FairServer => ("--fair-server", TAKES_SERVER),
        CheckOption::Kernel => ("--kernel", "it takes a version like 6.12.48"),
        CheckOption::From => ("--from", "it takes seconds, beside --json or --picture"),
        CheckOption::To => (
            "--to",
            "it takes seconds, more than --from, beside --json or --picture",
        ),
    };
    wrong_value(option, wrong.value, why, faults)
}

/// That of an option of `size`.
fn wrong_of_size<E: Write>(wrong: OptionFault<'_>, faults: &mut E) -> u8
    ensures { result ≡ STATUS_USAGE }
{
    let (option, why) = match wrong.kind {
        FaultKind::Task => (
            "--task",
            "it takes NAME, NAME=PERIOD or NAME=RUNTIME:PERIOD with a period of 100 to 4194304 and a runtime of 2 to the period",
        ),
        FaultKind::Twice => ("--task", "the task is given twice"),
        FaultKind::Within => ("--within", "it takes NAME=US of a task that is given"),
        FaultKind::Rt => ("--rt", TAKES_LIMIT),
        FaultKind::Fair => ("--fair-server", TAKES_SERVER),
        FaultKind::Picture => ("--picture", "it wants a --task, of which it is drawn"),
    };
    wrong_value(option, wrong.value, why, faults)
}
