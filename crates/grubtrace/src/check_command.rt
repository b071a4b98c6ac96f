//! The command line of `grubtrace check`.

ghost use Rattle.std.specs.Prelude.{IfOk, codes};
ghost use Rattle.grubtrace.specs.CommandLine.{check_arguments, comparison_options, flag, kernel_options, option, option_or, repeated, recorded_options, trace_argument};
ghost use Rattle.grubtrace.specs.inside.Arguments.{Adds, Is, IsCommand};

use crate::plain::{PlainOption, command_of, option, with_options};
use crate::texts::AFTER_CHECK;
use clap::{Arg, ArgAction, Command, value_parser};
use std::alloc::{AllocError, Global};
use trace_options::CPUS;

/// Whose arithmetic a record may be played by.
const LAWS: &[&str] = &["kernel", "documentation"];

/// What is written beside the verdict.
const WRITTEN: &[PlainOption] = &[
    PlainOption {
        name: "table",
        value: "FILE",
        help: "Writes a row for each comparison, separated by tabs",
    },
    PlainOption {
        name: "json",
        value: "FILE",
        help: "Writes the states of tasks and runqueues, for ui.perfetto.dev and chrome://tracing",
    },
    PlainOption {
        name: "picture",
        value: "FILE",
        help: "Draws the states of tasks and runqueues, as SVG",
    },
    PlainOption {
        name: "report",
        value: "FILE",
        help: "Writes the verdict as JSON",
    },
    PlainOption {
        name: "from",
        value: "S",
        help: "With --json or --picture: from when on, in seconds of the trace",
    },
    PlainOption {
        name: "to",
        value: "S",
        help: "With --json or --picture: until when, in seconds of the trace",
    },
];

fn task_arg<'a>(alloc: Global) -> Arg<'a>
    ensures { Is (repeated (codes "task")) result }
{
    option(
        alloc,
        "task",
        "NAME=RUNTIME:PERIOD[:DEADLINE][,norec]",
        "A task's comm or pid, and what it reserves, in microseconds; once for each task",
    )
    .action(ArgAction::Append)
}

fn cpus_arg<'a>(alloc: Global) -> Arg<'a>
    ensures { Is (option (codes "cpus")) result }
{
    option(
        alloc,
        "cpus",
        "N",
        "The root domain has the CPUs 0 to N-1; N is 1 to 8192",
    )
    .value_parser(value_parser!(u32).range(1..i64::from(CPUS) + 1))
}

fn domain_arg<'a>(alloc: Global) -> Arg<'a>
    ensures { Is (option (codes "domain")) result }
{
    option(
        alloc,
        "domain",
        "LIST",
        "The CPUs of the root domain, as 2-3,6",
    )
}

fn rt_arg<'a>(alloc: Global) -> Arg<'a>
    ensures { Is (option (codes "rt")) result }
{
    option(
        alloc,
        "rt",
        "RUNTIME:PERIOD",
        "The kernel's sched_rt_runtime_us and sched_rt_period_us; -1 is no limit",
    )
    .allow_hyphen_values(true)
}

fn kernel_arg<'a>(alloc: Global) -> Arg<'a>
    ensures { Is (option (codes "kernel")) result }
{
    option(
        alloc,
        "kernel",
        "VERSION",
        "The kernel that was recorded, as 6.12.111",
    )
}

fn within_arg<'a>(alloc: Global) -> Arg<'a>
    ensures { Is (option_or (codes "within") (codes "20")) result }
{
    option(
        alloc,
        "within",
        "US",
        "How far a timer's moment may lie from the kernel's, in microseconds",
    )
    .value_parser(value_parser!(u32).range(0..2147483648))
    .default_value("20")
}

fn by_arg<'a>(alloc: Global) -> Arg<'a>
    ensures { Is (option_or (codes "by") (codes "kernel")) result }
{
    option(
        alloc,
        "by",
        "LAW",
        "Whose arithmetic the record is played by",
    )
    .value_parser(LAWS)
    .default_value("kernel")
}

fn timers_arg<'a>(alloc: Global) -> Arg<'a>
    ensures { Is (flag (codes "timers")) result }
{
    Arg::new(alloc, "timers")
        .long("timers")
        .help("Compares timers, also where the record has lines of probes")
        .action(ArgAction::SetTrue)
}

fn laws_arg<'a>(alloc: Global) -> Arg<'a>
    ensures { Is (option (codes "laws")) result }
{
    option(
        alloc,
        "laws",
        "NAMES",
        "The laws that the record is held to, as progress,firing; none of them by none",
    )
}

fn why_arg<'a>(alloc: Global) -> Arg<'a>
    ensures { Is (flag (codes "why")) result }
{
    Arg::new(alloc, "why")
        .long("why")
        .help("Names each changed rule that explains a record that differs")
        .action(ArgAction::SetTrue)
}

/// The options that say which runqueues and tasks were recorded.
fn with_tasks<'a>(alloc: Global, command: Command<'a>) -> Result<Command<'a>, AllocError>
    ensures { IfOk result (Adds recorded_options command.entry) }
{
    command
        .arg(task_arg(alloc))?
        .arg(cpus_arg(alloc))?
        .arg(domain_arg(alloc))
}

/// Those that say what the kernel reserves, and which it is.
fn with_kernel<'a>(
    alloc: Global,
    command: Command<'a>,
    fair_server: Arg<'a>,
) -> Result<Command<'a>, AllocError>
    requires { Is (option (codes "fair-server")) fair_server }
    ensures { IfOk result (Adds kernel_options command.entry) }
{
    command
        .arg(rt_arg(alloc))?
        .arg(fair_server)?
        .arg(kernel_arg(alloc))
}

/// Those that say what is compared with what.
fn with_comparison<'a>(alloc: Global, command: Command<'a>) -> Result<Command<'a>, AllocError>
    ensures { IfOk result (Adds comparison_options command.entry) }
{
    command
        .arg(within_arg(alloc))?
        .arg(by_arg(alloc))?
        .arg(timers_arg(alloc))?
        .arg(laws_arg(alloc))?
        .arg(why_arg(alloc))
}

/// `grubtrace check`, with what it takes for fair tasks' reservation and for a trace.
pub(crate) fn check_command<'a>(
    alloc: Global,
    fair_server: Arg<'a>,
    trace: Arg<'a>,
) -> Result<Command<'a>, AllocError>
    requires fair_server { Is (option (codes "fair-server")) fair_server }
    requires trace { Is trace_argument trace }
    ensures { IfOk result (IsCommand (codes "check") check_arguments) }
{
    let command = command_of(
        alloc,
        "check",
        "Says whether the kernel accounted as its rules say",
        AFTER_CHECK,
    );
    let command = with_tasks(alloc, command)?;
    let command = with_kernel(alloc, command, fair_server)?;
    let command = with_comparison(alloc, command)?;
    with_options(alloc, command, WRITTEN)?.arg(trace)
}
