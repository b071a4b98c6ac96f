//! The commands, and the options of all but `check`.

ghost use Rattle.std.specs.Prelude.{◌≡◌, IfOk, [], ◌∷◌, codes, false};
ghost use Rattle.grubtrace.specs.CommandLine.{IsProgram, commands, events_arguments, needed, option, option_or, repeated, size_arguments, sizing_options, tasks_arguments, trace_argument};
ghost use Rattle.grubtrace.specs.inside.Arguments.{Adds, Is, IsCommand, given};

use crate::check_command::check_command;
use crate::plain::{command_of, option};
use crate::texts::{AFTER_EVENTS, AFTER_HELP, AFTER_SIZE, AFTER_TASKS, VERSION};
use clap::{Arg, ArgAction, Command, value_parser};
use std::alloc::{AllocError, Global};
use trace_fields::CPUS_MAX;
use trace_options::CPUS;

fn trace_arg<'a>(alloc: Global) -> Arg<'a>
    ensures { Is trace_argument result }
{
    Arg::new(alloc, "TRACE")
        .help("Text of a kernel's trace, of tracefs or perf script; - is standard input")
        .required(true)
}

fn task_arg<'a>(alloc: Global) -> Arg<'a>
    ensures { Is (repeated (codes "task")) result }
{
    option(
        alloc,
        "task",
        "NAME=RUNTIME:PERIOD",
        "A task's comm or pid, and what it reserves, in microseconds; once for each task",
    )
    .action(ArgAction::Append)
}

/// Event files are of at most `CPUS_MAX` runqueues, a trace of at most `CPUS`.
fn cpus_arg<'a>(alloc: Global, most: u32) -> Arg<'a>
    ensures { Is (option (codes "cpus")) result }
{
    let help = if most == CPUS_MAX {
        "How many runqueues there are, 1 to 64, in place of what the trace says"
    } else {
        "How many processors there are, 1 to 8192, in place of what the trace says"
    };
    option(alloc, "cpus", "N", help).value_parser(value_parser!(u32).range(1..i64::from(most) + 1))
}

fn rt_arg<'a>(alloc: Global) -> Arg<'a>
    ensures { Is (option (codes "rt")) result }
{
    option(
        alloc,
        "rt",
        "RUNTIME:PERIOD",
        "The kernel's sched_rt_runtime_us and sched_rt_period_us",
    )
}

fn fair_arg<'a>(alloc: Global) -> Arg<'a>
    ensures { Is (option (codes "fair-server")) result }
{
    option(
        alloc,
        "fair-server",
        "RUNTIME:PERIOD",
        "What each runqueue reserves for fair tasks, in microseconds, or none",
    )
}

fn out_arg<'a>(alloc: Global) -> Arg<'a>
    ensures { Is (needed (codes "out")) result }
{
    option(
        alloc,
        "out",
        "PREFIX",
        "Where to write: PREFIX.cpu0.grub and so on, one file for each runqueue",
    )
    .required(true)
}

fn sized_task_arg<'a>(alloc: Global) -> Arg<'a>
    ensures { Is (repeated (codes "task")) result }
{
    option(
        alloc,
        "task",
        "NAME[=[RUNTIME:]PERIOD]",
        "A task's comm or pid, and its period in microseconds, else that of its wakes; with a RUNTIME, how many jobs may be late with that. Once for each task; without any, the tasks are listed",
    )
    .action(ArgAction::Append)
}

fn task_within_arg<'a>(alloc: Global) -> Arg<'a>
    ensures { Is (repeated (codes "within")) result }
{
    option(
        alloc,
        "within",
        "NAME=US",
        "In how many microseconds after its wake each job of the task is to be done, where that is not the period",
    )
    .action(ArgAction::Append)
}

fn late_arg<'a>(alloc: Global) -> Arg<'a>
    ensures { Is (option_or (codes "late") (codes "0")) result }
{
    option(alloc, "late", "N", "How many jobs of each task may be late")
        .value_parser(value_parser!(u32).range(0..4294967296))
        .default_value("0")
}

fn margin_arg<'a>(alloc: Global) -> Arg<'a>
    ensures { Is (option_or (codes "margin") (codes "10")) result }
{
    option(
        alloc,
        "margin",
        "PERCENT",
        "How much more than the least runtime is proposed, 0 to 1000",
    )
    .value_parser(value_parser!(u32).range(0..1001))
    .default_value("10")
}

fn sized_rt_arg<'a>(alloc: Global) -> Arg<'a>
    ensures { Is (option_or (codes "rt") (codes "950000:1000000")) result }
{
    rt_arg(alloc).default_value("950000:1000000")
}

fn sized_fair_arg<'a>(alloc: Global) -> Arg<'a>
    ensures { Is (option_or (codes "fair-server") (codes "50000:1000000")) result }
{
    fair_arg(alloc).default_value("50000:1000000")
}

fn picture_arg<'a>(alloc: Global) -> Arg<'a>
    ensures { Is (option (codes "picture")) result }
{
    option(
        alloc,
        "picture",
        "FILE",
        "Draws what each job of the tasks needs, as an SVG document; a file that is there is not written over",
    )
}

fn tasks_command<'a>(alloc: Global) -> Result<Command<'a>, AllocError>
    ensures { IfOk result (IsCommand (codes "tasks") tasks_arguments) }
{
    command_of(
        alloc,
        "tasks",
        "Prints the SCHED_DEADLINE tasks that a trace shows, and what they reserve",
        AFTER_TASKS,
    )
    .arg(trace_arg(alloc))
}

/// The options that say how many runqueues there are, and what the kernel reserves there. Each stands above the trace's notes.
fn with_runqueues<'a>(
    alloc: Global,
    command: Command<'a>,
    most: u32,
    rt: Arg<'a>,
    fair_server: Arg<'a>,
) -> Result<Command<'a>, AllocError>
    requires rt { rt.global ≡ false }
    requires fair_server { fair_server.global ≡ false }
    ensures { IfOk result (Adds
        (option (codes "cpus") ∷ given rt.entry ∷ given fair_server.entry ∷ []) command.entry) }
{
    command
        .arg(cpus_arg(alloc, most))?
        .arg(rt)?
        .arg(fair_server)
}

fn events_command<'a>(alloc: Global) -> Result<Command<'a>, AllocError>
    ensures { IfOk result (IsCommand (codes "events") events_arguments) }
{
    let command = command_of(
        alloc,
        "events",
        "Writes the event files that a trace tells",
        AFTER_EVENTS,
    )
    .arg(task_arg(alloc))?;
    with_runqueues(alloc, command, CPUS_MAX, rt_arg(alloc), fair_arg(alloc))?
        .arg(out_arg(alloc))?
        .arg(trace_arg(alloc))
}

/// The options that say how a task is sized.
fn with_sizing<'a>(alloc: Global, command: Command<'a>) -> Result<Command<'a>, AllocError>
    ensures { IfOk result (Adds sizing_options command.entry) }
{
    command
        .arg(sized_task_arg(alloc))?
        .arg(task_within_arg(alloc))?
        .arg(late_arg(alloc))?
        .arg(margin_arg(alloc))
}

fn size_command<'a>(alloc: Global) -> Result<Command<'a>, AllocError>
    ensures { IfOk result (IsCommand (codes "size") size_arguments) }
{
    let command = command_of(
        alloc,
        "size",
        "Lists the tasks of a trace, of any class, or says which reservations they need",
        AFTER_SIZE,
    );
    let command = with_sizing(alloc, command)?;
    with_runqueues(
        alloc,
        command,
        CPUS,
        sized_rt_arg(alloc),
        sized_fair_arg(alloc),
    )?
    .arg(picture_arg(alloc))?
    .arg(trace_arg(alloc))
}

/// The program, with no command yet.
fn program<'a>(alloc: Global) -> Command<'a>
    ensures { IsProgram [] result }
{
    Command::new(alloc, "grubtrace")
        .version(VERSION)
        .about(
            "Reads kernel traces of SCHED_DEADLINE tasks, up to a verdict on the kernel's accounting",
        )
        .after_help(AFTER_HELP)
        .subcommand_required(true)
}

/// The command line of `grubtrace`, with its commands `tasks`, `events`, `check` and `size`. `AllocError` is want of memory.
pub fn command_line<'a>(alloc: Global) -> Result<Command<'a>, AllocError>
    ensures { IfOk result (IsProgram commands) }
{
    program(alloc)
        .subcommand(tasks_command(alloc)?)?
        .subcommand(events_command(alloc)?)?
        .subcommand(check_command(alloc, fair_arg(alloc), trace_arg(alloc))?)?
        .subcommand(size_command(alloc)?)
}
