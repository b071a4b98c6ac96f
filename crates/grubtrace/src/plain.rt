//! Commands as they begin, and options that take a value, and nothing more is asked of it here.

ghost use Rattle.std.specs.Prelude.{IfOk, [], map};
ghost use Rattle.grubtrace.specs.CommandLine.{option};
ghost use Rattle.grubtrace.specs.inside.Arguments.{Adds, Is, IsCommand};

use clap::{Arg, Command};
use std::alloc::{AllocError, Global};

/// An option: its name, the word for its value, and its help.
pub(crate) struct PlainOption {
    pub(crate) name: &'static str,
    pub(crate) value: &'static str,
    pub(crate) help: &'static str,
}

/// An option as clap has it.
pub(crate) fn option<'a>(
    alloc: Global,
    name: &'static str,
    value: &'static str,
    help: &'static str,
) -> Arg<'a>
    ensures { Is (option name.now) result }
{
    Arg::new(alloc, name)
        .long(name)
        .value_name(value)
        .help(help)
}

/// A command with its texts, and no argument yet.
pub(crate) fn command_of<'a>(
    alloc: Global,
    name: &'static str,
    about: &'static str,
    after_help: &'static str,
) -> Command<'a>
    ensures { IsCommand name.now [] result }
{
    Command::new(alloc, name)
        .about(about)
        .after_help(after_help)
}

/// Adds options, in this order.
pub(crate) fn with_options<'a>(
    alloc: Global,
    mut command: Command<'a>,
    options: &[PlainOption],
) -> Result<Command<'a>, AllocError>
    ensures { IfOk result (Adds (map (λ o. option o.name.now) options.now) command.entry) }
{
    for it in options {
        command = command.arg(option(alloc, it.name, it.value, it.help))?;
    }
    Ok(command)
}
