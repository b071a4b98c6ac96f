//! The command line.

ghost use Rattle.std.specs.Prelude.{◌≡◌, ◌≤◌, IfOk, IfSome, codes, pos, Some};
ghost use Rattle.clap.specs.declared.builder.value_parser.ValueParser.TheVariants as parsers;
ghost use Rattle.clap.specs.Words.{one_of, rule_of, rows_of, found_of, matches_of, fault_of, FailsBy};
ghost use Rattle.grubrun.specs.CommandLine.{MomentNamed, ReadsNumber, RoundsNamed, TriesNamed, tries_rule, rounds_rule, view_rule, moment_rule, files_rule, command_line, texts_of, view_named};
ghost use Rattle.grubrun.specs.inside.Rounds.{IsCommand, IsOf, rounds_id, run_line, view_line};

use crate::texts::VERSION;
use crate::view_word::ViewWord;
use clap::{Arg, ArgAction, ArgMatches, Command, Error, value_parser};
use std::alloc::{AllocError, Global};

const TRIES_DEFAULT: u8 = 8;

const ROUNDS_DEFAULT: u16 = 64;

/// What the words of the command line say.
#[derive(Drop)]
pub struct Options<'a> {
    /// Has the words that name the event files, under `FILE`.
    pub matches: ArgMatches<'a>,
    pub tries: u8,
    pub rounds: u16,
    /// The word after `--view`.
    pub view: Option<ViewWord>,
    /// The moments after `--from` and `--to`.
    pub from: Option<u32>,
    pub to: Option<u32>,
    ghost some_rounds: { 1 ≤ rounds },
}

fn tries_arg<'a>(alloc: Global) -> Arg<'a>
    ensures is { IsOf (codes "tries") result }
    ensures rule { rule_of result ≡ tries_rule }
{
    Arg::new(alloc, "tries")
        .long("tries")
        .value_name("N")
        .value_parser(value_parser!(u8))
        .default_value("8")
}

fn rounds_arg<'a>(alloc: Global) -> Arg<'a>
    ensures is { IsOf (codes "rounds") result }
    ensures parser { result.value_parser ≡ Some (parsers.Signed (pos 1) (pos 65535)) }
    ensures rule { rule_of result ≡ rounds_rule }
{
    Arg::new(alloc, "rounds")
        .long("rounds")
        .value_name("N")
        .value_parser(value_parser!(u16).range(1..))
        .default_value("64")
}

fn view_arg<'a>(alloc: Global) -> Arg<'a>
    ensures is { IsOf (codes "view") result }
    ensures rule { rule_of result ≡ view_rule }
{
    Arg::new(alloc, "view").long("view").value_name("V")
}

fn from_arg<'a>(alloc: Global) -> Arg<'a>
    ensures is { IsOf (codes "from") result }
    ensures rule { rule_of result ≡ moment_rule (codes "from") }
{
    Arg::new(alloc, "from")
        .long("from")
        .value_name("M")
        .value_parser(value_parser!(u32))
}

fn to_arg<'a>(alloc: Global) -> Arg<'a>
    ensures is { IsOf (codes "to") result }
    ensures rule { rule_of result ≡ moment_rule (codes "to") }
{
    Arg::new(alloc, "to")
        .long("to")
        .value_name("M")
        .value_parser(value_parser!(u32))
}

fn files_arg<'a>(alloc: Global) -> Arg<'a>
    ensures is { IsOf (codes "FILE") result }
    ensures rule { rule_of result ≡ files_rule }
{
    Arg::new(alloc, "FILE")
        .required(true)
        .num_args(1..)
        .action(ArgAction::Append)
}

/// The command with the options of a run alone.
fn run_command<'a>(alloc: Global) -> Result<Command<'a>, AllocError>
    ensures { IfOk result (IsCommand run_line) }
{
    Command::new(alloc, "grubrun")
        .version(VERSION)
        .arg(tries_arg(alloc))?
        .arg(rounds_arg(alloc))
}

/// With those of a view too.
fn view_command<'a>(alloc: Global) -> Result<Command<'a>, AllocError>
    ensures { IfOk result (IsCommand view_line) }
{
    run_command(alloc)?
        .arg(view_arg(alloc))?
        .arg(from_arg(alloc))?
        .arg(to_arg(alloc))
}

/// `grubrun [--tries N] [--rounds N] [--view V] [--from M] [--to M] FILE...`: numbers in their ranges, a word, and at
/// least one file; or `--help` or `--version`.
fn command<'a>(alloc: Global) -> Result<Command<'a>, AllocError>
    ensures { IfOk result (IsCommand command_line) }
{
    view_command(alloc)?.arg(files_arg(alloc))
}

/// The matches of the words, and the rounds among them, which are at least 1 by their range.
fn parse<'a>(alloc: Global, words: &'a [String]) -> Result<(ArgMatches<'a>, Option<u16>), Error>
    ensures rounds { IfOk result (λ r. IfSome r.1 (λ n. 1 ≤ n)) }
    ensures number { IfOk result
        (λ r. ReadsNumber 16 (one_of rounds_id (rows_of (found_of r.0))) r.1) }
    ensures matches { IfOk result
        (λ r. rows_of (found_of r.0) ≡ matches_of command_line (texts_of words.now)) }
    ensures faults { FailsBy (fault_of command_line (texts_of words.now)) result }
{
    let matches = command(alloc)?.try_get_matches_from(words)?;
    let rounds = matches.get_one::<u16>("rounds");
    Ok((matches, rounds))
}

/// What the words say, the first of which is the program's name.
pub fn options_of<'a>(alloc: Global, words: &'a [String]) -> Result<Options<'a>, Error>
    ensures tries { IfOk result (λ o. TriesNamed (texts_of words.now) o.tries) }
    ensures rounds { IfOk result (λ o. RoundsNamed (texts_of words.now) o.rounds) }
    ensures view { IfOk result (λ o. o.view ≡ view_named (texts_of words.now)) }
    ensures from { IfOk result
        (λ o. MomentNamed (codes "from") (texts_of words.now) o.from) }
    ensures to { IfOk result (λ o. MomentNamed (codes "to") (texts_of words.now) o.to) }
    ensures matches { IfOk result
        (λ o. rows_of (found_of o.matches) ≡ matches_of command_line (texts_of words.now)) }
    ensures faults { FailsBy (fault_of command_line (texts_of words.now)) result }
{
    let (matches, rounds) = parse(alloc, words)?;
    let tries = matches.get_one::<u8>("tries").unwrap_or(TRIES_DEFAULT);
    let view = matches.get_one::<ViewWord>("view");
    let from = matches.get_one::<u32>("from");
    let to = matches.get_one::<u32>("to");
    Ok(Options {
        matches,
        tries,
        rounds: rounds.unwrap_or(ROUNDS_DEFAULT),
        view,
        from,
        to,
    })
}
