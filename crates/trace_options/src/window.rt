//! Which part of a record is shown.

ghost use Rattle.std.specs.Prelude.{◌≡◌, ◌==◌, Result, option_map};
ghost use Rattle.std.specs.Result.{result_map_both};
ghost use Rattle.trace_fields.specs.Words.{text_of};
ghost use Rattle.trace_options.specs.Settings.{asked, window_in, wrong_by};
ghost use Rattle.trace_options.specs.Words.{moment_in};

use crate::options::{CheckOption, WrongOption};
use crate::words::moment_of;

/// The part of a record that is shown, in nanoseconds of its clock: from its begin and to its end where they are not said.
#[derive(Clone, Copy)]
pub struct Window {
    pub from: Option<u64>,
    pub to: Option<u64>,
}

/// The moment of an option, where it is given.
fn moment<'a>(option: CheckOption, text: Option<&'a str>) -> Result<Option<u64>, WrongOption<'a>>
    ensures { result_map_both (λ moment. moment) wrong_by result
        ≡ asked moment_in option (option_map text_of text.entry) }
{
    match text {
        None => Ok(None),
        Some(value) => match moment_of(value.as_bytes()) {
            Some(moment) => Ok(Some(moment)),
            None => Err(WrongOption { option, value }),
        },
    }
}

/// The window of `--from` and `--to`, in seconds; it ends after it begins. An error is the first of them that is wrong.
pub fn window_of<'a>(from: Option<&'a str>, to: Option<&'a str>) -> Result<Window, WrongOption<'a>>
    ensures { result_map_both (λ window. window) wrong_by result
        ≡ window_in (option_map text_of from.entry) (option_map text_of to.entry) }
{
    let begin = moment(CheckOption::From, from)?;
    let end = moment(CheckOption::To, to)?;
    match (begin, end) {
        (Some(begin), Some(end)) if begin >= end => Err(WrongOption {
            option: CheckOption::To,
            value: to.unwrap_or(""),
        }),
        _ => Ok(Window {
            from: begin,
            to: end,
        }),
    }
}
