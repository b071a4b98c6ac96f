//! The word that names a view.

ghost use Rattle.grubrun.specs.inside.Views.{ReadsViewWord};

use std::convert::Infallible;
use std::str::FromStr;

/// What the word after `--view` names.
#[derive(Clone, Copy, Debug, PartialEq, Eq)]
pub enum ViewWord {
    Timeline,
    Steps,
    Summary,
    Picture,
    Unknown,
}

impl FromStr for ViewWord {
    type Err = Infallible;

    ghost from_str_gives = { ReadsViewWord };

    fn from_str(word: &str) -> Result<ViewWord, Infallible> {
        if word == "timeline" {
            Ok(ViewWord::Timeline)
        } else if word == "steps" {
            Ok(ViewWord::Steps)
        } else if word == "summary" {
            Ok(ViewWord::Summary)
        } else if word == "picture" {
            Ok(ViewWord::Picture)
        } else {
            Ok(ViewWord::Unknown)
        }
    }
}
