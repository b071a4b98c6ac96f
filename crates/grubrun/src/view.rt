//! What the words ask to be printed: reports, or a view of the time line.

ghost use Rattle.std.specs.Prelude.{◌≡◌, None};
ghost use Rattle.grubrun.specs.Views.{wanted_of, wanted_picture};

use crate::view_word::ViewWord;
use grub_run::FileView;

/// What the words ask to be printed.
#[derive(Clone, Copy)]
pub enum Wanted {
    /// The reports of a run.
    Reports,

    /// A view of the time line.
    View(FileView),

    /// A view that there is none of.
    NoView,

    /// The span of a picture, but no picture.
    NoPicture,

    /// A picture from this moment to this one, which is not after it.
    EmptySpan { from: u32, to: u32 },
}

/// What is asked for by the word after `--view`, and by the moments after `--from` and `--to`.
pub(crate) fn wanted_by(view: Option<ViewWord>, from: Option<u32>, to: Option<u32>) -> Wanted
    ensures { result ≡ wanted_of view from to }
{
    match view {
        Some(ViewWord::Picture) => picture_by(from, to),
        Some(ViewWord::Unknown) => Wanted::NoView,
        _ => {
            if from.is_some() || to.is_some() {
                Wanted::NoPicture
            } else {
                view_by(view)
            }
        }
    }
}

/// A picture, unless it is known that it does not begin before it ends.
fn picture_by(from: Option<u32>, to: Option<u32>) -> Wanted
    ensures { result ≡ wanted_picture from to }
{
    let first = from.unwrap_or(0);
    match to {
        Some(end) if end <= first => Wanted::EmptySpan {
            from: first,
            to: end,
        },
        _ => Wanted::View(FileView::Picture { from, to }),
    }
}

/// What is asked for by the word after `--view` alone.
fn view_by(view: Option<ViewWord>) -> Wanted
    ensures { result ≡ wanted_of view None None }
{
    match view {
        None => Wanted::Reports,
        Some(ViewWord::Timeline) => Wanted::View(FileView::Timeline),
        Some(ViewWord::Steps) => Wanted::View(FileView::Steps),
        Some(ViewWord::Summary) => Wanted::View(FileView::Summary),
        Some(ViewWord::Picture) => picture_by(None, None),
        Some(ViewWord::Unknown) => Wanted::NoView,
    }
}
