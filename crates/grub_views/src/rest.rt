//! The end of a time line that nobody reads.

ghost use Rattle.std.specs.Prelude.{◌≡◌, ◌++◌, List};
ghost use Rattle.grub_timeline.specs.declared.told.ToldEntry.{ToldEntry};

use grub_timeline::Playing;

/// Plays what is left. So a text that a writer did not take whole is a beginning of that of the whole time line.
pub(crate) fn play_out(playing: &mut Playing<'_>)
    ensures plan { playing.new.plan ≡ playing.old.plan }
    ensures over { playing.new.left ≡ 0 }
    ensures told { (more : List ToldEntry) × (playing.new.told ≡ playing.old.told ++ more) }
{
    while playing.play_on() {}
}
