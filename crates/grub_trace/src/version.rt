//! The versions of event files.

ghost use Rattle.std.specs.Prelude.{◌≡◌};
ghost use Rattle.grub_trace.specs.Forms.{version_of};

/// The version that the first line of a file names. A file of version 2 may have `retune` lines.
#[derive(Clone, Copy)]
pub enum Version {
    One,
    Two,
}

impl Version {
    ghost use Rattle.grub_trace.specs.Tree.{may_retune};

    /// Whether a file of this version may have `retune` lines.
    pub(crate) fn may_retune(self) -> bool
        ensures { result ≡ may_retune self }
    {
        match self {
            Version::One => false,
            Version::Two => true,
        }
    }
}

/// The version that a first line names.
pub(crate) fn version_of(line: &[u8]) -> Option<Version>
    ensures { result ≡ version_of line.now }
{
    if line == b"grub 1".as_slice() {
        Some(Version::One)
    } else if line == b"grub 2".as_slice() {
        Some(Version::Two)
    } else {
        None
    }
}
