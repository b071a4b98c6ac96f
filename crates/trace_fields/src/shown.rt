//! A task as a line shows it.

ghost use Rattle.std.specs.Prelude.{◌≡◌, ◌≤◌, length, option_map};
ghost use Rattle.trace_fields.specs.Shown.{shown_at, shown_by, shown_with_text};

use crate::field::{behind, number_field, place_of};

/// A task as a line shows it; `T` is a text.
#[derive(Clone, Copy)]
pub struct Shown<T> {
    pub comm: T,
    pub pid: u64,
}

/// The task whose comm ends at a place of the text, and the fields from there on.
fn shown_at<'a>(pid_key: &[u8], text: &'a [u8], place: usize) -> Option<(Shown<&'a [u8]>, &'a [u8])>
    requires { place ≤ length text.now }
    ensures { option_map shown_with_text result ≡ shown_at pid_key.now text.now place }
{
    let rest = &text[place..];
    let pid = number_field(pid_key, rest)?;
    let comm = &text[..place];
    Some((Shown { comm, pid }, rest))
}

/// The task of the fields, by the keys of its comm and its pid, and the fields from its pid on.
pub fn shown_by<'a>(
    comm_key: &[u8],
    pid_key: &[u8],
    fields: &'a [u8],
) -> Option<(Shown<&'a [u8]>, &'a [u8])>
    ensures { option_map shown_with_text result ≡ shown_by comm_key.now pid_key.now fields.now }
{
    let text = behind(comm_key, fields)?;
    let place = place_of(pid_key, text)?;
    shown_at(pid_key, text, place)
}
