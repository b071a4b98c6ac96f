//! What stands behind the spaces at the front of a text.

ghost use Rattle.std.specs.Prelude.{◌≡◌, not, position};
ghost use Rattle.text_bytes.specs.Lines.{is_space};
ghost use Rattle.trace_fields.specs.Words.{without_spaces};

fn other_in(text: &[u8]) -> Option<usize>
    ensures { result ≡ position (λ b. not (is_space b)) text.now }
{
    text.iter().position(|b| *b != b' ')
}

/// The text from its first byte on that is no space.
pub fn without_spaces(text: &[u8]) -> &[u8]
    ensures { result.now ≡ without_spaces text.now }
{
    match other_in(text) {
        None => &text[text.len()..],
        Some(i) => &text[i..],
    }
}
