//! The first line of a text, and the first word of a line.

ghost use Rattle.std.specs.Prelude.{◌≡◌, ◌∷◌, [], ◌<◌, ◌+◌, IfSome, MatchOption, length, position};
ghost use Rattle.text_bytes.specs.Lines.{is_end, is_space, parts_of, word_of, words_of};

use memchr::memchr;

/// Where the first space stands.
pub fn space_in(text: &[u8]) -> Option<usize>
    ensures { result ≡ position is_space text.now }
{
    text.iter().position(|b| *b == b' ')
}

/// The first word, and what follows its space.
pub fn first_word(text: &[u8]) -> (&[u8], Option<&[u8]>)
    ensures words { MatchOption result.1 (words_of text.now ≡ result.0.now ∷ [])
        (λ rest. words_of text.now ≡ result.0.now ∷ words_of rest.now) }
    ensures word { result.0.now ≡ word_of text.now }
    ensures len { MatchOption result.1 (length result.0.now ≡ length text.now)
        (λ rest. length result.0.now + 1 + length rest.now ≡ length text.now) }
{
    match space_in(text) {
        None => (text, None),
        Some(i) => (&text[..i], Some(&text[i + 1..])),
    }
}

/// Where the first line ends.
fn line_end(text: &[u8]) -> Option<usize>
    ensures { result ≡ position is_end text.now }
{
    memchr(b'\n', text)
}

/// The first line, without the byte that ends it, and what follows; none where no byte ends it.
pub fn first_line(text: &[u8]) -> Option<(&[u8], &[u8])>
    ensures parts { MatchOption result (parts_of text.now ≡ text.now ∷ [])
        (λ x. parts_of text.now ≡ x.0.now ∷ parts_of x.1.now) }
    ensures len { IfSome result (λ x. length x.1.now < length text.now) }
{
    match line_end(text) {
        None => None,
        Some(end) => Some((&text[..end], &text[end + 1..])),
    }
}
