//! The front of a text.

ghost use Rattle.std.specs.Prelude.{◌≡◌, ◌≤◌, IsTrue, length, nat_eq, option_map, take};
ghost use Rattle.std.specs.List.{starts_with};
ghost use Rattle.std.specs.Str.{bytes_eq};
ghost use Rattle.trace_fields.specs.Numbers.{after};
ghost use Rattle.trace_fields.specs.Words.{text_of};

/// Whether a text begins with a key. Keys are short, and most differ soon.
pub fn begins(text: &[u8], key: &[u8]) -> bool
    ensures { result ≡ starts_with nat_eq text.now key.now }
{
    match key {
        [] => true,
        [wanted, keys @ ..] => match text {
            [] => false,
            [byte, rest @ ..] => *wanted == *byte && begins(rest, keys),
        },
    }
}

/// Whether a word has a key at its front. Keys are short, and most differ soon.
pub fn has_key(key: &[u8], word: &[u8]) -> bool
    ensures is { result ≡ bytes_eq (take (length key.now) word.now) key.now }
    ensures fits { IsTrue result → length key.now ≤ length word.now }
{
    match key {
        [] => true,
        [wanted, keys @ ..] => match word {
            [] => false,
            [byte, rest @ ..] => *byte == *wanted && has_key(keys, rest),
        },
    }
}

/// What follows the key at the front of a word.
pub fn after<'a>(key: &[u8], word: &'a [u8]) -> Option<&'a [u8]>
    ensures { option_map text_of result ≡ after key.now word.now }
{
    if has_key(key, word) {
        Some(&word[key.len()..])
    } else {
        None
    }
}
