//! Numbers at the front of a text: most are read by one look at each byte.

ghost use Rattle.std.specs.Prelude.{◌≡◌, ◌∷◌, ◌==◌, false, length, Some, IfSome, IsTrue};
ghost use Rattle.text_bytes.specs.Lines.{word_of};
ghost use Rattle.trace_probes.specs.Numerals.{digits_from, positive, signed, unsigned};
ghost use Rattle.trace_probes.specs.inside.Texts.{behind_word, words_left};

use crate::numerals::{FEW, digit};

/// The number that the digits at the front of a text spell, and what stands behind them; it stops before it may be too great.
fn front_digits(text: &[u8]) -> (u64, &[u8])
    ensures digits { digits_from 10 0 (word_of text.now) ≡ digits_from 10 result.0 (word_of result.1.now) }
    ensures behind { behind_word text.now ≡ behind_word result.1.now }
{
    let mut value = 0;
    let mut rest = text;
    while let [byte, more @ ..] = rest {
        let digit = digit(*byte);
        if digit >= 10 || value >= FEW {
            return (value, rest);
        }
        value = value * 10 + digit;
        rest = more;
    }
    (value, rest)
}

/// Whether a text begins with a decimal digit.
#[tactic(auto, using(crate::proofs::WordLemmas::digit_word))]
fn begins_with_digit(text: &[u8]) -> bool
    ensures { IsTrue result → (length (word_of text.now) == 0) ≡ false }
{
    match text {
        [] => false,
        [byte, ..] => digit(*byte) < 10,
    }
}

/// The number of the first word of a text, and what stands behind that word; none also where the word is read otherwise.
#[tactic(auto, using(crate::proofs::WordLemmas::signed_is, crate::proofs::WordLemmas::unsigned_is))]
pub(crate) fn unsigned_front(text: &[u8]) -> Option<(u64, Option<&[u8]>)>
    ensures { IfSome result (λ r. (unsigned (word_of text.now) ≡ Some r.0)
        × (signed (word_of text.now) ≡ positive r.0)
        × (behind_word text.now ≡ words_left r.1)) }
{
    if !begins_with_digit(text) {
        return None;
    }
    let (n, rest) = front_digits(text);
    match rest {
        [] => Some((n, None)),
        [b' ', more @ ..] => Some((n, Some(more))),
        _ => None,
    }
}
