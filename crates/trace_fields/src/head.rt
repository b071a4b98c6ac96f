//! What the head of a trace tells, whose lines begin with `#`, and lines that tell of lost events.

ghost use Rattle.std.specs.Prelude.{◌≡◌, ◌==◌, false, position};
ghost use Rattle.trace_fields.specs.Head.{has_fewer, is_comment, is_fewer, is_less, is_lost, processors, say_lost};
ghost use Rattle.text_bytes.specs.Lines.{words_of};

use crate::decimal::number;
use crate::field::{behind, cpu_field};
use crate::front::begins;
use crate::spaces::without_spaces;
use text_bytes::first_word;

/// Whether a line begins with `#`.
pub fn is_comment(line: &[u8]) -> bool
    ensures { result ≡ is_comment line.now }
{
    line.starts_with(b"#")
}

/// Whether a line tells that events were lost.
pub fn is_lost(line: &[u8]) -> bool
    ensures { result ≡ is_lost line.now }
{
    (is_comment(line) && has_fewer(line)) || says_lost(line)
}

fn says_lost(line: &[u8]) -> bool
    ensures { result ≡ say_lost false (words_of line.now) }
{
    let mut text = line;
    let mut opened = false;
    loop {
        let (word, rest) = first_word(text);
        if begins(word, b"PERF_RECORD_LOST") || (opened && word == b"EVENTS]".as_slice()) {
            return true;
        }
        opened = opened || word == b"[LOST".as_slice();
        match rest {
            None => return false,
            Some(rest) => text = rest,
        }
    }
}

/// Whether a line tells of fewer entries in the buffer than were written.
fn has_fewer(line: &[u8]) -> bool
    ensures { result ≡ has_fewer line.now }
{
    match behind(b"entries-in-buffer/entries-written:", line) {
        None => false,
        Some(rest) => is_fewer(first_word(without_spaces(rest)).0),
    }
}

fn slash_in(word: &[u8]) -> Option<usize>
    ensures { result ≡ position (λ b. b == 47) word.now }
{
    word.iter().position(|b| *b == b'/')
}

/// Whether a word `KEPT/WRITTEN` has numbers of which the first is the lesser.
fn is_fewer(word: &[u8]) -> bool
    ensures { result ≡ is_fewer word.now }
{
    match slash_in(word) {
        None => false,
        Some(slash) => is_less(number(&word[..slash]), number(&word[slash + 1..])),
    }
}

fn is_less(kept: Option<u64>, written: Option<u64>) -> bool
    ensures { result ≡ is_less kept written }
{
    match (kept, written) {
        (Some(kept), Some(written)) => kept < written,
        _ => false,
    }
}

/// The N of the first word `#P:N` of a line.
pub fn processors(line: &[u8]) -> Option<u32>
    ensures { result ≡ processors line.now }
{
    cpu_field(b"#P:", line)
}
