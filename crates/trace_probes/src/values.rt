//! The values of a line's fields.

ghost use Rattle.std.specs.Prelude.{◌≡◌, ◌==◌, length, option_map, replicate};
ghost use Rattle.trace_probes.specs.Fields.{has_field, is_optional, next_value, value_next, value_of, values_with};
ghost use Rattle.trace_probes.specs.Tables.{cpu_at, flag_at, function_at, no_values, shown_at, signed_at, unsigned_at};
ghost use Rattle.trace_probes.specs.inside.Texts.{behind_word, next_text, words_left};
ghost use Rattle.text_bytes.specs.Lines.{word_of};

use crate::field::{FIELDS, Field, FieldKind, key_of, kind_of, place_of};
use crate::front::unsigned_front;
use crate::numerals::positive;
use crate::value::{FieldValue, flag_of, value_of};
use text_bytes::first_word;
use trace_data::TimerFunction;
use trace_fields::has_key;

/// The values of fields, each at its place.
#[derive(Clone, Copy)]
pub struct Values {
    pub items: [FieldValue; FIELDS],
}

/// No value yet.
const NO_VALUES: [FieldValue; FIELDS] = [FieldValue::Absent; FIELDS];

/// The value of a field of this kind in the first word of a text, and what stands behind that word.
fn word_value(kind: FieldKind, text: &[u8]) -> Option<(FieldValue, Option<&[u8]>)>
    ensures { option_map next_text result
        ≡ option_map (λ v. (v, behind_word text.now)) (value_of kind (word_of text.now)) }
{
    let (word, rest) = first_word(text);
    let value = value_of(kind, word)?;
    Some((value, rest))
}

/// The same, where a decimal number, as most words are, is read in one scan.
fn front_value(kind: FieldKind, text: &[u8]) -> Option<(FieldValue, Option<&[u8]>)>
    ensures { option_map next_text result
        ≡ option_map (λ v. (v, behind_word text.now)) (value_of kind (word_of text.now)) }
{
    match kind {
        FieldKind::Unsigned | FieldKind::Optional => match unsigned_front(text) {
            Some((n, rest)) => Some((FieldValue::Unsigned(n), rest)),
            None => word_value(kind, text),
        },
        FieldKind::Flag => match unsigned_front(text) {
            Some((n, rest)) => Some((FieldValue::Flag(flag_of(n)?), rest)),
            None => word_value(kind, text),
        },
        FieldKind::Signed => match unsigned_front(text) {
            Some((n, rest)) => Some((FieldValue::Signed(positive(n)?), rest)),
            None => word_value(kind, text),
        },
        FieldKind::Function => word_value(kind, text),
    }
}

/// The value of a field in the first word that has its key, and what stands behind that word.
#[tactic(auto, using(crate::proofs::WordLemmas::next_later))]
fn next_value<'a>(field: Field, words: Option<&'a [u8]>) -> Option<(FieldValue, Option<&'a [u8]>)>
    ensures { option_map next_text result ≡ next_value field (words_left words.entry) }
{
    let key = key_of(field);
    let mut left = words;
    while let Some(text) = left {
        if has_key(key, text) {
            return front_value(kind_of(field), &text[key.len()..]);
        }
        left = first_word(text).1;
    }
    None
}

/// Whether a word has the key of a field.
#[tactic(auto, using(crate::proofs::WordLemmas::has_later))]
pub(crate) fn has_field(field: Field, words: Option<&[u8]>) -> bool
    ensures { result ≡ has_field field (words_left words.entry) }
{
    let key = key_of(field);
    let mut left = words;
    while let Some(text) = left {
        if has_key(key, text) {
            return true;
        }
        left = first_word(text).1;
    }
    false
}

/// Whether a line may lack a field.
fn is_optional(field: Field) -> bool
    ensures { result ≡ is_optional field }
{
    matches!(kind_of(field), FieldKind::Optional)
}

/// The value of a field, and what stands behind it; none of an optional one that is not there.
fn value_next<'a>(field: Field, words: Option<&'a [u8]>) -> Option<(FieldValue, Option<&'a [u8]>)>
    ensures { option_map next_text result ≡ value_next field (words_left words.entry) }
{
    if is_optional(field) && !has_field(field, words) {
        Some((FieldValue::Absent, words))
    } else {
        next_value(field, words)
    }
}

impl Values {
    /// No value yet.
    pub(crate) fn none() -> Values
        ensures { result.items ≡ no_values }
    {
        Values { items: NO_VALUES }
    }

    /// Takes the values of these fields, one behind the other, in a text; none where one is missing or wrong.
    pub(crate) fn take(&mut self, fields: &[Field], text: &[u8]) -> Option<()>
        ensures { option_map (λ _. self.new.items) result
            ≡ values_with fields.now self.old.items (words_left (Some text.entry)) }
    {
        let mut left = Some(text);
        for field in fields {
            let (value, rest) = value_next(*field, left)?;
            self.items[place_of(*field)] = value;
            left = rest;
        }
        Some(())
    }

    pub(crate) fn unsigned(&self, field: Field) -> u64
        ensures { result ≡ unsigned_at field self.now.items }
    {
        self.items[place_of(field)].unsigned()
    }

    /// The number of an optional field, where the line shows it.
    pub(crate) fn shown(&self, field: Field) -> Option<u64>
        ensures { result ≡ shown_at field self.now.items }
    {
        self.items[place_of(field)].shown()
    }

    pub(crate) fn signed(&self, field: Field) -> i64
        ensures { result ≡ signed_at field self.now.items }
    {
        self.items[place_of(field)].signed()
    }

    pub(crate) fn is_set(&self, field: Field) -> bool
        ensures { result ≡ flag_at field self.now.items }
    {
        self.items[place_of(field)].flag()
    }

    pub(crate) fn function(&self, field: Field) -> TimerFunction
        ensures { result ≡ function_at field self.now.items }
    {
        self.items[place_of(field)].function()
    }

    /// A CPU; the greatest `u32` where it is greater.
    pub(crate) fn cpu(&self) -> u32
        ensures { result ≡ cpu_at self.now.items }
    {
        self.unsigned(Field::Cpu).min(u64::from(u32::MAX)) as u32
    }
}
