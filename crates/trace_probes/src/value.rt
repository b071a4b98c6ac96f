//! Values of fields.

ghost use Rattle.std.specs.Prelude.{◌≡◌, ◌==◌, option_map, position};
ghost use Rattle.std.specs.List.{before_first};
ghost use Rattle.trace_probes.specs.Fields.{flag_of, timer_function, value_of};
ghost use Rattle.trace_probes.specs.Tables.{flag_in, function_in, shown_in, signed_in, unsigned_in};

use crate::field::FieldKind;
use crate::numerals::{signed, unsigned};
use trace_data::TimerFunction;

/// The value of a field.
#[derive(Clone, Copy)]
pub enum FieldValue {
    /// The line does not show it.
    Absent,

    Unsigned(u64),
    Signed(i64),
    Flag(bool),
    Function(TimerFunction),
}

fn plus_in(symbol: &[u8]) -> Option<usize>
    ensures { result ≡ position (λ b. b == 43) symbol.now }
{
    symbol.iter().position(|b| *b == b'+')
}

/// A symbol up to its `+`.
fn name_in(symbol: &[u8]) -> &[u8]
    ensures { result.now ≡ before_first (λ b. b == 43) symbol.now }
{
    match plus_in(symbol) {
        None => symbol,
        Some(plus) => &symbol[..plus],
    }
}

/// The function of a symbol, up to its `+`.
pub fn timer_function(symbol: &[u8]) -> TimerFunction
    ensures { result ≡ timer_function symbol.now }
{
    let name = name_in(symbol);
    if name == b"inactive_task_timer".as_slice() {
        TimerFunction::ZeroLag
    } else if name == b"dl_task_timer".as_slice() {
        TimerFunction::Replenish
    } else {
        TimerFunction::Other
    }
}

pub(crate) fn flag_of(n: u64) -> Option<bool>
    ensures { result ≡ flag_of n }
{
    match n {
        0 => Some(false),
        1 => Some(true),
        _ => None,
    }
}

fn unsigned_value(text: &[u8]) -> Option<FieldValue>
    ensures { result ≡ value_of FieldKind.Unsigned text.now }
{
    Some(FieldValue::Unsigned(unsigned(text)?))
}

fn signed_value(text: &[u8]) -> Option<FieldValue>
    ensures { result ≡ value_of FieldKind.Signed text.now }
{
    Some(FieldValue::Signed(signed(text)?))
}

fn flag_value(text: &[u8]) -> Option<FieldValue>
    ensures { result ≡ value_of FieldKind.Flag text.now }
{
    Some(FieldValue::Flag(flag_of(unsigned(text)?)?))
}

/// The value that a text spells at a field of this kind.
pub(crate) fn value_of(kind: FieldKind, text: &[u8]) -> Option<FieldValue>
    ensures { result ≡ value_of kind text.now }
{
    match kind {
        FieldKind::Unsigned | FieldKind::Optional => unsigned_value(text),
        FieldKind::Signed => signed_value(text),
        FieldKind::Flag => flag_value(text),
        FieldKind::Function => Some(FieldValue::Function(timer_function(text))),
    }
}

impl FieldValue {
    /// The number of an unsigned value, else 0.
    pub(crate) fn unsigned(self) -> u64
        ensures { result ≡ unsigned_in self }
    {
        match self {
            FieldValue::Unsigned(n) => n,
            _ => 0,
        }
    }

    /// The number of a value that a line shows.
    pub(crate) fn shown(self) -> Option<u64>
        ensures { result ≡ shown_in self }
    {
        match self {
            FieldValue::Unsigned(n) => Some(n),
            _ => None,
        }
    }

    /// The number of a signed value, else 0.
    pub(crate) fn signed(self) -> i64
        ensures { result ≡ signed_in self }
    {
        match self {
            FieldValue::Signed(n) => n,
            _ => 0,
        }
    }

    /// Whether it is a flag that is set.
    pub(crate) fn flag(self) -> bool
        ensures { result ≡ flag_in self }
    {
        match self {
            FieldValue::Flag(is_set) => is_set,
            _ => false,
        }
    }

    /// The function of a symbol, else another.
    pub(crate) fn function(self) -> TimerFunction
        ensures { result ≡ function_in self }
    {
        match self {
            FieldValue::Function(function) => function,
            _ => TimerFunction::Other,
        }
    }
}
