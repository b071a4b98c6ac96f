//! Values of JSON that may be absent, and texts.

use serde_json::{ToValue, Value};
use std::alloc::{AllocError, Global};

/// A number, or null.
pub(crate) fn number_or_null(number: Option<u64>) -> Value {
    match number {
        Some(number) => Value::from(number),
        None => Value::Null,
    }
}

/// A text of bytes: what is no UTF-8 is replaced.
pub(crate) fn text_of(alloc: Global, bytes: &[u8]) -> Result<Value, AllocError> {
    Ok(Value::from(String::from_utf8_lossy(alloc, bytes)?))
}

/// A text, or null.
pub(crate) fn text_or_null(alloc: Global, text: Option<&[u8]>) -> Result<Value, AllocError> {
    match text {
        Some(text) => text_of(alloc, text),
        None => Ok(Value::Null),
    }
}

/// The lines of a text, without spaces before them.
pub(crate) fn lines_of(alloc: Global, text: &[u8]) -> Result<Value, AllocError> {
    let mut lines = Vec::new(alloc);
    for line in text.split(|byte| *byte == b'\n') {
        let line = line.trim_ascii();
        if !line.is_empty() {
            lines.push(text_of(alloc, line)?)?;
        }
    }
    Ok(Value::Array(lines))
}

/// A word of the program.
pub(crate) fn word(alloc: Global, word: &str) -> Result<Value, AllocError> {
    word.to_value(alloc)
}
