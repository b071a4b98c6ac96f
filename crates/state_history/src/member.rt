//! Objects of JSON, member by member.

use serde_json::{Map, ToValue, Value, put};
use std::alloc::{AllocError, Global};

/// A text as a value.
pub(crate) fn text(alloc: Global, text: &str) -> Result<Value, AllocError> {
    text.to_value(alloc)
}

/// Adds a member, or gives it another value.
pub(crate) fn add(
    alloc: Global,
    members: &mut Map<String, Value>,
    key: &str,
    value: Value,
) -> Result<(), AllocError> {
    put(members, alloc, key, value)
}

/// An object of one member.
pub(crate) fn one(alloc: Global, key: &str, value: Value) -> Result<Value, AllocError> {
    let mut members = Map::new(alloc);
    add(alloc, &mut members, key, value)?;
    Ok(Value::Object(members))
}

/// What each event has: its name, its phase, and its process.
pub(crate) fn head(
    alloc: Global,
    name: &str,
    phase: &str,
    process: u64,
) -> Result<Map<String, Value>, AllocError> {
    let mut members = Map::new(alloc);
    add(alloc, &mut members, "name", text(alloc, name)?)?;
    add(alloc, &mut members, "ph", text(alloc, phase)?)?;
    add(alloc, &mut members, "pid", Value::from(process))?;
    Ok(members)
}

/// What each event of a moment has.
pub(crate) fn timed(
    alloc: Global,
    name: &str,
    phase: &str,
    process: u64,
    ts: f64,
) -> Result<Map<String, Value>, AllocError> {
    let mut members = head(alloc, name, phase, process)?;
    add(alloc, &mut members, "ts", Value::from(ts))?;
    Ok(members)
}
