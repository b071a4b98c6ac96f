//! A report that is put together.

use crate::words::{text_of, word};
use serde_json::{Map, Value, put};
use std::alloc::{AllocError, Global};

/// The number of the form, which changes where a member gets another meaning.
const FORM: u64 = 1;

/// A report, member by member.
#[derive(Drop)]
pub struct CheckReport {
    members: Map<String, Value>,
}

impl CheckReport {
    pub fn new(alloc: Global) -> CheckReport {
        CheckReport {
            members: Map::new(alloc),
        }
    }

    /// Adds a member, or gives it another value.
    pub(crate) fn add(&mut self, alloc: Global, key: &str, value: Value) -> Result<(), AllocError> {
        put(&mut self.members, alloc, key, value)
    }

    /// The members of a member that is an object.
    pub(crate) fn object(&mut self, key: &str) -> Option<&mut Map<String, Value>> {
        match self.members.get_mut(key) {
            Some(value) => value.as_object_mut(),
            None => None,
        }
    }

    /// The kernel's log warned of this while the record was made.
    pub fn warn(&mut self, alloc: Global, warnings: &[Vec<u8>]) -> Result<(), AllocError> {
        let mut texts = Vec::new(alloc);
        for warning in warnings {
            texts.push(text_of(alloc, warning.as_slice())?)?;
        }
        self.add(alloc, "warnings", Value::Array(texts))
    }

    /// What the rules say of the record.
    fn answer(&self, agrees: bool) -> &'static str {
        if !agrees {
            "differs"
        } else if self.members.contains_key("rules") {
            "agrees"
        } else {
            "nothing compared"
        }
    }

    /// The document: whether the kernel agrees with its rules, whether the laws are kept, and what was added.
    pub fn write(
        &mut self,
        alloc: Global,
        agrees: bool,
        keeps_laws: bool,
    ) -> Result<Vec<u8>, AllocError> {
        self.add(alloc, "form", Value::from(FORM))?;
        self.add(alloc, "verdict", word(alloc, self.answer(agrees))?)?;
        self.add(alloc, "keeps_laws", Value::from(keeps_laws))?;
        let members = std::mem::replace(&mut self.members, Map::new(alloc));
        let text = Value::Object(members).to_string_pretty(alloc)?;
        let mut bytes = Vec::new(alloc);
        bytes.extend_from_slice(text.as_bytes())?;
        bytes.push(b'\n')?;
        Ok(bytes)
    }
}
