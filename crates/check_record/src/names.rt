//! The tasks of a record by name.

use probe_verdict::NamedTask;
use std::alloc::{AllocError, Global};
use std::collections::HashMap;

/// Where a task's name stands, and whether a line has shown it in the class.
#[derive(Clone, Copy)]
struct NamePlace {
    place: usize,
    is_in_class: bool,
}

/// The tasks of a record: each pid with its comm at the first line that shows it in the class, else at the first that shows it.
#[derive(Drop)]
pub struct Names {
    pub tasks: Vec<NamedTask>,
    places: HashMap<u64, NamePlace>,
}

impl Names {
    pub fn new(alloc: Global) -> Names {
        Names {
            tasks: Vec::new(alloc),
            places: HashMap::new(alloc),
        }
    }

    /// A line shows a pid with this comm.
    pub fn show(
        &mut self,
        alloc: Global,
        pid: u64,
        comm: &[u8],
        is_in_class: bool,
    ) -> Result<(), AllocError> {
        let place = match self.places.get(&pid).copied() {
            None => self.tasks.len(),
            Some(known) if is_in_class && !known.is_in_class => known.place,
            Some(_) => return Ok(()),
        };
        let name = NamedTask {
            pid,
            comm: Vec::from_slice(alloc, comm)?,
        };
        match self.tasks.get_mut(place) {
            Some(named) => *named = name,
            None => self.tasks.push(name)?,
        }
        self.places.insert(pid, NamePlace { place, is_in_class })?;
        Ok(())
    }

    /// The comm of a pid; its number where no line has shown one.
    pub fn comm(&self, alloc: Global, pid: u64) -> Result<Vec<u8>, AllocError> {
        let mut out = Vec::new(alloc);
        if let Some(name) = self
            .places
            .get(&pid)
            .and_then(|known| self.tasks.get(known.place))
        {
            out.extend_from_slice(name.comm.as_slice())?;
            return Ok(out);
        }
        let text = format!(in alloc; "pid{pid}")?;
        out.extend_from_slice(text.as_bytes())?;
        Ok(out)
    }
}
