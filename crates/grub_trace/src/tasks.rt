//! The declared tasks, and their numbers by their names.

ghost use Rattle.std.specs.Prelude.{◌≡◌, ◌<◌, length, ◌∷◌, [], ◌++◌, Err, OnOk, IfSome, None, is_some, true};
ghost use Rattle.grub_book.specs.declared.setup.TheConstants.{TASKS_MAX};
ghost use Rattle.grub_book.specs.Bandwidth.{reservation_fits};
ghost use Rattle.grub_plan.specs.Names.{is_name};
ghost use Rattle.grub_trace.specs.Tree.{names_of};
ghost use Rattle.grub_trace.specs.Naming.{task_of};
ghost use Rattle.grub_trace.specs.inside.Reading.{Declares, declarations, IsIndexed, ok_unless, task_fault};
ghost use Rattle.grub_trace.specs.Forms.{reservation_value};

use crate::fault::{Kind, Location, TraceFault};
use crate::number::number;
use grub_book::{Params, TASKS_MAX};
use std::alloc::{AllocError, Global};
use std::collections::HashMap;

#[derive(Drop)]
pub struct Task {
    pub name: String,
    pub params: Params,
}

/// The declared tasks, in order, and each one's number by its name.
#[derive(Drop)]
pub struct Tasks {
    pub list: Vec<Task>,
    pub index: HashMap<String, u32>,
}

impl Tasks {
    pub(crate) fn new(alloc: Global) -> Tasks
        ensures none { declarations result ≡ [] }
        ensures indexed { IsIndexed result }
    {
        Tasks {
            list: Vec::new(alloc),
            index: HashMap::new(alloc),
        }
    }

    /// The number of the task with this name.
    pub(crate) fn find(&self, name: &[u8]) -> Option<u32>
        requires { IsIndexed self.now }
        ensures { result ≡ task_of (names_of (declarations self.now)) name.now }
    {
        match str::from_utf8(name) {
            Ok(name) => self.index.get(name).copied(),
            Err(_) => None,
        }
    }

    pub(crate) fn push(
        &mut self,
        alloc: Global,
        name: &str,
        params: Params,
    ) -> Result<(), AllocError>
        requires indexed { IsIndexed self.old }
        requires room { length (declarations self.old) < TASKS_MAX }
        requires fresh { task_of (names_of (declarations self.old)) name.now ≡ None }
        ensures declared { OnOk result (declarations self.new
            ≡ declarations self.old ++ record { name = name.now; params = params } ∷ []) }
        ensures indexed { OnOk result (IsIndexed self.new) }
    {
        let number = self.list.len() as u32;
        let key = String::from_str(alloc, name)?;
        let name = String::from_str(alloc, name)?;
        self.list.push(Task { name, params })?;
        self.index.insert(key, number)?;
        Ok(())
    }
}

/// The reservation, where it is one.
pub(crate) fn reservation(runtime: u32, period: u32) -> Option<Params>
    ensures value { IfSome result (λ p. p ≡ record { runtime = runtime; period = period }) }
    ensures exact { is_some result
        ≡ reservation_fits (record { runtime = runtime; period = period }) }
{
    Params::new(runtime, period).ok()
}

/// The reservation of a task that may be declared after these.
fn declared_params(
    tasks: &Tasks,
    name: &[u8],
    runtime: &[u8],
    period: &[u8],
) -> Result<Params, Kind>
    requires { IsIndexed tasks.now }
    ensures { result
        ≡ ok_unless (task_fault (names_of (declarations tasks.now)) name.now runtime.now period.now)
        (reservation_value runtime.now period.now) }
{
    let (Some(runtime), Some(period)) = (number(runtime), number(period)) else {
        return Err(Kind::BadNumber);
    };
    if tasks.list.len() >= TASKS_MAX {
        return Err(Kind::OutOfRange);
    }
    let Some(params) = reservation(runtime, period) else {
        return Err(Kind::OutOfRange);
    };
    let known = tasks.find(name);
    if known.is_some() {
        return Err(Kind::DuplicateTask);
    }
    Ok(params)
}

/// Declares the task of this line.
pub(crate) fn declare(
    alloc: Global,
    tasks: &mut Tasks,
    line: Location,
    name: &[u8],
    runtime: &[u8],
    period: &[u8],
) -> Result<(), TraceFault>
    requires indexed { IsIndexed tasks.old }
    requires name_in { is_name name.now ≡ true }
    ensures takes { Declares result line (declarations tasks.old)
        (declarations tasks.new) name.now runtime.now period.now }
    ensures indexed { (result ≡ Err TraceFault.NoMemory → ⊥) → IsIndexed tasks.new }
{
    let params = match declared_params(tasks, name, runtime, period) {
        Ok(params) => params,
        Err(kind) => return Err(line.fault(kind)),
    };
    let Ok(name) = str::from_utf8(name) else {
        unreachable!();
    };
    tasks.push(alloc, name, params)?;
    Ok(())
}
