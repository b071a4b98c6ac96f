//! What event files say, with tasks by number.

ghost use Rattle.std.specs.Prelude.{◌≡◌, ◌<◌, length, map, string_bytes, slice_get, Some, true};
ghost use Rattle.grub_plan.specs.Limits.{PlanFits, ScriptFits};
ghost use Rattle.grub_plan.specs.Names.{is_name};

use crate::line::Line;
use grub_book::{Params, Queue, Setup};
use std::marker::Model;

/// What event files say: a runqueue and a script for each file, and the tasks of all files.
#[derive(Drop)]
pub struct Plan {
    setup: Setup,
    names: Vec<String>,
    scripts: Vec<Vec<Line>>,
}

impl Model for Plan {
    ghost use Rattle.std.specs.Prelude.{map, string_bytes};
    ghost use Rattle.grub_plan.specs.Plans.{PlanView};

    ghost Value = { PlanView };

    ghost use Rattle.grub_plan.specs.Limits.{PlanFits};

    ghost view = { λ p. record {
      setup = p.setup;
      names = map string_bytes p.names.items;
      scripts = map (λ s. s.items) p.scripts.items;
    } };

    ghost invariant = { λ p. PlanFits (record {
      setup = p.setup;
      names = map string_bytes p.names.items;
      scripts = map (λ s. s.items) p.scripts.items;
    }) };
}

impl Plan {
    /// The plan of these parts, which are to keep the limits. The vectors are kept, so it takes no memory.
    pub fn new(
        queues: Vec<Queue>,
        tasks: Vec<Params>,
        names: Vec<String>,
        scripts: Vec<Vec<Line>>,
    ) -> Plan
        requires { PlanFits (record {
          setup = record { queues = queues.items; tasks = tasks.items };
          names = map string_bytes names.items;
          scripts = map (λ s. s.items) scripts.items;
        }) }
        ensures { result ≡ record {
          setup = record { queues = queues.items; tasks = tasks.items };
          names = map string_bytes names.items;
          scripts = map (λ s. s.items) scripts.items;
        } }
    {
        let Ok(setup) = Setup::new(queues, tasks) else {
            unreachable!();
        };
        Plan {
            setup,
            names,
            scripts,
        }
    }

    /// The runqueues, one for each file, and the tasks of all files.
    pub fn setup(&self) -> &Setup
        ensures setup { result.now ≡ self.now.setup }
        ensures limits { PlanFits self.now }
    {
        &self.setup
    }

    /// The number of files, which is that of scripts and of runqueues.
    pub fn files(&self) -> u32
        ensures count { result ≡ length self.now.scripts }
        ensures limits { PlanFits self.now }
    {
        self.scripts.len() as u32
    }

    /// The script of file `r`, which counts from 0: lines in order, with moments that do not go back.
    pub fn script(&self, r: u32) -> &[Line]
        requires { r < length self.now.scripts }
        ensures script { slice_get self.now.scripts r ≡ Some result.now }
        ensures limits { ScriptFits (length self.now.setup.tasks) 0 result.now }
    {
        self.scripts[r as usize].as_slice()
    }

    /// The name of task `t`, which counts from 0 over all files.
    pub fn name(&self, t: u32) -> &str
        requires { t < length self.now.setup.tasks }
        ensures name { slice_get self.now.names t ≡ Some result.now }
        ensures limits { is_name result.now ≡ true }
    {
        self.names[t as usize].as_str()
    }
}
