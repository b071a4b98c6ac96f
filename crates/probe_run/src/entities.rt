//! Entities by their numbers.

ghost use Rattle.std.specs.Prelude.{◌≡◌, IfOk, OnOk, length};
ghost use Rattle.probe_run.specs.Runs.{state_of};
ghost use Rattle.probe_run.specs.State.{actor_at, keep_at, task_number, with_task, with_new_task, server_number, with_server};

use crate::actor::{Actor, new_server, new_task};
use crate::notes::NO_NOTES;
use crate::run::Run;
use probe_findings::Whose;
use std::alloc::AllocError;

impl Run {
    /// What is known of the entity of this number.
    pub fn actor(&self, number: usize) -> Actor
        ensures { result ≡ actor_at (state_of self.now) number }
    {
        match self.actors.get(number) {
            Some(actor) => *actor,
            None => new_task(0, 0),
        }
    }

    /// The number of the task of this pid, if a line has shown it.
    pub fn task_number(&self, pid: u64) -> Option<usize>
        ensures { result ≡ (state_of self.now).tasks pid }
    {
        self.tasks.get(&pid).copied()
    }

    /// The number of the fair server of this CPU, if a line has shown it.
    pub fn server_number(&self, cpu: u32) -> Option<usize>
        ensures { result ≡ (state_of self.now).servers cpu }
    {
        self.servers.get(&cpu).copied()
    }

    /// The number of the entity whose timer lies at this address, if it is known.
    pub fn timer_owner(&self, address: u64) -> Option<usize>
        ensures { result ≡ (state_of self.now).timers address }
    {
        self.timers.get(&address).copied()
    }

    /// Keeps what is known of the entity of this number.
    pub fn keep(&mut self, number: usize, actor: Actor)
        ensures state { state_of self.new ≡ keep_at (state_of self.old) number actor }
        ensures first { (state_of self.new).first ≡ (state_of self.old).first }
    {
        if number < self.actors.len() {
            self.actors[number] = actor;
        }
    }

    /// The number of the task of this pid: it has one from now on.
    pub fn task(&mut self, pid: u64) -> Result<usize, AllocError>
        ensures number { IfOk result (λ number. number ≡ task_number (state_of self.old) pid) }
        ensures state { OnOk result (state_of self.new ≡ with_task (state_of self.old) pid) }
        ensures first { OnOk result ((state_of self.new).first ≡ (state_of self.old).first) }
    {
        match self.tasks.get(&pid).copied() {
            Some(number) => Ok(number),
            None => {
                let number = self.actors.len();
                self.actors.push(new_task(pid, 0))?;
                self.tasks.insert(pid, number)?;
                self.entity_notes.push(NO_NOTES)?;
                Ok(number)
            }
        }
    }

    /// The number of another task of this pid, whose task has ended.
    pub fn new_life(&mut self, pid: u64, ended: Whose) -> Result<usize, AllocError>
        ensures number { IfOk result (λ number. number ≡ length (state_of self.old).actors) }
        ensures state { OnOk result (state_of self.new ≡ with_new_task (state_of self.old) pid ended) }
        ensures first { OnOk result ((state_of self.new).first ≡ (state_of self.old).first) }
    {
        let life = match ended {
            Whose::Task { life, .. } => life.wrapping_add(1),
            Whose::Server { .. } => 0,
        };
        let number = self.actors.len();
        self.actors.push(new_task(pid, life))?;
        self.tasks.insert(pid, number)?;
        self.entity_notes.push(NO_NOTES)?;
        Ok(number)
    }

    /// The number of the fair server of this CPU: it has one from now on.
    pub fn server(&mut self, cpu: u32) -> Result<usize, AllocError>
        ensures number { IfOk result (λ number. number ≡ server_number (state_of self.old) cpu) }
        ensures state { OnOk result (state_of self.new ≡ with_server (state_of self.old) cpu) }
        ensures first { OnOk result ((state_of self.new).first ≡ (state_of self.old).first) }
    {
        match self.servers.get(&cpu).copied() {
            Some(number) => Ok(number),
            None => {
                let number = self.actors.len();
                self.actors.push(new_server(cpu))?;
                self.servers.insert(cpu, number)?;
                self.entity_notes.push(NO_NOTES)?;
                Ok(number)
            }
        }
    }
}
